//! How many nodes, expressions, variables, FOR loops and targets of SELECT INTO a statement has.

ghost use Rattle.std.specs.Prelude.{◌≡◌, ◌+◌, IfOk, length};
ghost use Rattle.select_into.specs.Entries.{checks};
ghost use Rattle.block_forms.specs.Laid as spec;

use crate::sums::{after, place, sum};
use away_trees::{Arm, Decl, Expr, LoopKind, Stmt};
use away_values::{Name, NoMemory};
use block_forms::Position;

pub(crate) fn optional_size(when: &Option<Expr>) -> Position
    ensures { result ≡ spec.place 1 (spec.one_if when.now) 0 0 0 }
{
    match when {
        None => place(1, 0, 0, 0, 0),
        Some(_) => place(1, 1, 0, 0, 0),
    }
}

pub(crate) fn decl_size(d: &Decl) -> Position
    ensures { result ≡ spec.decl_size d.now }
{
    match &d.default {
        None => place(1, 0, 1, 0, 0),
        Some(_) => place(1, 1, 1, 0, 0),
    }
}

pub(crate) fn decls_size(decls: &[Decl]) -> Result<Position, NoMemory>
    ensures { IfOk result (λ p. p ≡ spec.decls_size decls.now) }
{
    let mut total = place(0, 0, 0, 0, 0);
    for i in 0..decls.len() {
        total = after(total, decl_size(&decls[i]))?;
    }
    Ok(total)
}

pub(crate) fn count_size(step: &Option<Expr>) -> Position
    ensures { result ≡ spec.place 1 (2 + spec.one_if step.now) 1 1 0 }
{
    match step {
        None => place(1, 2, 1, 1, 0),
        Some(_) => place(1, 3, 1, 1, 0),
    }
}

fn kind_size(kind: &LoopKind) -> Position
    ensures { result ≡ spec.kind_size kind.now }
{
    match kind {
        LoopKind::Plain => place(1, 0, 0, 0, 0),
        LoopKind::While(_) => place(1, 1, 0, 0, 0),
        LoopKind::Count { step, .. } => count_size(step),
    }
}

#[cycle(size)]
#[tactic(auto, using(crate::proofs::SizeEquations::size_rules))]
pub(crate) fn size_of(s: &Stmt) -> Result<Position, NoMemory>
    ensures { IfOk result (λ p. p ≡ (spec.laid s.now).size) }
{
    match s {
        Stmt::Block { decls, body, .. } => {
            let before = after(place(1, 0, 0, 0, 0), decls_size(decls.as_slice())?)?;
            after(before, size_of_row(body.as_slice())?)
        }
        Stmt::If(arms, other) | Stmt::Cases(arms, other) => {
            let before = after(place(1, 0, 0, 0, 0), size_of_arms(arms.as_slice())?)?;
            match other {
                None => Ok(before),
                Some(body) => {
                    let inside = after(place(1, 0, 0, 0, 0), size_of_row(body.as_slice())?)?;
                    after(before, inside)
                }
            }
        }
        Stmt::Loop { kind, body, .. } => after(kind_size(kind), size_of_row(body.as_slice())?),
        Stmt::Exit(_, when) | Stmt::Continue(_, when) => Ok(optional_size(when)),
        Stmt::Assign(_, _, _) | Stmt::Return(_) => Ok(place(1, 1, 0, 0, 0)),
        Stmt::Raise(_) | Stmt::Nothing => Ok(place(1, 0, 0, 0, 0)),
        Stmt::Into {
            strict,
            targets,
            ..
        } => into_size(*strict, targets.as_slice()),
    }
}

#[cycle(size)]
#[tactic(auto, using(crate::proofs::SizeEquations::size_rules))]
fn size_of_row(list: &[Stmt]) -> Result<Position, NoMemory>
    ensures { IfOk result (λ p. p ≡ spec.row_size (spec.laid_row list.now)) }
{
    let mut total = place(0, 0, 0, 0, 0);
    for i in 0..list.len() {
        total = after(total, size_of(&list[i])?)?;
    }
    Ok(total)
}

#[cycle(size)]
#[tactic(auto, using(crate::proofs::SizeEquations::size_rules))]
fn size_of_arm(arm: &Arm) -> Result<Position, NoMemory>
    ensures { IfOk result (λ p. p ≡ (spec.laid_arm arm.now).size) }
{
    after(place(1, 1, 0, 0, 0), size_of_row(arm.body.as_slice())?)
}

#[cycle(size)]
#[tactic(auto, using(crate::proofs::SizeEquations::size_rules))]
fn size_of_arms(list: &[Arm]) -> Result<Position, NoMemory>
    ensures { IfOk result (λ p. p ≡ spec.arms_size (spec.laid_arms list.now)) }
{
    let mut total = place(0, 0, 0, 0, 0);
    for i in 0..list.len() {
        total = after(total, size_of_arm(&list[i])?)?;
    }
    Ok(total)
}

/// How many targets there are.
pub(crate) fn targets_of(targets: &[(Name, Option<u32>)]) -> Result<u32, NoMemory>
    ensures { IfOk result (λ k. k ≡ length targets.now) }
{
    match u32::try_from(targets.len()) {
        Ok(many) => Ok(many),
        Err(_) => Err(NoMemory),
    }
}

/// How many tests STRICT makes.
pub(crate) fn checks(strict: bool) -> u32
    ensures { result ≡ checks strict }
{
    if strict { 2 } else { 0 }
}

fn into_size(strict: bool, targets: &[(Name, Option<u32>)]) -> Result<Position, NoMemory>
    ensures { IfOk result (λ p. p ≡ spec.into_size strict targets.now) }
{
    let many = targets_of(targets)?;
    Ok(place(sum(1, many)?, sum(checks(strict), many)?, 0, 0, many))
}
