//! How many blocks a statement has.

ghost use Rattle.std.specs.Prelude.{◌≡◌, ◌+◌, IfOk, map};
ghost use Rattle.std.specs.Option.{option_copied};
ghost use Rattle.goto_lower.specs.Building as spec;
ghost use Rattle.goto_lower.specs.IntoBlocks.{check_many, put_many, puts_many, into_many};
ghost use Rattle.goto_lower.specs.Drafts.{statement_in, row_in, arm_in, arms_in};

use crate::setting::Setting;
use crate::sizes::targets_of;
use crate::sums::sum;
use away_trees::{Arm, Decl, Expr, LoopKind, Stmt};
use away_types::Slot;
use away_values::{Name, NoMemory};

pub(crate) fn set_many(not_null: bool) -> u32
    ensures { result ≡ spec.set_many not_null }
{
    if not_null { 3 } else { 1 }
}

pub(crate) fn slot_many(slot: Option<&Slot>) -> u32
    ensures { result ≡ spec.slot_many (option_copied slot.entry) }
{
    match slot {
        None => 1,
        Some(slot) => set_many(slot.not_null),
    }
}

pub(crate) fn decls_many(decls: &[Decl]) -> Result<u32, NoMemory>
    ensures { IfOk result (λ k. k ≡ spec.decls_many decls.now) }
{
    let mut many = 0;
    for i in 0..decls.len() {
        many = sum(many, set_many(decls[i].not_null))?;
    }
    Ok(many)
}

pub(crate) fn step_many(step: &Option<Expr>) -> u32
    ensures { result ≡ spec.step_many step.now }
{
    match step {
        None => 1,
        Some(_) => 5,
    }
}

pub(crate) fn check_many(strict: bool) -> u32
    ensures { result ≡ check_many strict }
{
    if strict { 4 } else { 0 }
}

pub(crate) fn put_many(setting: &Setting<'_>, target: Option<u32>) -> u32
    ensures { result ≡ put_many setting.now.slots.now target }
{
    match target {
        None => 1,
        Some(slot) => slot_many(setting.slot(slot)),
    }
}

fn puts_many(setting: &Setting<'_>, targets: &[(Name, Option<u32>)]) -> Result<u32, NoMemory>
    ensures { IfOk result (λ k. k ≡ puts_many setting.now.slots.now targets.now) }
{
    let mut many = 0;
    for i in 0..targets.len() {
        many = sum(many, put_many(setting, targets[i].1))?;
    }
    Ok(many)
}

fn into_many(
    setting: &Setting<'_>,
    strict: bool,
    targets: &[(Name, Option<u32>)],
) -> Result<u32, NoMemory>
    ensures { IfOk result (λ k. k ≡ into_many setting.now.slots.now strict targets.now) }
{
    let puts = puts_many(setting, targets)?;
    sum(check_many(strict), sum(targets_of(targets)?, puts)?)
}

#[cycle(many)]
#[tactic(auto, using(crate::proofs::BuildingEquations::many_rules))]
pub(crate) fn statement_many(setting: &Setting<'_>, s: &Stmt) -> Result<u32, NoMemory>
    ensures { IfOk result (λ k. k ≡ (statement_in setting.now s.now).many) }
{
    match s {
        Stmt::Block { decls, body, .. } => {
            let before = decls_many(decls.as_slice())?;
            sum(before, row_many(setting, body.as_slice())?)
        }
        Stmt::Assign(_, target, _) => match target {
            None => Ok(1),
            Some(slot) => Ok(slot_many(setting.slot(*slot))),
        },
        Stmt::If(arms, other) => {
            let before = arms_many(setting, arms.as_slice())?;
            match other {
                None => Ok(before),
                Some(body) => sum(before, row_many(setting, body.as_slice())?),
            }
        }
        Stmt::Cases(arms, other) => {
            let before = arms_many(setting, arms.as_slice())?;
            match other {
                None => sum(before, 1),
                Some(body) => sum(before, row_many(setting, body.as_slice())?),
            }
        }
        Stmt::Loop { kind, body, .. } => {
            let inside = row_many(setting, body.as_slice())?;
            match kind {
                LoopKind::Plain | LoopKind::While(_) => sum(1, inside),
                LoopKind::Count { step, .. } => sum(10 + step_many(step), inside),
            }
        }
        Stmt::Into {
            strict,
            targets,
            ..
        } => into_many(setting, *strict, targets.as_slice()),
        Stmt::Exit(_, _)
        | Stmt::Continue(_, _)
        | Stmt::Return(_)
        | Stmt::Raise(_)
        | Stmt::Nothing => Ok(1),
    }
}

#[cycle(many)]
#[tactic(auto, using(crate::proofs::BuildingEquations::many_rules))]
pub(crate) fn row_many(setting: &Setting<'_>, list: &[Stmt]) -> Result<u32, NoMemory>
    ensures { IfOk result (λ k. k ≡ spec.row_many (row_in setting.now list.now)) }
{
    let mut many = 0;
    for i in 0..list.len() {
        many = sum(many, statement_many(setting, &list[i])?)?;
    }
    Ok(many)
}

#[cycle(many)]
#[tactic(auto, using(crate::proofs::BuildingEquations::many_rules))]
fn arm_many(setting: &Setting<'_>, arm: &Arm) -> Result<u32, NoMemory>
    ensures { IfOk result (λ k. k ≡ spec.arm_many (arm_in setting.now arm.now)) }
{
    sum(1, row_many(setting, arm.body.as_slice())?)
}

#[cycle(many)]
#[tactic(auto, using(crate::proofs::BuildingEquations::many_rules))]
pub(crate) fn arms_many(setting: &Setting<'_>, list: &[Arm]) -> Result<u32, NoMemory>
    ensures { IfOk result (λ k. k ≡ spec.arms_many (arms_in setting.now list.now)) }
{
    let mut many = 0;
    for i in 0..list.len() {
        many = sum(many, arm_many(setting, &list[i])?)?;
    }
    Ok(many)
}
