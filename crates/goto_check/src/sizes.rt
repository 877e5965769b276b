//! How many nodes, source expressions, variables, FOR loops and targets of SELECT INTO a statement has.

ghost use Rattle.std.specs.Prelude.{◌≡◌, ◌+◌, ◌<◌, ◌^◌, length};
ghost use Rattle.select_into.specs.Entries.{checks};
ghost use Rattle.block_forms.specs.Laid.{after, place, decl_size, laid, laid_arm, laid_row, laid_arms, row_size, arms_size, decls_size, kind_size};
ghost use Rattle.goto_check.specs.Room.{here, Small};

use crate::spots::{Spot, after, spot_of};
use away_trees::{Arm, Decl, LoopKind, Stmt};

pub(crate) fn decl_size(d: &Decl) -> Spot
    ensures { here result ≡ decl_size d.now }
{
    spot_of(1, if d.default.is_some() { 1 } else { 0 }, 1, 0, 0)
}

pub(crate) fn decls_size(list: &[Decl]) -> Spot
    requires { Small (decls_size list.now) }
    ensures { here result ≡ decls_size list.now }
{
    let mut total = spot_of(0, 0, 0, 0, 0);
    for i in 0..list.len() {
        total = after(total, decl_size(&list[i]));
    }
    total
}

pub(crate) fn kind_size(kind: &LoopKind) -> Spot
    ensures { here result ≡ kind_size kind.now }
{
    match kind {
        LoopKind::Plain => spot_of(1, 0, 0, 0, 0),
        LoopKind::While(_) => spot_of(1, 1, 0, 0, 0),
        LoopKind::Count { step, .. } => match step {
            None => spot_of(1, 2, 1, 1, 0),
            Some(_) => spot_of(1, 3, 1, 1, 0),
        },
    }
}

pub(crate) fn checks(strict: bool) -> usize
    ensures { result ≡ checks strict }
{
    if strict { 2 } else { 0 }
}

fn into_size(strict: bool, targets: usize) -> Spot
    requires nodes { 1 + targets < 2 ^ 64 }
    requires tests { checks strict + targets < 2 ^ 64 }
    ensures { here result ≡ place (1 + targets) (checks strict + targets) 0 0 targets }
{
    spot_of(1 + targets, checks(strict) + targets, 0, 0, targets)
}

#[cycle(size)]
#[tactic(auto, using(crate::proofs::Equations::laid_rules))]
pub(crate) fn size_of(s: &Stmt) -> Spot
    requires { Small (laid s.now).size }
    ensures { here result ≡ (laid s.now).size }
{
    match s {
        Stmt::Block { decls, body, .. } => {
            let before = after(spot_of(1, 0, 0, 0, 0), decls_size(decls.as_slice()));
            after(before, size_of_row(body.as_slice()))
        }
        Stmt::If(arms, other) | Stmt::Cases(arms, other) => {
            let before = after(spot_of(1, 0, 0, 0, 0), size_of_arms(arms.as_slice()));
            match other {
                None => before,
                Some(body) => after(
                    before,
                    after(spot_of(1, 0, 0, 0, 0), size_of_row(body.as_slice())),
                ),
            }
        }
        Stmt::Loop { kind, body, .. } => after(kind_size(kind), size_of_row(body.as_slice())),
        Stmt::Into {
            strict,
            targets,
            ..
        } => into_size(*strict, targets.len()),
        Stmt::Exit(_, when) | Stmt::Continue(_, when) => match when {
            None => spot_of(1, 0, 0, 0, 0),
            Some(_) => spot_of(1, 1, 0, 0, 0),
        },
        Stmt::Assign(_, _, _) | Stmt::Return(_) => spot_of(1, 1, 0, 0, 0),
        Stmt::Raise(_) | Stmt::Nothing => spot_of(1, 0, 0, 0, 0),
    }
}

#[cycle(size)]
#[tactic(auto, using(crate::proofs::Equations::laid_rules))]
pub(crate) fn size_of_row(list: &[Stmt]) -> Spot
    requires { Small (row_size (laid_row list.now)) }
    ensures { here result ≡ row_size (laid_row list.now) }
{
    let mut total = spot_of(0, 0, 0, 0, 0);
    for i in 0..list.len() {
        total = after(total, size_of(&list[i]));
    }
    total
}

#[cycle(size)]
#[tactic(auto, using(crate::proofs::Equations::laid_rules))]
pub(crate) fn size_of_arm(arm: &Arm) -> Spot
    requires { Small (laid_arm arm.now).size }
    ensures { here result ≡ (laid_arm arm.now).size }
{
    after(spot_of(1, 1, 0, 0, 0), size_of_row(arm.body.as_slice()))
}

#[cycle(size)]
#[tactic(auto, using(crate::proofs::Equations::laid_rules))]
pub(crate) fn size_of_arms(list: &[Arm]) -> Spot
    requires { Small (arms_size (laid_arms list.now)) }
    ensures { here result ≡ arms_size (laid_arms list.now) }
{
    let mut total = spot_of(0, 0, 0, 0, 0);
    for i in 0..list.len() {
        total = after(total, size_of_arm(&list[i]));
    }
    total
}
