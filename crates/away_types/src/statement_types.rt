//! The types that statements ask of their expressions, and where aggregates may not stand.

ghost use Rattle.std.specs.Prelude.{◌≡◌, IfOk};
ghost use Rattle.away_types.specs.AskedBy.{asked_by};
ghost use Rattle.away_types.specs.StatementTypes as spec;

use crate::finding::{Report, branched, followed, nothing, own, own_with};
use away_names::note::{Note, breaks, clean, joined};
use away_names::rule::Rule;
use away_trees::{Arm, Decl, Expr, LoopKind, Select, Stmt};
use away_typing::kind::{Kind, fits};
use away_typing::types::{Places, kind, select_shape};
use away_typing::uses::{outside, select_used, used};
use away_values::{Name, NoMemory, Ty};
use elaboration::converting::assignable;
use sqlite_items::Items;
use std::alloc::Global;

/// What the expressions of a function see, and the type of its result.
#[derive(Clone, Copy)]
pub struct Asking<'a> {
    pub places: Places<'a>,
    pub result: Ty,
}

#[tactic(auto, unfolding(crate::specs::StatementTypes::asked))]
fn asked(alloc: Global, a: &Asking<'_>, ty: Ty, e: &Expr) -> Result<Note, NoMemory>
    ensures { IfOk result (λ n. n ≡ spec.asked (asked_by a.now) ty e.now) }
{
    let k = kind(alloc, e, &a.places)?;
    let u = used(e)?;
    Ok(joined(
        breaks(Rule::Types, !fits(ty, k) || u.limited),
        breaks(Rule::Aggregates, outside(u).misused),
    ))
}

fn maybe_asked(alloc: Global, a: &Asking<'_>, ty: Ty, e: &Option<Expr>) -> Result<Note, NoMemory>
    ensures { IfOk result (λ n. n ≡ spec.maybe_asked (asked_by a.now) ty e.now) }
{
    match e {
        None => Ok(clean()),
        Some(e) => asked(alloc, a, ty, e),
    }
}

fn slot_type(a: &Asking<'_>, slot: Option<u32>) -> Option<Ty>
    ensures { result ≡ spec.slot_of (asked_by a.now) slot }
{
    match slot {
        None => None,
        Some(i) => a.places.slots.get(i as usize).copied(),
    }
}

#[tactic(auto, unfolding(crate::specs::StatementTypes::asked_of_slot))]
fn asked_of_slot(alloc: Global, a: &Asking<'_>, ty: Option<Ty>, e: &Expr) -> Result<Note, NoMemory>
    ensures { IfOk result (λ n. n ≡ spec.asked_of_slot (asked_by a.now) ty e.now) }
{
    match ty {
        None => Ok(breaks(Rule::Types, true)),
        Some(ty) => asked(alloc, a, ty, e),
    }
}

#[tactic(auto, unfolding(crate::specs::StatementTypes::takes))]
fn takes(ty: Option<Ty>, k: Kind) -> bool
    ensures { result ≡ spec.takes ty k }
{
    match ty {
        None => false,
        Some(ty) => assignable(ty, k),
    }
}

fn all_taken(a: &Asking<'_>, targets: &[(Name, Option<u32>)], kinds: &[Kind]) -> bool
    ensures { result ≡ spec.all_taken (asked_by a.now) targets.now kinds.now }
{
    let mut ts = targets;
    let mut ks = kinds;
    while let [t, more @ ..] = ts {
        let [k, others @ ..] = ks else {
            return false;
        };
        if !takes(slot_type(a, t.1), *k) {
            return false;
        }
        ts = more;
        ks = others;
    }
    ks.is_empty()
}

#[tactic(auto, unfolding(crate::specs::StatementTypes::takes_list))]
fn takes_list(a: &Asking<'_>, targets: &[(Name, Option<u32>)], kinds: &Option<Items<Kind>>) -> bool
    ensures { result ≡ spec.takes_list (asked_by a.now) targets.now kinds.now }
{
    if targets.is_empty() {
        return false;
    }
    match kinds {
        None => false,
        Some(list) => all_taken(a, targets, list.as_slice()),
    }
}

/// What INTO asks of its select. The manual: 43.5.3, where the items have the number and the types of the targets. That this is
/// judged before a run is our own choice.
#[tactic(auto, unfolding(crate::specs::StatementTypes::asked_of_targets))]
fn asked_of_targets(
    alloc: Global,
    a: &Asking<'_>,
    targets: &[(Name, Option<u32>)],
    query: &Select,
) -> Result<Note, NoMemory>
    ensures { IfOk result (λ n. n
        ≡ spec.asked_of_targets (asked_by a.now) targets.now query.now) }
{
    let kinds = select_shape(alloc, query, &a.places)?;
    let u = select_used(query)?;
    Ok(joined(
        breaks(Rule::Types, !takes_list(a, targets, &kinds) || u.limited),
        breaks(Rule::Aggregates, u.misused),
    ))
}

fn defaults(alloc: Global, decls: &[Decl], a: &Asking<'_>) -> Result<Note, NoMemory>
    ensures { IfOk result (λ n. n ≡ spec.defaults decls.now (asked_by a.now)) }
{
    let mut note = clean();
    for d in decls {
        note = joined(note, maybe_asked(alloc, a, d.ty, &d.default)?);
    }
    Ok(note)
}

fn head_asked(alloc: Global, kind: &LoopKind, a: &Asking<'_>) -> Result<Note, NoMemory>
    ensures { IfOk result (λ n. n ≡ spec.head_asked kind.now (asked_by a.now)) }
{
    match kind {
        LoopKind::Plain => Ok(clean()),
        LoopKind::While(e) => asked(alloc, a, Ty::Boolean, e),
        LoopKind::Count {
            first,
            last,
            step,
            ..
        } => {
            let x = asked(alloc, a, Ty::Integer, first)?;
            let y = asked(alloc, a, Ty::Integer, last)?;
            let z = maybe_asked(alloc, a, Ty::Integer, step)?;
            Ok(joined(x, joined(y, z)))
        }
    }
}

/// What the types of a statement break, and of what stands in it.
#[cycle(asking)]
#[tactic(auto, using(crate::proofs::AskingRules::asking_rules))]
pub fn asked_stmt(alloc: Global, a: &Asking<'_>, s: &Stmt) -> Result<Report, NoMemory>
    ensures { IfOk result (λ n. n ≡ spec.asked_stmt (asked_by a.now) s.now) }
{
    match s {
        Stmt::Block { decls, body, .. } => {
            let x = defaults(alloc, decls.as_slice(), a)?;
            let y = asked_body(alloc, a, body.as_slice())?;
            followed(own_with(decls.len(), x)?, y)
        }
        Stmt::Assign(_, slot, e) => {
            let x = asked_of_slot(alloc, a, slot_type(a, *slot), e)?;
            Ok(own(1, x))
        }
        Stmt::If(arms, other) | Stmt::Cases(arms, other) => {
            let x = asked_arms(alloc, a, arms.as_slice())?;
            match other {
                None => branched(x, nothing()),
                Some(body) => {
                    let y = asked_body(alloc, a, body.as_slice())?;
                    branched(x, followed(own(1, clean()), y)?)
                }
            }
        }
        Stmt::Loop { kind, body, .. } => {
            let x = head_asked(alloc, kind, a)?;
            let y = asked_body(alloc, a, body.as_slice())?;
            followed(own(1, x), y)
        }
        Stmt::Exit(_, when) | Stmt::Continue(_, when) => {
            let x = maybe_asked(alloc, a, Ty::Boolean, when)?;
            Ok(own(1, x))
        }
        Stmt::Return(e) => {
            let x = asked(alloc, a, a.result, e)?;
            Ok(own(1, x))
        }
        Stmt::Raise(_) => Ok(own(1, clean())),
        Stmt::Into { targets, query, .. } => {
            let x = asked_of_targets(alloc, a, targets.as_slice(), query)?;
            own_with(targets.len(), x)
        }
        Stmt::Nothing => Ok(own(1, clean())),
    }
}

#[cycle(asking)]
fn asked_body(alloc: Global, a: &Asking<'_>, list: &[Stmt]) -> Result<Report, NoMemory>
    ensures { IfOk result (λ n. n ≡ spec.asked_body (asked_by a.now) list.now) }
{
    let mut note = nothing();
    for s in list {
        note = followed(note, asked_stmt(alloc, a, s)?)?;
    }
    Ok(note)
}

#[cycle(asking)]
fn asked_arms(alloc: Global, a: &Asking<'_>, list: &[Arm]) -> Result<Report, NoMemory>
    ensures { IfOk result (λ n. n ≡ spec.asked_arms (asked_by a.now) list.now) }
{
    let mut note = nothing();
    for arm in list {
        note = followed(note, asked_arm(alloc, a, arm)?)?;
    }
    Ok(note)
}

#[cycle(asking)]
#[tactic(auto, using(crate::proofs::AskingRules::arm_asks))]
fn asked_arm(alloc: Global, a: &Asking<'_>, arm: &Arm) -> Result<Report, NoMemory>
    ensures { IfOk result (λ n. n ≡ spec.asked_arm (asked_by a.now) arm.now) }
{
    let test = asked(alloc, a, Ty::Boolean, &arm.test)?;
    let body = asked_body(alloc, a, arm.body.as_slice())?;
    followed(own(1, test), body)
}
