//! Expressions for places that ask for a type.

ghost use Rattle.std.specs.Prelude.{◌≡◌, IfOk};
ghost use Rattle.away_typing.specs.TypingLists.{places};
ghost use Rattle.elaboration.specs.Converting as spec;
ghost use Rattle.elaboration.specs.ConvertingLists.{around};

use crate::elaborating::elaborated;
use crate::made::Made;
use away_trees::{Decl, Expr, LoopKind};
use away_typing::kind::{Kind, fits};
use away_typing::types::Places;
use away_values::{Name, NoMemory, Ty};
use sqlite_items::{Boxed, Items};
use std::alloc::Global;

/// What the expressions of a function see, the type of its result, and that of the counters of FOR.
#[derive(Clone, Copy)]
pub struct Around<'a> {
    pub places: Places<'a>,
    pub result: Ty,
    pub counter: Ty,
}

/// Whether a number stands for the other type of numbers.
#[tactic(auto, unfolding(crate::specs::Converting::converts))]
pub fn converts(t: Ty, k: Kind) -> bool
    ensures { result ≡ spec.converts t k }
{
    match t {
        Ty::Integer => match k {
            Kind::Of(Ty::Bigint) => true,
            _ => false,
        },
        Ty::Bigint => match k {
            Kind::Of(Ty::Integer) => true,
            _ => false,
        },
        Ty::Boolean | Ty::Text => false,
    }
}

/// What may stand where a type is asked for. The manual: 43.5.1, Assignment, and 10.4, Value Storage.
#[tactic(auto, unfolding(crate::specs::Converting::assignable))]
pub fn assignable(t: Ty, k: Kind) -> bool
    ensures { result ≡ spec.assignable t k }
{
    fits(t, k) || converts(t, k)
}

fn with_cast(alloc: Global, t: Ty, x: Made<Expr>) -> Result<Expr, NoMemory>
    ensures { IfOk result (λ e. e ≡ spec.with_cast t x) }
{
    if converts(t, x.kind) {
        Ok(Expr::Cast(Boxed::new(alloc, x.it)?, t))
    } else {
        Ok(x.it)
    }
}

/// An expression with its operations marked, converted to the type.
#[tactic(auto, unfolding(crate::specs::Converting::converted_to))]
pub fn converted_to(alloc: Global, t: Ty, e: &Expr, p: &Places<'_>) -> Result<Expr, NoMemory>
    ensures { IfOk result (λ x. x ≡ spec.converted_to t (places p.now) e.now) }
{
    let x = elaborated(alloc, e, p)?;
    with_cast(alloc, t, x)
}

pub fn marked(alloc: Global, e: &Expr, p: &Places<'_>) -> Result<Expr, NoMemory>
    ensures { IfOk result (λ x. x ≡ spec.marked (places p.now) e.now) }
{
    let x = elaborated(alloc, e, p)?;
    Ok(x.it)
}

fn maybe_converted(
    alloc: Global,
    t: Ty,
    e: &Option<Expr>,
    p: &Places<'_>,
) -> Result<Option<Expr>, NoMemory>
    ensures { IfOk result (λ x. x ≡ spec.maybe_converted t (places p.now) e.now) }
{
    match e {
        None => Ok(None),
        Some(e) => Ok(Some(converted_to(alloc, t, e, p)?)),
    }
}

pub fn maybe_marked(
    alloc: Global,
    e: &Option<Expr>,
    p: &Places<'_>,
) -> Result<Option<Expr>, NoMemory>
    ensures { IfOk result (λ x. x ≡ spec.maybe_marked (places p.now) e.now) }
{
    match e {
        None => Ok(None),
        Some(e) => Ok(Some(marked(alloc, e, p)?)),
    }
}

pub fn slot_type(a: &Around<'_>, slot: Option<u32>) -> Option<Ty>
    ensures { result ≡ spec.slot_type (around a.now) slot }
{
    match slot {
        None => None,
        Some(i) => a.places.slots.get(i as usize).copied(),
    }
}

/// The expression of an assignment.
pub fn for_slot(alloc: Global, t: Option<Ty>, e: &Expr, p: &Places<'_>) -> Result<Expr, NoMemory>
    ensures { IfOk result (λ x. x ≡ spec.for_slot t (places p.now) e.now) }
{
    match t {
        None => marked(alloc, e, p),
        Some(t) => converted_to(alloc, t, e, p),
    }
}

fn decl_converted(alloc: Global, d: &Decl, a: &Around<'_>) -> Result<Decl, NoMemory>
    ensures { IfOk result (λ x. x ≡ spec.decl_converted (around a.now) d.now) }
{
    let default = maybe_converted(alloc, d.ty, &d.default, &a.places)?;
    Ok(Decl {
        name: d.name.copy(alloc)?,
        ty: d.ty,
        constant: d.constant,
        not_null: d.not_null,
        default,
    })
}

pub fn decls_converted(
    alloc: Global,
    decls: &[Decl],
    a: &Around<'_>,
) -> Result<Items<Decl>, NoMemory>
    ensures { IfOk result (λ x. x ≡ spec.decls_converted (around a.now) decls.now) }
{
    let mut done = Items::new(alloc);
    for d in decls {
        done.push(decl_converted(alloc, d, a)?)?;
    }
    Ok(done)
}

/// The head of a loop.
pub fn kind_converted(
    alloc: Global,
    kind: &LoopKind,
    a: &Around<'_>,
) -> Result<Boxed<LoopKind>, NoMemory>
    ensures { IfOk result (λ x. x ≡ spec.kind_converted (around a.now) kind.now) }
{
    match kind {
        LoopKind::Plain => Ok(Boxed::new(alloc, LoopKind::Plain)?),
        LoopKind::While(e) => {
            let test = marked(alloc, e, &a.places)?;
            Ok(Boxed::new(alloc, LoopKind::While(test))?)
        }
        LoopKind::Count {
            var,
            reverse,
            first,
            last,
            step,
        } => {
            let x = converted_to(alloc, a.counter, first, &a.places)?;
            let y = converted_to(alloc, a.counter, last, &a.places)?;
            let z = maybe_converted(alloc, a.counter, step, &a.places)?;
            let head = LoopKind::Count {
                var: var.copy(alloc)?,
                reverse: *reverse,
                first: x,
                last: y,
                step: z,
            };
            Ok(Boxed::new(alloc, head)?)
        }
    }
}

/// The targets of an INTO.
pub fn copy_targets(
    alloc: Global,
    targets: &[(Name, Option<u32>)],
) -> Result<Items<(Name, Option<u32>)>, NoMemory>
    ensures { IfOk result (λ x. x ≡ targets.now) }
{
    let mut done = Items::new(alloc);
    for i in 0..targets.len() {
        done.push((targets[i].0.copy(alloc)?, targets[i].1))?;
    }
    Ok(done)
}
