//! Expressions with names again, as they are written.

ghost use Rattle.std.specs.Prelude.{◌≡◌, IfOk, map, option_map};
ghost use Rattle.elaboration.specs.Marks.{plain_op};
ghost use Rattle.qualified_names.specs.Sight.{sight};
ghost use Rattle.qualified_names.specs.Trees as spec;

use crate::qualifying_queries::qualified_shown;
use crate::sight::{Sight, reference};
use away_names::note::Shown;
use away_trees::{Expr, Query};
use away_values::{ChainOp, NoMemory};
use sqlite_items::{Boxed, Items};
use std::alloc::Global;

/// The operation without its mark.
#[tactic(auto, unfolding(elaboration::specs::Marks::plain_op))]
fn plain(op: ChainOp) -> ChainOp
    ensures { result ≡ plain_op op }
{
    match op {
        ChainOp::Small(op) => ChainOp::Int(op),
        ChainOp::Or | ChainOp::And | ChainOp::Concat | ChainOp::Int(_) => op,
    }
}

#[cycle(qualifying)]
#[tactic(auto, using(crate::proofs::QualifyingRules::qualifying_rules))]
pub(crate) fn qualified_expr(alloc: Global, e: &Expr, s: &Sight<'_>) -> Result<Expr, NoMemory>
    ensures { IfOk result (λ x. x ≡ spec.qualified_expr e.now (sight s.now)) }
{
    match e {
        Expr::Int(n) => Ok(Expr::Int(*n)),
        Expr::Str(t) => Ok(Expr::Str(t.copy(alloc)?)),
        Expr::Bool(b) => Ok(Expr::Bool(*b)),
        Expr::Null => Ok(Expr::Null),
        Expr::Named(n) => Ok(Expr::Named(n.copy(alloc)?)),
        Expr::Dotted(a, n) => Ok(Expr::Dotted(a.copy(alloc)?, n.copy(alloc)?)),
        Expr::Slot(i) => Ok(Expr::Slot(*i)),
        Expr::Column(c) => reference(alloc, *c, s),
        Expr::Param(i, ty) => Ok(Expr::Param(*i, *ty)),
        Expr::Neg(a) => Ok(Expr::Neg(qualified_box(alloc, a.get(), s)?)),
        Expr::NegSmall(a) => Ok(Expr::Neg(qualified_box(alloc, a.get(), s)?)),
        Expr::Not(a) => Ok(Expr::Not(qualified_box(alloc, a.get(), s)?)),
        Expr::Is(a, test, negative) => {
            let x = qualified_box(alloc, a.get(), s)?;
            Ok(Expr::Is(x, *test, *negative))
        }
        Expr::Chain(first, links) => {
            let x = qualified_box(alloc, first.get(), s)?;
            let xs = qualified_links(alloc, links.as_slice(), s)?;
            Ok(Expr::Chain(x, xs))
        }
        Expr::Compare(op, a, b) => {
            let x = qualified_box(alloc, a.get(), s)?;
            let y = qualified_box(alloc, b.get(), s)?;
            Ok(Expr::Compare(*op, x, y))
        }
        Expr::Between(negative, a, low, high) => {
            let x = qualified_box(alloc, a.get(), s)?;
            let y = qualified_box(alloc, low.get(), s)?;
            let z = qualified_box(alloc, high.get(), s)?;
            Ok(Expr::Between(*negative, x, y, z))
        }
        Expr::OneOf(negative, a, choices) => {
            let x = qualified_box(alloc, a.get(), s)?;
            let xs = qualified_all(alloc, choices.as_slice(), s)?;
            Ok(Expr::OneOf(*negative, x, xs))
        }
        Expr::Cast(a, ty) => Ok(Expr::Cast(qualified_box(alloc, a.get(), s)?, *ty)),
        Expr::Cases(arms, other) => {
            let xs = qualified_arms(alloc, arms.as_slice(), s)?;
            let y = qualified_other(alloc, other, s)?;
            Ok(Expr::Cases(xs, y))
        }
        Expr::Call(name, args) => {
            let function = name.copy(alloc)?;
            Ok(Expr::Call(function, qualified_all(alloc, args.as_slice(), s)?))
        }
        Expr::CountRows => Ok(Expr::CountRows),
        Expr::Scalar(q) => Ok(Expr::Scalar(qualified_subquery(alloc, q.get(), s)?)),
        Expr::Exists(q) => Ok(Expr::Exists(qualified_subquery(alloc, q.get(), s)?)),
    }
}

#[cycle(qualifying)]
fn qualified_box(alloc: Global, e: &Expr, s: &Sight<'_>) -> Result<Boxed<Expr>, NoMemory>
    ensures { IfOk result (λ x. x ≡ spec.qualified_expr e.now (sight s.now)) }
{
    Ok(Boxed::new(alloc, qualified_expr(alloc, e, s)?)?)
}

#[cycle(qualifying)]
fn qualified_subquery(alloc: Global, q: &Query, s: &Sight<'_>) -> Result<Boxed<Query>, NoMemory>
    ensures { IfOk result (λ x. x ≡ (spec.qualified_shown q.now (sight s.now)).it) }
{
    let Shown { it, names: _ } = qualified_shown(alloc, q, s)?;
    Ok(Boxed::new(alloc, it)?)
}

#[cycle(qualifying)]
fn qualified_links(
    alloc: Global,
    links: &[(ChainOp, Expr)],
    s: &Sight<'_>,
) -> Result<Items<(ChainOp, Expr)>, NoMemory>
    ensures { IfOk result (λ xs. xs ≡ map (spec.qualified_link (sight s.now)) links.now) }
{
    let mut done = Items::new(alloc);
    for link in links {
        done.push((plain(link.0), qualified_expr(alloc, &link.1, s)?))?;
    }
    Ok(done)
}

#[cycle(qualifying)]
fn qualified_all(alloc: Global, es: &[Expr], s: &Sight<'_>) -> Result<Items<Expr>, NoMemory>
    ensures { IfOk result (λ xs. xs ≡ map (spec.qualified_in (sight s.now)) es.now) }
{
    let mut done = Items::new(alloc);
    for e in es {
        done.push(qualified_expr(alloc, e, s)?)?;
    }
    Ok(done)
}

#[cycle(qualifying)]
fn qualified_arms(
    alloc: Global,
    arms: &[(Expr, Expr)],
    s: &Sight<'_>,
) -> Result<Items<(Expr, Expr)>, NoMemory>
    ensures { IfOk result (λ xs. xs ≡ map (spec.qualified_arm (sight s.now)) arms.now) }
{
    let mut done = Items::new(alloc);
    for arm in arms {
        let x = qualified_expr(alloc, &arm.0, s)?;
        let y = qualified_expr(alloc, &arm.1, s)?;
        done.push((x, y))?;
    }
    Ok(done)
}

#[cycle(qualifying)]
fn qualified_other(
    alloc: Global,
    other: &Option<Boxed<Expr>>,
    s: &Sight<'_>,
) -> Result<Option<Boxed<Expr>>, NoMemory>
    ensures { IfOk result (λ x. x ≡ option_map (spec.qualified_in (sight s.now)) other.now) }
{
    match other {
        None => Ok(None),
        Some(e) => Ok(Some(qualified_box(alloc, e.get(), s)?)),
    }
}

#[cycle(qualifying)]
pub(crate) fn qualified_maybe(
    alloc: Global,
    e: &Option<Expr>,
    s: &Sight<'_>,
) -> Result<Option<Expr>, NoMemory>
    ensures { IfOk result (λ x. x ≡ option_map (spec.qualified_in (sight s.now)) e.now) }
{
    match e {
        None => Ok(None),
        Some(e) => Ok(Some(qualified_expr(alloc, e, s)?)),
    }
}
