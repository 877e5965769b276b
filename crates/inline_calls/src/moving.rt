//! Expressions in which others stand for slots, or whose columns stand further out.

ghost use Rattle.std.specs.Prelude.{◌≡◌, IfOk, map, option_map};
ghost use Rattle.inline_calls.specs.Leaves.{leaf_of, place_of};
ghost use Rattle.inline_calls.specs.Moving as spec;

use crate::leaves::{Moves, column, slot};
use crate::moving_queries::moved_query;
use away_trees::{Expr, Query};
use away_values::{ChainOp, NoMemory};
use sqlite_items::{Boxed, Items};
use std::alloc::Global;

#[cycle(moving)]
#[tactic(auto, using(crate::proofs::MovingRules::leaf_rules))]
pub(crate) fn moved_expr(alloc: Global, e: &Expr, m: &Moves<'_>, d: usize) -> Result<Expr, NoMemory>
    ensures { IfOk result (λ x. x ≡ spec.expr_in (leaf_of m.now) (place_of m.now) d e.now) }
{
    match e {
        Expr::Int(n) => Ok(Expr::Int(*n)),
        Expr::Str(t) => Ok(Expr::Str(t.copy(alloc)?)),
        Expr::Bool(b) => Ok(Expr::Bool(*b)),
        Expr::Null => Ok(Expr::Null),
        Expr::Named(n) => Ok(Expr::Named(n.copy(alloc)?)),
        Expr::Dotted(a, n) => Ok(Expr::Dotted(a.copy(alloc)?, n.copy(alloc)?)),
        Expr::Slot(i) => slot(alloc, m, d, *i),
        Expr::Column(c) => column(m, d, *c),
        Expr::Param(i, ty) => Ok(Expr::Param(*i, *ty)),
        Expr::CountRows => Ok(Expr::CountRows),
        Expr::Neg(_)
        | Expr::NegSmall(_)
        | Expr::Not(_)
        | Expr::Is(_, _, _)
        | Expr::Cast(_, _)
        | Expr::Scalar(_)
        | Expr::Exists(_) => with_part_moved(alloc, e, m, d),
        Expr::Chain(_, _)
        | Expr::Compare(_, _, _)
        | Expr::Between(_, _, _, _)
        | Expr::OneOf(_, _, _)
        | Expr::Cases(_, _)
        | Expr::Call(_, _) => with_parts_moved(alloc, e, m, d),
    }
}

/// An expression with one part.
#[cycle(moving)]
#[tactic(auto, using(crate::proofs::MovingRules::one_part_rules))]
fn with_part_moved(alloc: Global, e: &Expr, m: &Moves<'_>, d: usize) -> Result<Expr, NoMemory>
    ensures { IfOk result (λ x. x ≡ spec.expr_in (leaf_of m.now) (place_of m.now) d e.now) }
{
    match e {
        Expr::Neg(a) => Ok(Expr::Neg(moved_box(alloc, a.get(), m, d)?)),
        Expr::NegSmall(a) => Ok(Expr::NegSmall(moved_box(alloc, a.get(), m, d)?)),
        Expr::Not(a) => Ok(Expr::Not(moved_box(alloc, a.get(), m, d)?)),
        Expr::Is(a, test, negative) => {
            Ok(Expr::Is(moved_box(alloc, a.get(), m, d)?, *test, *negative))
        }
        Expr::Cast(a, ty) => Ok(Expr::Cast(moved_box(alloc, a.get(), m, d)?, *ty)),
        Expr::Scalar(q) => Ok(Expr::Scalar(moved_subquery(alloc, q.get(), m, d)?)),
        Expr::Exists(q) => Ok(Expr::Exists(moved_subquery(alloc, q.get(), m, d)?)),
        _ => Err(NoMemory),
    }
}

/// An expression with several parts.
#[cycle(moving)]
#[tactic(auto, using(crate::proofs::MovingRules::parts_rules))]
fn with_parts_moved(alloc: Global, e: &Expr, m: &Moves<'_>, d: usize) -> Result<Expr, NoMemory>
    ensures { IfOk result (λ x. x ≡ spec.expr_in (leaf_of m.now) (place_of m.now) d e.now) }
{
    match e {
        Expr::Chain(first, links) => {
            let x = moved_box(alloc, first.get(), m, d)?;
            let xs = moved_links(alloc, links.as_slice(), m, d)?;
            Ok(Expr::Chain(x, xs))
        }
        Expr::Compare(op, a, b) => {
            let x = moved_box(alloc, a.get(), m, d)?;
            let y = moved_box(alloc, b.get(), m, d)?;
            Ok(Expr::Compare(*op, x, y))
        }
        Expr::Between(negative, a, low, high) => {
            let x = moved_box(alloc, a.get(), m, d)?;
            let y = moved_box(alloc, low.get(), m, d)?;
            let z = moved_box(alloc, high.get(), m, d)?;
            Ok(Expr::Between(*negative, x, y, z))
        }
        Expr::OneOf(negative, a, choices) => {
            let x = moved_box(alloc, a.get(), m, d)?;
            let xs = moved_all(alloc, choices.as_slice(), m, d)?;
            Ok(Expr::OneOf(*negative, x, xs))
        }
        Expr::Cases(arms, other) => {
            let xs = moved_arms(alloc, arms.as_slice(), m, d)?;
            let y = moved_other(alloc, other, m, d)?;
            Ok(Expr::Cases(xs, y))
        }
        Expr::Call(name, args) => {
            let function = name.copy(alloc)?;
            Ok(Expr::Call(function, moved_all(alloc, args.as_slice(), m, d)?))
        }
        _ => Err(NoMemory),
    }
}

#[cycle(moving)]
fn moved_box(alloc: Global, e: &Expr, m: &Moves<'_>, d: usize) -> Result<Boxed<Expr>, NoMemory>
    ensures { IfOk result (λ x. x ≡ spec.expr_in (leaf_of m.now) (place_of m.now) d e.now) }
{
    Ok(Boxed::new(alloc, moved_expr(alloc, e, m, d)?)?)
}

#[cycle(moving)]
pub(crate) fn moved_subquery(
    alloc: Global,
    q: &Query,
    m: &Moves<'_>,
    d: usize,
) -> Result<Boxed<Query>, NoMemory>
    ensures { IfOk result (λ x. x ≡ spec.query_in (leaf_of m.now) (place_of m.now) d q.now) }
{
    Ok(Boxed::new(alloc, moved_query(alloc, q, m, d)?)?)
}

#[cycle(moving)]
fn moved_links(
    alloc: Global,
    links: &[(ChainOp, Expr)],
    m: &Moves<'_>,
    d: usize,
) -> Result<Items<(ChainOp, Expr)>, NoMemory>
    ensures { IfOk result (λ xs. xs ≡ map (spec.link_in (leaf_of m.now) (place_of m.now) d) links.now) }
{
    let mut done = Items::new(alloc);
    for link in links {
        done.push((link.0, moved_expr(alloc, &link.1, m, d)?))?;
    }
    Ok(done)
}

#[cycle(moving)]
pub(crate) fn moved_all(
    alloc: Global,
    es: &[Expr],
    m: &Moves<'_>,
    d: usize,
) -> Result<Items<Expr>, NoMemory>
    ensures { IfOk result (λ xs. xs ≡ map (spec.expr_in (leaf_of m.now) (place_of m.now) d) es.now) }
{
    let mut done = Items::new(alloc);
    for e in es {
        done.push(moved_expr(alloc, e, m, d)?)?;
    }
    Ok(done)
}

#[cycle(moving)]
fn moved_arms(
    alloc: Global,
    arms: &[(Expr, Expr)],
    m: &Moves<'_>,
    d: usize,
) -> Result<Items<(Expr, Expr)>, NoMemory>
    ensures { IfOk result (λ xs. xs ≡ map (spec.arm_in (leaf_of m.now) (place_of m.now) d) arms.now) }
{
    let mut done = Items::new(alloc);
    for arm in arms {
        let x = moved_expr(alloc, &arm.0, m, d)?;
        let y = moved_expr(alloc, &arm.1, m, d)?;
        done.push((x, y))?;
    }
    Ok(done)
}

#[cycle(moving)]
fn moved_other(
    alloc: Global,
    other: &Option<Boxed<Expr>>,
    m: &Moves<'_>,
    d: usize,
) -> Result<Option<Boxed<Expr>>, NoMemory>
    ensures { IfOk result (λ x. x ≡ option_map (spec.expr_in (leaf_of m.now) (place_of m.now) d) other.now) }
{
    match other {
        None => Ok(None),
        Some(e) => Ok(Some(moved_box(alloc, e.get(), m, d)?)),
    }
}

#[cycle(moving)]
pub(crate) fn moved_maybe(
    alloc: Global,
    e: &Option<Expr>,
    m: &Moves<'_>,
    d: usize,
) -> Result<Option<Expr>, NoMemory>
    ensures { IfOk result (λ x. x ≡ option_map (spec.expr_in (leaf_of m.now) (place_of m.now) d) e.now) }
{
    match e {
        None => Ok(None),
        Some(e) => Ok(Some(moved_expr(alloc, e, m, d)?)),
    }
}
