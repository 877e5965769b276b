//! Expressions in which the variables have other names.

ghost use Rattle.std.specs.Prelude.{◌≡◌, IfOk, map, option_map};
ghost use Rattle.moved_names.specs.Renamed as spec;

use crate::renaming_queries::renamed_query;
use crate::sight::{Sight, moved};
use away_trees::{Expr, Query};
use away_values::{ChainOp, NoMemory};
use sqlite_items::{Boxed, Items};
use std::alloc::Global;

#[cycle(renaming)]
#[tactic(auto, using(crate::proofs::RenamingRules::leaf_rules))]
pub fn renamed_expr(alloc: Global, e: &Expr, s: &Sight<'_>) -> Result<Expr, NoMemory>
    ensures { IfOk result (λ x. x ≡ spec.renamed_expr (spec.moving s.now) e.now) }
{
    match e {
        Expr::Int(n) => Ok(Expr::Int(*n)),
        Expr::Str(t) => Ok(Expr::Str(t.copy(alloc)?)),
        Expr::Bool(b) => Ok(Expr::Bool(*b)),
        Expr::Null => Ok(Expr::Null),
        Expr::Named(n) => Ok(Expr::Named(moved(alloc, n, s)?)),
        Expr::Dotted(a, n) => Ok(Expr::Dotted(a.copy(alloc)?, n.copy(alloc)?)),
        Expr::Slot(i) => Ok(Expr::Slot(*i)),
        Expr::Column(c) => Ok(Expr::Column(*c)),
        Expr::Param(i, ty) => Ok(Expr::Param(*i, *ty)),
        Expr::CountRows => Ok(Expr::CountRows),
        Expr::Neg(_)
        | Expr::NegSmall(_)
        | Expr::Not(_)
        | Expr::Is(_, _, _)
        | Expr::Cast(_, _)
        | Expr::Scalar(_)
        | Expr::Exists(_) => with_part_renamed(alloc, e, s),
        Expr::Chain(_, _)
        | Expr::Compare(_, _, _)
        | Expr::Between(_, _, _, _)
        | Expr::OneOf(_, _, _)
        | Expr::Cases(_, _)
        | Expr::Call(_, _) => with_parts_renamed(alloc, e, s),
    }
}

/// An expression with one part.
#[cycle(renaming)]
#[tactic(auto, using(crate::proofs::RenamingRules::one_part_rules))]
fn with_part_renamed(alloc: Global, e: &Expr, s: &Sight<'_>) -> Result<Expr, NoMemory>
    ensures { IfOk result (λ x. x ≡ spec.renamed_expr (spec.moving s.now) e.now) }
{
    match e {
        Expr::Neg(a) => Ok(Expr::Neg(renamed_box(alloc, a.get(), s)?)),
        Expr::NegSmall(a) => Ok(Expr::NegSmall(renamed_box(alloc, a.get(), s)?)),
        Expr::Not(a) => Ok(Expr::Not(renamed_box(alloc, a.get(), s)?)),
        Expr::Is(a, test, negative) => {
            Ok(Expr::Is(renamed_box(alloc, a.get(), s)?, *test, *negative))
        }
        Expr::Cast(a, ty) => Ok(Expr::Cast(renamed_box(alloc, a.get(), s)?, *ty)),
        Expr::Scalar(q) => Ok(Expr::Scalar(renamed_subquery(alloc, q.get(), s)?)),
        Expr::Exists(q) => Ok(Expr::Exists(renamed_subquery(alloc, q.get(), s)?)),
        _ => Err(NoMemory),
    }
}

/// An expression with several parts.
#[cycle(renaming)]
#[tactic(auto, using(crate::proofs::RenamingRules::parts_rules))]
fn with_parts_renamed(alloc: Global, e: &Expr, s: &Sight<'_>) -> Result<Expr, NoMemory>
    ensures { IfOk result (λ x. x ≡ spec.renamed_expr (spec.moving s.now) e.now) }
{
    match e {
        Expr::Chain(first, links) => {
            let x = renamed_box(alloc, first.get(), s)?;
            let xs = renamed_links(alloc, links.as_slice(), s)?;
            Ok(Expr::Chain(x, xs))
        }
        Expr::Compare(op, a, b) => {
            let x = renamed_box(alloc, a.get(), s)?;
            let y = renamed_box(alloc, b.get(), s)?;
            Ok(Expr::Compare(*op, x, y))
        }
        Expr::Between(negative, a, low, high) => {
            let x = renamed_box(alloc, a.get(), s)?;
            let y = renamed_box(alloc, low.get(), s)?;
            let z = renamed_box(alloc, high.get(), s)?;
            Ok(Expr::Between(*negative, x, y, z))
        }
        Expr::OneOf(negative, a, choices) => {
            let x = renamed_box(alloc, a.get(), s)?;
            let xs = renamed_all(alloc, choices.as_slice(), s)?;
            Ok(Expr::OneOf(*negative, x, xs))
        }
        Expr::Cases(arms, other) => {
            let xs = renamed_arms(alloc, arms.as_slice(), s)?;
            let y = renamed_other(alloc, other, s)?;
            Ok(Expr::Cases(xs, y))
        }
        Expr::Call(name, args) => {
            let function = name.copy(alloc)?;
            Ok(Expr::Call(function, renamed_all(alloc, args.as_slice(), s)?))
        }
        _ => Err(NoMemory),
    }
}

#[cycle(renaming)]
fn renamed_box(alloc: Global, e: &Expr, s: &Sight<'_>) -> Result<Boxed<Expr>, NoMemory>
    ensures { IfOk result (λ x. x ≡ spec.renamed_expr (spec.moving s.now) e.now) }
{
    Ok(Boxed::new(alloc, renamed_expr(alloc, e, s)?)?)
}

#[cycle(renaming)]
pub(crate) fn renamed_subquery(
    alloc: Global,
    q: &Query,
    s: &Sight<'_>,
) -> Result<Boxed<Query>, NoMemory>
    ensures { IfOk result (λ x. x ≡ spec.renamed_query (spec.moving s.now) q.now) }
{
    Ok(Boxed::new(alloc, renamed_query(alloc, q, s)?)?)
}

#[cycle(renaming)]
fn renamed_links(
    alloc: Global,
    links: &[(ChainOp, Expr)],
    s: &Sight<'_>,
) -> Result<Items<(ChainOp, Expr)>, NoMemory>
    ensures { IfOk result (λ xs. xs ≡ map (spec.renamed_link (spec.moving s.now)) links.now) }
{
    let mut done = Items::new(alloc);
    for link in links {
        done.push((link.0, renamed_expr(alloc, &link.1, s)?))?;
    }
    Ok(done)
}

#[cycle(renaming)]
fn renamed_all(alloc: Global, es: &[Expr], s: &Sight<'_>) -> Result<Items<Expr>, NoMemory>
    ensures { IfOk result (λ xs. xs ≡ map (spec.renamed_expr (spec.moving s.now)) es.now) }
{
    let mut done = Items::new(alloc);
    for e in es {
        done.push(renamed_expr(alloc, e, s)?)?;
    }
    Ok(done)
}

#[cycle(renaming)]
fn renamed_arms(
    alloc: Global,
    arms: &[(Expr, Expr)],
    s: &Sight<'_>,
) -> Result<Items<(Expr, Expr)>, NoMemory>
    ensures { IfOk result (λ xs. xs ≡ map (spec.renamed_arm (spec.moving s.now)) arms.now) }
{
    let mut done = Items::new(alloc);
    for arm in arms {
        let x = renamed_expr(alloc, &arm.0, s)?;
        let y = renamed_expr(alloc, &arm.1, s)?;
        done.push((x, y))?;
    }
    Ok(done)
}

#[cycle(renaming)]
fn renamed_other(
    alloc: Global,
    other: &Option<Boxed<Expr>>,
    s: &Sight<'_>,
) -> Result<Option<Boxed<Expr>>, NoMemory>
    ensures { IfOk result (λ x. x ≡ option_map (spec.renamed_expr (spec.moving s.now)) other.now) }
{
    match other {
        None => Ok(None),
        Some(e) => Ok(Some(renamed_box(alloc, e.get(), s)?)),
    }
}

#[cycle(renaming)]
pub fn renamed_maybe(
    alloc: Global,
    e: &Option<Expr>,
    s: &Sight<'_>,
) -> Result<Option<Expr>, NoMemory>
    ensures { IfOk result (λ x. x ≡ option_map (spec.renamed_expr (spec.moving s.now)) e.now) }
{
    match e {
        None => Ok(None),
        Some(e) => Ok(Some(renamed_expr(alloc, e, s)?)),
    }
}
