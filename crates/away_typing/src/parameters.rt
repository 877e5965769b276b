//! The parameters that stand in a tree.

ghost use Rattle.std.specs.Prelude.{◌≡◌, IfOk, fold};
ghost use Rattle.away_typing.specs.ParameterLists as spec;

use crate::params::{Params, no_params, taken};
use away_trees::{Expr, FromItem, Item, Key, Query, Recursive, Select, Source};
use away_values::{ChainOp, NoMemory};
use sqlite_items::Boxed;
use std::alloc::Global;

/// The parameters of a query, ascending by number.
pub fn params_of(alloc: Global, q: &Query) -> Result<Params, NoMemory>
    ensures { IfOk result (λ p. p ≡ spec.params_of q.now) }
{
    with_query(alloc, no_params(alloc), q)
}

#[cycle(params)]
#[tactic(auto, using(crate::proofs::ParameterRules::expression_rules))]
fn with_expr(alloc: Global, p: Params, e: &Expr) -> Result<Params, NoMemory>
    ensures { IfOk result (λ r. r ≡ spec.with_expr p e.now) }
{
    match e {
        Expr::Int(_) => Ok(p),
        Expr::Str(_) => Ok(p),
        Expr::Bool(_) => Ok(p),
        Expr::Null => Ok(p),
        Expr::Named(_) => Ok(p),
        Expr::Dotted(_, _) => Ok(p),
        Expr::Slot(_) => Ok(p),
        Expr::Column(_) => Ok(p),
        Expr::CountRows => Ok(p),
        Expr::Param(number, ty) => taken(alloc, p, *number, *ty),
        Expr::Neg(a) => with_expr(alloc, p, a.get()),
        Expr::NegSmall(a) => with_expr(alloc, p, a.get()),
        Expr::Not(a) => with_expr(alloc, p, a.get()),
        Expr::Is(a, _, _) => with_expr(alloc, p, a.get()),
        Expr::Cast(a, _) => with_expr(alloc, p, a.get()),
        Expr::Chain(first, links) => {
            let p = with_expr(alloc, p, first.get())?;
            with_links(alloc, p, links.as_slice())
        }
        Expr::Compare(_, a, b) => {
            let p = with_expr(alloc, p, a.get())?;
            with_expr(alloc, p, b.get())
        }
        Expr::Between(_, a, low, high) => {
            let p = with_expr(alloc, p, a.get())?;
            let p = with_expr(alloc, p, low.get())?;
            with_expr(alloc, p, high.get())
        }
        Expr::OneOf(_, a, choices) => {
            let p = with_expr(alloc, p, a.get())?;
            with_all(alloc, p, choices.as_slice())
        }
        Expr::Cases(arms, other) => {
            let p = with_arms(alloc, p, arms.as_slice())?;
            with_other(alloc, p, other)
        }
        Expr::Call(_, args) => with_all(alloc, p, args.as_slice()),
        Expr::Scalar(q) => with_query(alloc, p, q.get()),
        Expr::Exists(q) => with_query(alloc, p, q.get()),
    }
}

#[cycle(params)]
fn with_all(alloc: Global, p: Params, es: &[Expr]) -> Result<Params, NoMemory>
    ensures { IfOk result (λ r. r ≡ fold spec.with_expr p es.now) }
{
    let mut found = p;
    for e in es {
        found = with_expr(alloc, found, e)?;
    }
    Ok(found)
}

#[cycle(params)]
fn with_links(alloc: Global, p: Params, links: &[(ChainOp, Expr)]) -> Result<Params, NoMemory>
    ensures { IfOk result (λ r. r ≡ fold spec.with_link p links.now) }
{
    let mut found = p;
    for link in links {
        found = with_expr(alloc, found, &link.1)?;
    }
    Ok(found)
}

#[cycle(params)]
fn with_arms(alloc: Global, p: Params, arms: &[(Expr, Expr)]) -> Result<Params, NoMemory>
    ensures { IfOk result (λ r. r ≡ fold spec.with_arm p arms.now) }
{
    let mut found = p;
    for arm in arms {
        let tested = with_expr(alloc, found, &arm.0)?;
        found = with_expr(alloc, tested, &arm.1)?;
    }
    Ok(found)
}

#[cycle(params)]
fn with_items(alloc: Global, p: Params, items: &[Item]) -> Result<Params, NoMemory>
    ensures { IfOk result (λ r. r ≡ fold spec.with_item p items.now) }
{
    let mut found = p;
    for item in items {
        found = with_expr(alloc, found, &item.expr)?;
    }
    Ok(found)
}

#[cycle(params)]
fn with_keys(alloc: Global, p: Params, keys: &[Key]) -> Result<Params, NoMemory>
    ensures { IfOk result (λ r. r ≡ fold spec.with_key p keys.now) }
{
    let mut found = p;
    for key in keys {
        found = with_expr(alloc, found, &key.expr)?;
    }
    Ok(found)
}

#[cycle(params)]
fn with_parts(alloc: Global, p: Params, parts: &[FromItem]) -> Result<Params, NoMemory>
    ensures { IfOk result (λ r. r ≡ fold spec.with_part p parts.now) }
{
    let mut found = p;
    for part in parts {
        found = with_source(alloc, found, &part.source)?;
    }
    Ok(found)
}

#[cycle(params)]
fn with_selects(alloc: Global, p: Params, selects: &[Select]) -> Result<Params, NoMemory>
    ensures { IfOk result (λ r. r ≡ fold spec.with_select p selects.now) }
{
    let mut found = p;
    for select in selects {
        found = with_select(alloc, found, select)?;
    }
    Ok(found)
}

#[cycle(params)]
fn with_other(alloc: Global, p: Params, other: &Option<Boxed<Expr>>) -> Result<Params, NoMemory>
    ensures { IfOk result (λ r. r ≡ spec.with_maybe p other.now) }
{
    match other {
        None => Ok(p),
        Some(e) => with_expr(alloc, p, e.get()),
    }
}

#[cycle(params)]
fn with_maybe(alloc: Global, p: Params, e: &Option<Expr>) -> Result<Params, NoMemory>
    ensures { IfOk result (λ r. r ≡ spec.with_maybe p e.now) }
{
    match e {
        None => Ok(p),
        Some(e) => with_expr(alloc, p, e),
    }
}

#[cycle(params)]
#[tactic(auto, using(crate::proofs::ParameterRules::source_rules))]
fn with_source(alloc: Global, p: Params, source: &Source) -> Result<Params, NoMemory>
    ensures { IfOk result (λ r. r ≡ spec.with_source p source.now) }
{
    match source {
        Source::Table(_) => Ok(p),
        Source::Sub(q, _) => with_query(alloc, p, q.get()),
    }
}

#[cycle(params)]
#[tactic(auto, using(crate::proofs::ParameterRules::select_rule))]
fn with_select(alloc: Global, p: Params, select: &Select) -> Result<Params, NoMemory>
    ensures { IfOk result (λ r. r ≡ spec.with_select p select.now) }
{
    let p = with_items(alloc, p, select.list.as_slice())?;
    let p = with_parts(alloc, p, select.from.as_slice())?;
    let p = with_maybe(alloc, p, &select.filter)?;
    let p = with_keys(alloc, p, select.order.as_slice())?;
    with_maybe(alloc, p, &select.limit)
}

#[cycle(params)]
fn with_terms(alloc: Global, p: Params, r: &Option<Recursive>) -> Result<Params, NoMemory>
    ensures { IfOk result (λ x. x ≡ spec.with_terms p r.now) }
{
    match r {
        None => Ok(p),
        Some(r) => {
            let p = with_selects(alloc, p, r.first.as_slice())?;
            with_select(alloc, p, &r.second)
        }
    }
}

#[cycle(params)]
#[tactic(auto, using(crate::proofs::ParameterRules::query_rule))]
fn with_query(alloc: Global, p: Params, q: &Query) -> Result<Params, NoMemory>
    ensures { IfOk result (λ r. r ≡ spec.with_query p q.now) }
{
    let p = with_terms(alloc, p, &q.recursive)?;
    with_selects(alloc, p, q.selects.as_slice())
}
