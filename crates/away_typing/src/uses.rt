//! What stands in an expression, as the rules of aggregates see it.

ghost use Rattle.std.specs.Prelude.{◌≡◌, IfOk};
ghost use Rattle.away_typing.specs.Aggregates as spec;
ghost use Rattle.away_typing.specs.Trees as trees;
ghost use Rattle.away_typing.specs.UsesLists as lists;

use crate::mentions::{maybe_names, query_names};
use away_names::function::{Known, function, is_aggregate};
use away_trees::{Expr, FromItem, Item, Key, Query, Recursive, Select, Source};
use away_values::{ChainOp, Name, NoMemory};
use sqlite_items::Boxed;

/// Of an expression at its own select, subqueries apart where nothing else is said.
#[derive(Clone, Copy, Debug, PartialEq, Eq)]
pub struct Uses {
    /// An aggregate.
    pub aggregate: bool,
    /// A subquery.
    pub query: bool,
    /// A column of its own select.
    pub own: bool,
    /// A variable, or a column of an outer select.
    pub foreign: bool,
    /// A column of its own select outside aggregates, subqueries included.
    pub free: bool,
    /// A misused aggregate, subqueries included.
    pub misused: bool,
    /// A LIMIT that has a column of its own select, in a subquery.
    pub limited: bool,
}

#[tactic(auto, unfolding(crate::specs::Aggregates::unused))]
fn unused() -> Uses
    ensures { result ≡ spec.unused }
{
    Uses {
        aggregate: false,
        query: false,
        own: false,
        foreign: false,
        free: false,
        misused: false,
        limited: false,
    }
}

#[tactic(auto, unfolding(crate::specs::Aggregates::either))]
fn either(a: Uses, b: Uses) -> Uses
    ensures { result ≡ spec.either a b }
{
    Uses {
        aggregate: a.aggregate || b.aggregate,
        query: a.query || b.query,
        own: a.own || b.own,
        foreign: a.foreign || b.foreign,
        free: a.free || b.free,
        misused: a.misused || b.misused,
        limited: a.limited || b.limited,
    }
}

#[tactic(auto, unfolding(crate::specs::Aggregates::of_slot, crate::specs::Aggregates::unused))]
fn of_slot() -> Uses
    ensures { result ≡ spec.of_slot }
{
    Uses {
        foreign: true,
        ..unused()
    }
}

#[tactic(auto, unfolding(crate::specs::Aggregates::of_column, crate::specs::Aggregates::unused))]
fn of_column(level: u32) -> Uses
    ensures { result ≡ spec.of_column level }
{
    Uses {
        own: level == 0,
        foreign: 0 < level,
        free: level == 0,
        ..unused()
    }
}

#[tactic(auto, unfolding(crate::specs::Aggregates::aggregated))]
fn aggregated(u: Uses) -> Uses
    ensures { result ≡ spec.aggregated u }
{
    Uses {
        aggregate: true,
        free: false,
        misused: u.misused || (u.aggregate || (u.query || (u.foreign && !u.own))),
        ..u
    }
}

#[tactic(auto, unfolding(crate::specs::Aggregates::is_known_aggregate))]
fn is_known_aggregate(f: Option<Known>) -> bool
    ensures { result ≡ spec.is_known_aggregate f }
{
    match f {
        None => false,
        Some(f) => is_aggregate(f),
    }
}

#[tactic(auto, unfolding(crate::specs::Aggregates::called))]
fn call_uses(name: &Name, u: Uses) -> Uses
    ensures { result ≡ spec.called name.now u }
{
    if is_known_aggregate(function(name)) {
        aggregated(u)
    } else {
        u
    }
}

#[tactic(auto, unfolding(crate::specs::Aggregates::of_query, crate::specs::Aggregates::unused))]
fn of_query(u: Uses, names: bool) -> Uses
    ensures { result ≡ spec.of_query u names }
{
    Uses {
        query: true,
        free: names,
        misused: u.misused,
        limited: u.limited,
        ..unused()
    }
}

#[tactic(auto, unfolding(crate::specs::Aggregates::apart, crate::specs::Aggregates::unused))]
fn apart(u: Uses) -> Uses
    ensures { result ≡ spec.apart u }
{
    Uses {
        misused: u.misused,
        limited: u.limited,
        ..unused()
    }
}

/// Outside a list no aggregate may stand. The manual: 4.2.7, Aggregate Expressions. 42803 is grouping_error.
#[tactic(auto, unfolding(crate::specs::Aggregates::outside, crate::specs::Aggregates::unused))]
pub fn outside(u: Uses) -> Uses
    ensures { result ≡ spec.outside u }
{
    Uses {
        misused: u.misused || u.aggregate,
        limited: u.limited,
        ..unused()
    }
}

#[tactic(auto, unfolding(crate::specs::Aggregates::of_select, crate::specs::Aggregates::unused))]
fn of_select(list: Uses, ordered: bool, rest: Uses, own_limit: bool) -> Uses
    ensures { result ≡ spec.of_select list ordered rest own_limit }
{
    Uses {
        aggregate: list.aggregate,
        misused: list.misused || (rest.misused || (list.aggregate && (ordered || list.free))),
        limited: list.limited || (rest.limited || own_limit),
        ..unused()
    }
}

pub fn is_some_of(order: &[Key]) -> bool
    ensures { result ≡ spec.is_some_of order.now }
{
    match order {
        [] => false,
        [_, ..] => true,
    }
}

/// What an expression uses.
#[cycle(uses)]
#[tactic(auto, using(crate::proofs::UsesRules::uses_rules))]
pub fn used(e: &Expr) -> Result<Uses, NoMemory>
    ensures { IfOk result (λ u. u ≡ trees.uses_of e.now) }
{
    match e {
        Expr::Int(_) => Ok(unused()),
        Expr::Str(_) => Ok(unused()),
        Expr::Bool(_) => Ok(unused()),
        Expr::Null => Ok(unused()),
        Expr::Named(_) => Ok(unused()),
        Expr::Dotted(_, _) => Ok(unused()),
        Expr::Param(_, _) => Ok(unused()),
        Expr::Slot(_) => Ok(of_slot()),
        Expr::Column(c) => Ok(of_column(c.level)),
        Expr::CountRows => Ok(aggregated(unused())),
        Expr::Neg(a) => used(a.get()),
        Expr::NegSmall(a) => used(a.get()),
        Expr::Not(a) => used(a.get()),
        Expr::Is(a, _, _) => used(a.get()),
        Expr::Cast(a, _) => used(a.get()),
        Expr::Chain(first, links) => {
            let u = used(first.get())?;
            Ok(either(u, links_used(links.as_slice())?))
        }
        Expr::Compare(_, a, b) => {
            let u = used(a.get())?;
            Ok(either(u, used(b.get())?))
        }
        Expr::Between(_, a, low, high) => {
            let u = used(a.get())?;
            let v = used(low.get())?;
            Ok(either(u, either(v, used(high.get())?)))
        }
        Expr::OneOf(_, a, choices) => {
            let u = used(a.get())?;
            Ok(either(u, all_used(choices.as_slice())?))
        }
        Expr::Cases(arms, other) => {
            let u = arms_used(arms.as_slice())?;
            Ok(either(u, other_used(other)?))
        }
        Expr::Call(name, args) => Ok(call_uses(name, all_used(args.as_slice())?)),
        Expr::Scalar(q) => {
            let u = query_used(q.get())?;
            Ok(of_query(u, query_names(q.get(), 1)?))
        }
        Expr::Exists(q) => {
            let u = query_used(q.get())?;
            Ok(of_query(u, query_names(q.get(), 1)?))
        }
    }
}

#[cycle(uses)]
fn all_used(es: &[Expr]) -> Result<Uses, NoMemory>
    ensures { IfOk result (λ u. u ≡ lists.all_used es.now) }
{
    let mut u = unused();
    for e in es {
        u = either(u, used(e)?);
    }
    Ok(u)
}

#[cycle(uses)]
fn links_used(links: &[(ChainOp, Expr)]) -> Result<Uses, NoMemory>
    ensures { IfOk result (λ u. u ≡ lists.links_used links.now) }
{
    let mut u = unused();
    for link in links {
        u = either(u, used(&link.1)?);
    }
    Ok(u)
}

#[cycle(uses)]
fn arms_used(arms: &[(Expr, Expr)]) -> Result<Uses, NoMemory>
    ensures { IfOk result (λ u. u ≡ lists.arms_used arms.now) }
{
    let mut u = unused();
    for arm in arms {
        let test = used(&arm.0)?;
        u = either(u, either(test, used(&arm.1)?));
    }
    Ok(u)
}

#[cycle(uses)]
fn other_used(other: &Option<Boxed<Expr>>) -> Result<Uses, NoMemory>
    ensures { IfOk result (λ u. u ≡ lists.maybe_used other.now) }
{
    match other {
        None => Ok(unused()),
        Some(e) => used(e.get()),
    }
}

#[cycle(uses)]
fn maybe_used(e: &Option<Expr>) -> Result<Uses, NoMemory>
    ensures { IfOk result (λ u. u ≡ lists.maybe_used e.now) }
{
    match e {
        None => Ok(unused()),
        Some(e) => used(e),
    }
}

/// What a query uses, seen from outside.
#[cycle(uses)]
#[tactic(auto, using(crate::proofs::UsesRules::query_used))]
pub fn query_used(q: &Query) -> Result<Uses, NoMemory>
    ensures { IfOk result (λ u. u ≡ trees.uses_of_query q.now) }
{
    let u = with_used(&q.recursive)?;
    Ok(apart(either(u, selects_used(q.selects.as_slice())?)))
}

#[cycle(uses)]
fn with_used(r: &Option<Recursive>) -> Result<Uses, NoMemory>
    ensures { IfOk result (λ u. u ≡ lists.with_used r.now) }
{
    match r {
        None => Ok(unused()),
        Some(r) => {
            let u = selects_used(r.first.as_slice())?;
            Ok(apart(either(u, select_used(&r.second)?)))
        }
    }
}

#[cycle(uses)]
fn selects_used(selects: &[Select]) -> Result<Uses, NoMemory>
    ensures { IfOk result (λ u. u ≡ lists.selects_used selects.now) }
{
    let mut u = unused();
    for select in selects {
        u = either(u, select_used(select)?);
    }
    Ok(u)
}

/// What a select uses.
#[cycle(uses)]
#[tactic(auto, using(crate::proofs::UsesRules::select_used))]
pub fn select_used(select: &Select) -> Result<Uses, NoMemory>
    ensures { IfOk result (λ u. u ≡ trees.uses_of_select select.now) }
{
    let list = items_used(select.list.as_slice())?;
    let from = from_used(select.from.as_slice())?;
    let filter = maybe_used(&select.filter)?;
    let order = keys_used(select.order.as_slice())?;
    let limit = maybe_used(&select.limit)?;
    let own_limit = maybe_names(&select.limit, 0)?;
    let rest = either(
        from,
        either(outside(filter), either(outside(order), outside(limit))),
    );
    Ok(of_select(list, is_some_of(select.order.as_slice()), rest, own_limit))
}

#[cycle(uses)]
fn items_used(list: &[Item]) -> Result<Uses, NoMemory>
    ensures { IfOk result (λ u. u ≡ lists.items_used list.now) }
{
    let mut u = unused();
    for item in list {
        u = either(u, used(&item.expr)?);
    }
    Ok(u)
}

#[cycle(uses)]
fn keys_used(keys: &[Key]) -> Result<Uses, NoMemory>
    ensures { IfOk result (λ u. u ≡ lists.keys_used keys.now) }
{
    let mut u = unused();
    for key in keys {
        u = either(u, used(&key.expr)?);
    }
    Ok(u)
}

#[cycle(uses)]
fn from_used(from: &[FromItem]) -> Result<Uses, NoMemory>
    ensures { IfOk result (λ u. u ≡ lists.from_used from.now) }
{
    let mut u = unused();
    for f in from {
        u = either(u, source_used(&f.source)?);
    }
    Ok(u)
}

#[cycle(uses)]
#[tactic(auto, using(crate::proofs::UsesRules::source_rules))]
fn source_used(source: &Source) -> Result<Uses, NoMemory>
    ensures { IfOk result (λ u. u ≡ trees.uses_of_source source.now) }
{
    match source {
        Source::Table(_) => Ok(unused()),
        Source::Sub(q, _) => Ok(apart(query_used(q.get())?)),
    }
}
