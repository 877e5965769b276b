//! Whether a column of a select stands in a tree whose names are resolved.

ghost use Rattle.std.specs.Prelude.{◌≡◌, IfOk, ◌+◌};
ghost use Rattle.away_typing.specs.Trees as trees;
ghost use Rattle.away_typing.specs.UsesLists as lists;

use away_trees::{Expr, FromItem, Item, Key, Query, Recursive, Select, Source};
use away_values::{ChainOp, NoMemory};
use sqlite_items::Boxed;

/// One select further in. There is no memory for a tree of 2^64 selects.
fn deeper(level: u64) -> Result<u64, NoMemory>
    ensures { IfOk result (λ n. n ≡ level + 1) }
{
    if level < 18446744073709551615 {
        Ok(level + 1)
    } else {
        Err(NoMemory)
    }
}

/// Whether a column of the select that many levels outward stands in it.
#[cycle(mentions)]
#[tactic(auto, using(crate::proofs::UsesRules::names_rules), unfolding(crate::specs::Aggregates::or_))]
pub fn names(e: &Expr, level: u64) -> Result<bool, NoMemory>
    ensures { IfOk result (λ b. b ≡ trees.names_at level e.now) }
{
    match e {
        Expr::Int(_) => Ok(false),
        Expr::Str(_) => Ok(false),
        Expr::Bool(_) => Ok(false),
        Expr::Null => Ok(false),
        Expr::Named(_) => Ok(false),
        Expr::Dotted(_, _) => Ok(false),
        Expr::Slot(_) => Ok(false),
        Expr::Param(_, _) => Ok(false),
        Expr::CountRows => Ok(false),
        Expr::Column(c) => Ok(c.level as u64 == level),
        Expr::Neg(a) => names(a.get(), level),
        Expr::NegSmall(a) => names(a.get(), level),
        Expr::Not(a) => names(a.get(), level),
        Expr::Is(a, _, _) => names(a.get(), level),
        Expr::Cast(a, _) => names(a.get(), level),
        Expr::Chain(first, links) => {
            let x = names(first.get(), level)?;
            let y = any_link(links.as_slice(), level)?;
            Ok(x || y)
        }
        Expr::Compare(_, a, b) => {
            let x = names(a.get(), level)?;
            let y = names(b.get(), level)?;
            Ok(x || y)
        }
        Expr::Between(_, a, low, high) => {
            let x = names(a.get(), level)?;
            let y = names(low.get(), level)?;
            let z = names(high.get(), level)?;
            Ok(x || (y || z))
        }
        Expr::OneOf(_, a, choices) => {
            let x = names(a.get(), level)?;
            let y = any(choices.as_slice(), level)?;
            Ok(x || y)
        }
        Expr::Cases(arms, other) => {
            let x = any_arm(arms.as_slice(), level)?;
            let y = other_names(other, level)?;
            Ok(x || y)
        }
        Expr::Call(_, args) => any(args.as_slice(), level),
        Expr::Scalar(q) => query_names(q.get(), deeper(level)?),
        Expr::Exists(q) => query_names(q.get(), deeper(level)?),
    }
}

#[cycle(mentions)]
fn any(es: &[Expr], level: u64) -> Result<bool, NoMemory>
    ensures { IfOk result (λ b. b ≡ lists.any_at level es.now) }
{
    for e in es {
        if names(e, level)? {
            return Ok(true);
        }
    }
    Ok(false)
}

#[cycle(mentions)]
fn any_link(links: &[(ChainOp, Expr)], level: u64) -> Result<bool, NoMemory>
    ensures { IfOk result (λ b. b ≡ lists.any_link_at level links.now) }
{
    for link in links {
        if names(&link.1, level)? {
            return Ok(true);
        }
    }
    Ok(false)
}

#[cycle(mentions)]
#[tactic(auto, unfolding(crate::specs::Aggregates::or_))]
fn any_arm(arms: &[(Expr, Expr)], level: u64) -> Result<bool, NoMemory>
    ensures { IfOk result (λ b. b ≡ lists.any_arm_at level arms.now) }
{
    for arm in arms {
        let x = names(&arm.0, level)?;
        let y = names(&arm.1, level)?;
        if x || y {
            return Ok(true);
        }
    }
    Ok(false)
}

#[cycle(mentions)]
fn other_names(other: &Option<Boxed<Expr>>, level: u64) -> Result<bool, NoMemory>
    ensures { IfOk result (λ b. b ≡ lists.maybe_at level other.now) }
{
    match other {
        None => Ok(false),
        Some(e) => names(e.get(), level),
    }
}

#[cycle(mentions)]
pub fn maybe_names(e: &Option<Expr>, level: u64) -> Result<bool, NoMemory>
    ensures { IfOk result (λ b. b ≡ lists.maybe_at level e.now) }
{
    match e {
        None => Ok(false),
        Some(e) => names(e, level),
    }
}

#[cycle(mentions)]
#[tactic(auto, using(crate::proofs::UsesRules::query_at), unfolding(crate::specs::Aggregates::or_))]
pub fn query_names(q: &Query, level: u64) -> Result<bool, NoMemory>
    ensures { IfOk result (λ b. b ≡ trees.query_names_at level q.now) }
{
    let x = with_names(&q.recursive, level)?;
    let y = any_select(q.selects.as_slice(), level)?;
    Ok(x || y)
}

#[cycle(mentions)]
#[tactic(auto, unfolding(crate::specs::Aggregates::or_))]
fn with_names(r: &Option<Recursive>, level: u64) -> Result<bool, NoMemory>
    ensures { IfOk result (λ b. b ≡ lists.with_names_at level r.now) }
{
    match r {
        None => Ok(false),
        Some(r) => {
            let x = any_select(r.first.as_slice(), level)?;
            let y = select_names(&r.second, level)?;
            Ok(x || y)
        }
    }
}

#[cycle(mentions)]
fn any_select(selects: &[Select], level: u64) -> Result<bool, NoMemory>
    ensures { IfOk result (λ b. b ≡ lists.any_select_at level selects.now) }
{
    for select in selects {
        if select_names(select, level)? {
            return Ok(true);
        }
    }
    Ok(false)
}

#[cycle(mentions)]
#[tactic(auto, using(crate::proofs::UsesRules::select_at), unfolding(crate::specs::Aggregates::or_))]
fn select_names(select: &Select, level: u64) -> Result<bool, NoMemory>
    ensures { IfOk result (λ b. b ≡ trees.select_names_at level select.now) }
{
    let list = any_item(select.list.as_slice(), level)?;
    let from = any_from(select.from.as_slice(), level)?;
    let filter = maybe_names(&select.filter, level)?;
    let order = any_key(select.order.as_slice(), level)?;
    let limit = maybe_names(&select.limit, level)?;
    Ok(list || (from || (filter || (order || limit))))
}

#[cycle(mentions)]
fn any_item(list: &[Item], level: u64) -> Result<bool, NoMemory>
    ensures { IfOk result (λ b. b ≡ lists.any_item_at level list.now) }
{
    for item in list {
        if names(&item.expr, level)? {
            return Ok(true);
        }
    }
    Ok(false)
}

#[cycle(mentions)]
fn any_key(keys: &[Key], level: u64) -> Result<bool, NoMemory>
    ensures { IfOk result (λ b. b ≡ lists.any_key_at level keys.now) }
{
    for key in keys {
        if names(&key.expr, level)? {
            return Ok(true);
        }
    }
    Ok(false)
}

#[cycle(mentions)]
fn any_from(from: &[FromItem], level: u64) -> Result<bool, NoMemory>
    ensures { IfOk result (λ b. b ≡ lists.any_from_at level from.now) }
{
    for f in from {
        if source_names(&f.source, level)? {
            return Ok(true);
        }
    }
    Ok(false)
}

#[cycle(mentions)]
#[tactic(auto, using(crate::proofs::UsesRules::source_rules))]
fn source_names(source: &Source, level: u64) -> Result<bool, NoMemory>
    ensures { IfOk result (λ b. b ≡ trees.source_names_at level source.now) }
{
    match source {
        Source::Table(_) => Ok(false),
        Source::Sub(q, _) => query_names(q.get(), deeper(level)?),
    }
}
