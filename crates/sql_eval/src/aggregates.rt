//! Whether an aggregate stands in an expression, outside its subqueries.

ghost use Rattle.std.specs.Prelude.{◌≡◌};
ghost use Rattle.sql_meaning.specs.Aggregates.{aggregated, any_expr, any_link, any_arm, any_item, other_aggregated};

use crate::functions::{function_of, is_aggregate};
use away_trees::{Expr, Item};
use away_values::ChainOp;
use sqlite_items::Boxed;

#[cycle(aggregates)]
#[tactic(auto, using(sql_meaning::proofs::AggregateRules::aggregate_rules))]
pub(crate) fn has_aggregate(e: &Expr) -> bool
    ensures { result ≡ aggregated e.now }
{
    match e {
        Expr::Int(_) => false,
        Expr::Str(_) => false,
        Expr::Bool(_) => false,
        Expr::Null => false,
        Expr::Named(_) => false,
        Expr::Dotted(_, _) => false,
        Expr::Slot(_) => false,
        Expr::Column(_) => false,
        Expr::Param(_, _) => false,
        Expr::Neg(x) => has_aggregate(x.get()),
        Expr::NegSmall(x) => has_aggregate(x.get()),
        Expr::Not(x) => has_aggregate(x.get()),
        Expr::Is(x, _, _) => has_aggregate(x.get()),
        Expr::Chain(first, links) => {
            has_aggregate(first.get()) || link_has_aggregate(links.as_slice())
        }
        Expr::Compare(_, x, y) => has_aggregate(x.get()) || has_aggregate(y.get()),
        Expr::Between(_, x, low, high) => {
            has_aggregate(x.get()) || (has_aggregate(low.get()) || has_aggregate(high.get()))
        }
        Expr::OneOf(_, x, choices) => {
            has_aggregate(x.get()) || one_has_aggregate(choices.as_slice())
        }
        Expr::Cast(x, _) => has_aggregate(x.get()),
        Expr::Cases(arms, other) => {
            arm_has_aggregate(arms.as_slice()) || other_has_aggregate(other)
        }
        Expr::Call(name, list) => {
            is_aggregate(function_of(name)) || one_has_aggregate(list.as_slice())
        }
        Expr::CountRows => true,
        Expr::Scalar(_) => false,
        Expr::Exists(_) => false,
    }
}

#[cycle(aggregates)]
#[tactic(auto, using(sql_meaning::proofs::AggregateRules::any_rules))]
fn one_has_aggregate(list: &[Expr]) -> bool
    ensures { result ≡ any_expr list.now }
{
    for e in list {
        if has_aggregate(e) {
            return true;
        }
    }
    false
}

#[cycle(aggregates)]
#[tactic(auto, using(sql_meaning::proofs::AggregateRules::any_rules))]
fn link_has_aggregate(links: &[(ChainOp, Expr)]) -> bool
    ensures { result ≡ any_link links.now }
{
    for link in links {
        if has_aggregate(&link.1) {
            return true;
        }
    }
    false
}

#[cycle(aggregates)]
#[tactic(auto, using(sql_meaning::proofs::AggregateRules::any_rules))]
fn arm_has_aggregate(arms: &[(Expr, Expr)]) -> bool
    ensures { result ≡ any_arm arms.now }
{
    for arm in arms {
        if has_aggregate(&arm.0) || has_aggregate(&arm.1) {
            return true;
        }
    }
    false
}

#[cycle(aggregates)]
#[tactic(auto, using(sql_meaning::proofs::AggregateRules::any_rules))]
fn other_has_aggregate(other: &Option<Boxed<Expr>>) -> bool
    ensures { result ≡ other_aggregated other.now }
{
    match other {
        None => false,
        Some(e) => has_aggregate(e.get()),
    }
}

/// Whether one stands in a select list.
#[tactic(auto, using(sql_meaning::proofs::AggregateRules::any_rules))]
pub(crate) fn item_has_aggregate(list: &[Item]) -> bool
    ensures { result ≡ any_item list.now }
{
    for item in list {
        if has_aggregate(&item.expr) {
            return true;
        }
    }
    false
}
