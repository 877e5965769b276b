//! Whether every table that stands in a tree has its place below a number.

ghost use Rattle.std.specs.Prelude.{◌≡◌, ◌==◌, nat_lt};
ghost use Rattle.sql_meaning.specs.Selects.{place_of};
ghost use Rattle.sql_eval.specs.Places.{expr_within, all_exprs, all_links, all_arms, all_items, all_keys, all_froms, all_selects, other_within, optional_within, from_within, select_within, query_within};
ghost use Rattle.sql_eval.specs.Kept.{stands_at, stands_alone, is_suited as suited};

use crate::tables::place;
use away_trees::{Expr, FromItem, Item, Key, Query, Select, Source};
use away_values::{ChainOp, Name};
use sqlite_items::Boxed;

/// Whether a table's place, which stands first in the list of columns, is below n.
fn place_below(columns: &[Name], n: usize) -> bool
    ensures { result ≡ nat_lt (place_of columns.now) n }
{
    match place(columns) {
        Some(k) => k < n,
        None => false,
    }
}

/// Whether a table's place is n.
fn place_is(columns: &[Name], n: usize) -> bool
    ensures { result ≡ (place_of columns.now == n) }
{
    match place(columns) {
        Some(k) => k == n,
        None => false,
    }
}

#[cycle(below)]
#[tactic(auto, using(crate::proofs::PlaceRules::below_rules))]
fn expr_below(e: &Expr, n: usize) -> bool
    ensures { result ≡ expr_within n e.now }
{
    match e {
        Expr::Int(_) => true,
        Expr::Str(_) => true,
        Expr::Bool(_) => true,
        Expr::Null => true,
        Expr::Named(_) => true,
        Expr::Dotted(_, _) => true,
        Expr::Slot(_) => true,
        Expr::Column(_) => true,
        Expr::Param(_, _) => true,
        Expr::Neg(x) => expr_below(x.get(), n),
        Expr::NegSmall(x) => expr_below(x.get(), n),
        Expr::Not(x) => expr_below(x.get(), n),
        Expr::Is(x, _, _) => expr_below(x.get(), n),
        Expr::Chain(first, links) => {
            expr_below(first.get(), n) && links_below(links.as_slice(), n)
        }
        Expr::Compare(_, x, y) => expr_below(x.get(), n) && expr_below(y.get(), n),
        Expr::Between(_, x, low, high) => {
            expr_below(x.get(), n) && (expr_below(low.get(), n) && expr_below(high.get(), n))
        }
        Expr::OneOf(_, x, choices) => {
            expr_below(x.get(), n) && exprs_below(choices.as_slice(), n)
        }
        Expr::Cast(x, _) => expr_below(x.get(), n),
        Expr::Cases(arms, other) => arms_below(arms.as_slice(), n) && other_below(other, n),
        Expr::Call(_, list) => exprs_below(list.as_slice(), n),
        Expr::CountRows => true,
        Expr::Scalar(q) => query_below(q.get(), n),
        Expr::Exists(q) => query_below(q.get(), n),
    }
}

#[cycle(below)]
#[tactic(auto, using(crate::proofs::PlaceRules::all_rules))]
fn exprs_below(list: &[Expr], n: usize) -> bool
    ensures { result ≡ all_exprs n list.now }
{
    for e in list {
        if !expr_below(e, n) {
            return false;
        }
    }
    true
}

#[cycle(below)]
#[tactic(auto, using(crate::proofs::PlaceRules::all_rules))]
fn links_below(links: &[(ChainOp, Expr)], n: usize) -> bool
    ensures { result ≡ all_links n links.now }
{
    for link in links {
        if !expr_below(&link.1, n) {
            return false;
        }
    }
    true
}

#[cycle(below)]
#[tactic(auto, using(crate::proofs::PlaceRules::all_rules))]
fn arms_below(arms: &[(Expr, Expr)], n: usize) -> bool
    ensures { result ≡ all_arms n arms.now }
{
    for arm in arms {
        if !(expr_below(&arm.0, n) && expr_below(&arm.1, n)) {
            return false;
        }
    }
    true
}

#[cycle(below)]
#[tactic(auto, using(crate::proofs::PlaceRules::all_rules))]
fn other_below(other: &Option<Boxed<Expr>>, n: usize) -> bool
    ensures { result ≡ other_within n other.now }
{
    match other {
        None => true,
        Some(e) => expr_below(e.get(), n),
    }
}

/// The same of a condition or of LIMIT.
#[cycle(below)]
#[tactic(auto, using(crate::proofs::PlaceRules::all_rules))]
fn optional_below(e: &Option<Expr>, n: usize) -> bool
    ensures { result ≡ optional_within n e.now }
{
    match e {
        None => true,
        Some(e) => expr_below(e, n),
    }
}

#[cycle(below)]
#[tactic(auto, using(crate::proofs::PlaceRules::all_rules))]
fn items_below(list: &[Item], n: usize) -> bool
    ensures { result ≡ all_items n list.now }
{
    for item in list {
        if !expr_below(&item.expr, n) {
            return false;
        }
    }
    true
}

#[cycle(below)]
#[tactic(auto, using(crate::proofs::PlaceRules::all_rules))]
fn keys_below(list: &[Key], n: usize) -> bool
    ensures { result ≡ all_keys n list.now }
{
    for key in list {
        if !expr_below(&key.expr, n) {
            return false;
        }
    }
    true
}

#[cycle(below)]
#[tactic(auto, using(crate::proofs::PlaceRules::from_rules))]
fn from_below(item: &FromItem, n: usize) -> bool
    ensures { result ≡ from_within n item.now }
{
    match &item.source {
        Source::Table(_) => place_below(item.columns.as_slice(), n),
        Source::Sub(q, _) => query_below(q.get(), n),
    }
}

#[cycle(below)]
#[tactic(auto, using(crate::proofs::PlaceRules::all_rules))]
fn froms_below(list: &[FromItem], n: usize) -> bool
    ensures { result ≡ all_froms n list.now }
{
    for item in list {
        if !from_below(item, n) {
            return false;
        }
    }
    true
}

#[cycle(below)]
#[tactic(auto, using(crate::proofs::PlaceRules::select_rules))]
fn select_below(s: &Select, n: usize) -> bool
    ensures { result ≡ select_within n s.now }
{
    items_below(s.list.as_slice(), n)
        && (froms_below(s.from.as_slice(), n)
            && (optional_below(&s.filter, n)
                && (keys_below(s.order.as_slice(), n) && optional_below(&s.limit, n))))
}

#[cycle(below)]
#[tactic(auto, using(crate::proofs::PlaceRules::all_rules))]
fn selects_below(list: &[Select], n: usize) -> bool
    ensures { result ≡ all_selects n list.now }
{
    for s in list {
        if !select_below(s, n) {
            return false;
        }
    }
    true
}

#[cycle(below)]
#[tactic(auto, using(crate::proofs::PlaceRules::query_rules))]
fn query_below(q: &Query, n: usize) -> bool
    ensures { result ≡ query_within n q.now }
{
    selects_below(q.selects.as_slice(), n)
}

/// Whether an item takes its rows from the table at place n.
#[tactic(auto, using(crate::proofs::PlaceRules::from_rules))]
fn is_table(item: &FromItem, n: usize) -> bool
    ensures { result ≡ stands_at n item.now }
{
    match &item.source {
        Source::Table(_) => place_is(item.columns.as_slice(), n),
        Source::Sub(_, _) => false,
    }
}

/// Whether FROM is that table alone.
fn is_table_alone(from: &[FromItem], n: usize) -> bool
    ensures { result ≡ stands_alone n from.now }
{
    match from {
        [item] => is_table(item, n),
        _ => false,
    }
}

/// Whether a select's FROM is the table at place n alone, and all else in it reads only tables before that one.
#[tactic(auto, using(crate::proofs::PlaceRules::suited_rules))]
pub(crate) fn is_suited(s: &Select, n: usize) -> bool
    ensures { result ≡ suited n s.now }
{
    is_table_alone(s.from.as_slice(), n)
        && (items_below(s.list.as_slice(), n)
            && (optional_below(&s.filter, n)
                && (keys_below(s.order.as_slice(), n) && optional_below(&s.limit, n))))
}
