//! Selects and queries whose slots stand elsewhere.

ghost use Rattle.std.specs.Prelude.{◌≡◌, IsTrue, take};
ghost use Rattle.moved_slots.specs.Moved as spec;
ghost use Rattle.moved_slots.specs.Moved.{slots_by};

use crate::exprs::{expr_moved, maybe_moved};
use away_trees::{FromItem, Item, Key, Query, Select, Source};
use away_values::Name;

/// A subquery, which has no recursive part.
#[cycle(moved)]
#[tactic(auto, using(crate::proofs::MovedRules::query_rule))]
pub(crate) fn query_moved(pairs: &[(u32, u32)], d: u32, q: &Query, y: &Query) -> bool
    ensures { IsTrue result → spec.QueryMoved (slots_by pairs.now) d q.now y.now }
{
    if q.recursive.is_some() {
        return false;
    }
    if y.recursive.is_some() {
        return false;
    }
    selects_moved(pairs, d, q.selects.as_slice(), y.selects.as_slice())
}

#[cycle(moved)]
fn selects_moved(pairs: &[(u32, u32)], d: u32, list: &[Select], others: &[Select]) -> bool
    ensures { IsTrue result
        → spec.Each (spec.SelectMoved (slots_by pairs.now) d) list.now others.now }
{
    if list.len() != others.len() {
        return false;
    }
    for i in 0..list.len() {
        if !select_moved(pairs, d, &list[i], &others[i]) {
            return false;
        }
    }
    true
}

/// Whether a select, so many selects deep, is another whose slots stand elsewhere.
#[cycle(moved)]
#[tactic(auto, using(crate::proofs::MovedRules::select_rule))]
pub fn select_moved(pairs: &[(u32, u32)], d: u32, s: &Select, y: &Select) -> bool
    ensures { IsTrue result → spec.SelectMoved (slots_by pairs.now) d s.now y.now }
{
    let Some(deeper) = d.checked_add(1) else {
        return false;
    };
    if !items_moved(pairs, deeper, s.list.as_slice(), y.list.as_slice()) {
        return false;
    }
    if !froms_moved(pairs, deeper, s.from.as_slice(), y.from.as_slice()) {
        return false;
    }
    if !maybe_moved(pairs, deeper, &s.filter, &y.filter) {
        return false;
    }
    if !keys_moved(pairs, deeper, s.order.as_slice(), y.order.as_slice()) {
        return false;
    }
    maybe_moved(pairs, deeper, &s.limit, &y.limit)
}

#[cycle(moved)]
#[tactic(auto, using(crate::proofs::MovedRules::item_rule))]
fn item_moved(pairs: &[(u32, u32)], d: u32, i: &Item, y: &Item) -> bool
    ensures { IsTrue result → spec.ItemMoved (slots_by pairs.now) d i.now y.now }
{
    expr_moved(pairs, d, &i.expr, &y.expr)
}

#[cycle(moved)]
fn items_moved(pairs: &[(u32, u32)], d: u32, list: &[Item], others: &[Item]) -> bool
    ensures { IsTrue result
        → spec.Each (spec.ItemMoved (slots_by pairs.now) d) list.now others.now }
{
    if list.len() != others.len() {
        return false;
    }
    for i in 0..list.len() {
        if !item_moved(pairs, d, &list[i], &others[i]) {
            return false;
        }
    }
    true
}

#[cycle(moved)]
#[tactic(auto, using(crate::proofs::MovedRules::key_rule))]
fn key_moved(pairs: &[(u32, u32)], d: u32, k: &Key, y: &Key) -> bool
    ensures { IsTrue result → spec.KeyMoved (slots_by pairs.now) d k.now y.now }
{
    k.descending == y.descending && expr_moved(pairs, d, &k.expr, &y.expr)
}

#[cycle(moved)]
fn keys_moved(pairs: &[(u32, u32)], d: u32, list: &[Key], others: &[Key]) -> bool
    ensures { IsTrue result
        → spec.Each (spec.KeyMoved (slots_by pairs.now) d) list.now others.now }
{
    if list.len() != others.len() {
        return false;
    }
    for i in 0..list.len() {
        if !key_moved(pairs, d, &list[i], &others[i]) {
            return false;
        }
    }
    true
}

/// The digits of a table's place stand first among the columns of its item.
fn same_first(columns: &[Name], others: &[Name]) -> bool
    ensures { IsTrue result → take 1 columns.now ≡ take 1 others.now }
{
    match columns.first() {
        None => others.is_empty(),
        Some(a) => match others.first() {
            None => false,
            Some(b) => a.text() == b.text(),
        },
    }
}

#[cycle(moved)]
#[tactic(auto, using(crate::proofs::MovedRules::from_rules))]
fn from_moved(pairs: &[(u32, u32)], d: u32, f: &FromItem, y: &FromItem) -> bool
    ensures { IsTrue result → spec.FromMoved (slots_by pairs.now) d f.now y.now }
{
    match &f.source {
        Source::Table(_) => match &y.source {
            Source::Table(_) => same_first(f.columns.as_slice(), y.columns.as_slice()),
            Source::Sub(_, _) => false,
        },
        Source::Sub(q, lateral) => match &y.source {
            Source::Table(_) => false,
            Source::Sub(r, other) => {
                if *lateral != *other {
                    return false;
                }
                query_moved(pairs, d, q.get(), r.get())
            }
        },
    }
}

#[cycle(moved)]
fn froms_moved(pairs: &[(u32, u32)], d: u32, list: &[FromItem], others: &[FromItem]) -> bool
    ensures { IsTrue result
        → spec.Each (spec.FromMoved (slots_by pairs.now) d) list.now others.now }
{
    if list.len() != others.len() {
        return false;
    }
    for i in 0..list.len() {
        if !from_moved(pairs, d, &list[i], &others[i]) {
            return false;
        }
    }
    true
}
