//! Whether a select or a query has what is looked for.

ghost use Rattle.std.specs.Prelude.{◌≡◌};
ghost use Rattle.std.specs.List.{list_any};
ghost use Rattle.moved_names.specs.Finding as spec;
ghost use Rattle.moved_names.specs.Seeking.{sought};

use crate::finding::{in_expr, in_maybe};
use crate::sought::{Sought, is_any_word, is_maybe_word, is_word};
use away_trees::{FromItem, Item, Key, Query, Recursive, Select, Source};

#[cycle(finding)]
#[tactic(auto, using(crate::proofs::FindingRules::query_rule))]
pub(crate) fn in_query(s: Sought<'_>, q: &Query) -> bool
    ensures { result ≡ spec.in_query (sought s.entry) q.now }
{
    in_with(s, &q.recursive) || in_selects(s, q.selects.as_slice())
}

#[cycle(finding)]
fn in_with(s: Sought<'_>, r: &Option<Recursive>) -> bool
    ensures { result ≡ spec.holds (spec.in_recursive (sought s.entry)) r.now }
{
    match r {
        None => false,
        Some(r) => in_recursive(s, r),
    }
}

#[cycle(finding)]
#[tactic(auto, using(crate::proofs::FindingRules::recursive_rule))]
fn in_recursive(s: Sought<'_>, r: &Recursive) -> bool
    ensures { result ≡ spec.in_recursive (sought s.entry) r.now }
{
    is_word(s, &r.name)
        || (is_any_word(s, r.columns.as_slice())
            || (in_selects(s, r.first.as_slice()) || in_select(s, &r.second)))
}

#[cycle(finding)]
#[tactic(auto, using(crate::proofs::FindingRules::select_rule))]
pub fn in_select(s: Sought<'_>, x: &Select) -> bool
    ensures { result ≡ spec.in_select (sought s.entry) x.now }
{
    in_items(s, x.list.as_slice())
        || (in_from(s, x.from.as_slice())
            || (in_maybe(s, &x.filter)
                || (in_keys(s, x.order.as_slice()) || in_maybe(s, &x.limit))))
}

#[cycle(finding)]
#[tactic(auto, using(crate::proofs::FindingRules::item_rule))]
fn in_item(s: Sought<'_>, i: &Item) -> bool
    ensures { result ≡ spec.in_item (sought s.entry) i.now }
{
    in_expr(s, &i.expr) || is_maybe_word(s, &i.alias)
}

#[cycle(finding)]
#[tactic(auto, using(crate::proofs::FindingRules::key_rule))]
fn in_key(s: Sought<'_>, k: &Key) -> bool
    ensures { result ≡ spec.in_key (sought s.entry) k.now }
{
    in_expr(s, &k.expr)
}

#[cycle(finding)]
#[tactic(auto, using(crate::proofs::FindingRules::part_rule))]
fn in_part(s: Sought<'_>, f: &FromItem) -> bool
    ensures { result ≡ spec.in_part (sought s.entry) f.now }
{
    in_source(s, &f.source) || (is_word(s, &f.alias) || is_any_word(s, f.columns.as_slice()))
}

#[cycle(finding)]
#[tactic(auto, using(crate::proofs::FindingRules::source_rules))]
fn in_source(s: Sought<'_>, x: &Source) -> bool
    ensures { result ≡ spec.in_source (sought s.entry) x.now }
{
    match x {
        Source::Table(n) => is_word(s, n),
        Source::Sub(q, _) => in_query(s, q.get()),
    }
}

#[cycle(finding)]
fn in_items(s: Sought<'_>, list: &[Item]) -> bool
    ensures { result ≡ list_any (spec.in_item (sought s.entry)) list.now }
{
    for i in list {
        if in_item(s, i) {
            return true;
        }
    }
    false
}

#[cycle(finding)]
fn in_keys(s: Sought<'_>, list: &[Key]) -> bool
    ensures { result ≡ list_any (spec.in_key (sought s.entry)) list.now }
{
    for k in list {
        if in_key(s, k) {
            return true;
        }
    }
    false
}

#[cycle(finding)]
fn in_from(s: Sought<'_>, list: &[FromItem]) -> bool
    ensures { result ≡ list_any (spec.in_part (sought s.entry)) list.now }
{
    for f in list {
        if in_part(s, f) {
            return true;
        }
    }
    false
}

#[cycle(finding)]
fn in_selects(s: Sought<'_>, list: &[Select]) -> bool
    ensures { result ≡ list_any (spec.in_select (sought s.entry)) list.now }
{
    for x in list {
        if in_select(s, x) {
            return true;
        }
    }
    false
}
