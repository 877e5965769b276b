//! Whether two trees are one.

ghost use Rattle.std.specs.Prelude.{◌≡◌, ◌↔◌, IsTrue, IfOk, length};
ghost use Rattle.sql_meaning.specs.Names.{bare};

use away_trees::Query;
use away_values::NoMemory;
use std::alloc::Global;
use tree_events::{Kind, TreeEvent, events_determine_queries, query_events};

fn same_kind(left: Kind, right: Kind) -> bool
    ensures { IsTrue result ↔ (left ≡ right) }
{
    left == right
}

fn same_event(left: &TreeEvent, right: &TreeEvent) -> bool
    ensures { IsTrue result ↔ (left.now ≡ right.now) }
{
    match left {
        TreeEvent::Open(kind) => match right {
            TreeEvent::Open(other) => same_kind(*kind, *other),
            _ => false,
        },
        TreeEvent::Close => match right {
            TreeEvent::Close => true,
            _ => false,
        },
        TreeEvent::Enter => match right {
            TreeEvent::Enter => true,
            _ => false,
        },
        TreeEvent::Leave => match right {
            TreeEvent::Leave => true,
            _ => false,
        },
        TreeEvent::Text(text) => match right {
            TreeEvent::Text(other) => text.text() == other.text(),
            _ => false,
        },
        TreeEvent::Name(name) => match right {
            TreeEvent::Name(other) => name.text() == other.text(),
            _ => false,
        },
    }
}

fn same_at_places(left: &[TreeEvent], right: &[TreeEvent]) -> bool
    requires { length left.now ≡ length right.now }
    ensures { IsTrue result ↔ (left.now ≡ right.now) }
{
    for i in 0..left.len() {
        if !same_event(&left[i], &right[i]) {
            return false;
        }
    }
    true
}

fn same_events(left: &[TreeEvent], right: &[TreeEvent]) -> bool
    ensures { IsTrue result ↔ (left.now ≡ right.now) }
{
    if left.len() != right.len() {
        return false;
    }
    same_at_places(left, right)
}

/// Whether two queries are one, names of aliases and columns aside.
pub fn same_tree(alloc: Global, left: &Query, right: &Query) -> Result<bool, NoMemory>
    ensures { IfOk result (λ yes. IsTrue yes ↔ (bare left.now ≡ bare right.now)) }
{
    events_determine_queries();
    let first = query_events(alloc, left)?;
    let second = query_events(alloc, right)?;
    Ok(same_events(first.as_slice(), second.as_slice()))
}
