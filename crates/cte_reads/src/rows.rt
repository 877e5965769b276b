//! The rows that bodies give.

ghost use Rattle.std.specs.Prelude.{◌∷◌, map};
ghost use Rattle.sql_meaning.specs.Trees as tree;
ghost use Rattle.cte_reads.specs.Puts.{expr_put, exprs_put};
ghost use Rattle.cte_reads.specs.Read.{Reads};
ghost use Rattle.cte_reads.specs.Rows as spec;

use crate::lets::reference;
use crate::parts::{behind, class_text, column, exprs_of_nulls, null_of, number, truth};
use crate::scope::{Ref, lookup};
use away_values::{Class, Ty};
use tree_events::TreeEvent;

/// A reference, or NULL of the column's type.
fn cell(
    events: &[TreeEvent],
    at: Option<usize>,
    found: Option<Ref>,
    ty: Ty,
    depth: usize,
) -> Option<usize>
    ensures { Reads (expr_put (spec.cell depth found ty)) events.now at result }
{
    match found {
        None => null_of(events, at, ty),
        Some(found) => reference(events, at, found, depth),
    }
}

/// The references in a label's places, and NULL in each other column.
fn cells(
    events: &[TreeEvent],
    at: Option<usize>,
    places: &[u32],
    refs: &[Ref],
    columns: &[Ty],
    depth: usize,
) -> Option<usize>
    ensures { Reads (exprs_put
        (spec.cells_at depth 0 places.now refs.now columns.now)) events.now at result }
{
    let mut at = at;
    for i in 0..columns.len() {
        at = cell(events, at, lookup(places, refs, i), columns[i], depth);
    }
    at
}

/// The row of a call: the label counted from 0, its places, and the reference that each place gets, in a select so deep.
pub fn call_row(
    events: &[TreeEvent],
    at: Option<usize>,
    label: usize,
    places: &[u32],
    refs: &[Ref],
    columns: &[Ty],
    result_type: Ty,
    depth: usize,
) -> Option<usize>
    ensures { Reads (exprs_put (spec.call_list label (spec.cells_at depth 0 places.now refs.now columns.now) result_type)) events.now at result }
{
    let at = behind(events, truth(events, at, true), label);
    let at = cells(events, at, places, refs, columns, depth);
    null_of(events, null_of(events, at, result_type), Ty::Text)
}

/// FALSE, 0 and NULLs.
fn begin_of_end(events: &[TreeEvent], at: Option<usize>, columns: &[Ty]) -> Option<usize>
    ensures { Reads (exprs_put (spec.begin_list columns.now)) events.now at result }
{
    let at = number(events, truth(events, at, false), 0);
    exprs_of_nulls(events, at, columns)
}

/// The row of a value that an item of the select gives.
pub fn value_row(
    events: &[TreeEvent],
    at: Option<usize>,
    item: usize,
    columns: &[Ty],
) -> Option<usize>
    ensures { Reads (exprs_put (spec.value_list columns.now item)) events.now at result }
{
    let at = begin_of_end(events, at, columns);
    null_of(events, column(events, at, 0, item, 0), Ty::Text)
}

/// The row of a fault.
pub fn fault_row(
    events: &[TreeEvent],
    at: Option<usize>,
    class: Class,
    columns: &[Ty],
    result_type: Ty,
) -> Option<usize>
    ensures { Reads (exprs_put
        (spec.fault_list columns.now result_type class)) events.now at result }
{
    let at = begin_of_end(events, at, columns);
    class_text(events, null_of(events, at, result_type), class)
}
