//! What stands round the branches.

ghost use Rattle.std.specs.Prelude.{◌≡◌, ◌∷◌, List, decimal, suc, pos, length};
ghost use Rattle.away_trees.specs.declared.queries.Expr.{Expr};
ghost use Rattle.cte_check.specs.Whole as spec;
ghost use Rattle.cte_reads.specs.Puts.{expr_put, exprs_put, from_put, select_put};
ghost use Rattle.cte_reads.specs.Read.{Reads};

use crate::body::Given;
use crate::labels::{params_of, places_of, type_of_name};
use away_values::Ty;
use cte_reads::{
    all_of, behind, close, close_lateral, column, empty, end_of_body, enter, name, null_of, open,
    open_lateral, param, rest_of_select, to_list, truth,
};
use itoa::Buffer;
use tree_events::{Kind, TreeEvent};

/// The parameter that has a place, if one has.
fn place_param(params: &[u32], places: &[u32], column: usize) -> Option<u32>
    ensures { result ≡ spec.param_at places.now params.now column }
{
    for i in 0..places.len() {
        if i >= params.len() {
            return None;
        }
        if places[i] as usize == column {
            return Some(params[i]);
        }
    }
    None
}

/// An argument, or NULL of its column's type.
fn argument(g: &Given<'_>, at: Option<usize>, found: Option<u32>, ty: Ty) -> Option<usize>
    ensures { Reads (expr_put (spec.argument g.now found ty)) g.now.events.now at result }
{
    match found {
        None => null_of(g.events, at, ty),
        Some(p) => param(g.events, at, p, type_of_name(g.slots, g.names, p)),
    }
}

/// The arguments in the places of the entry's parameters, and NULL in each other column.
fn arguments(g: &Given<'_>, at: Option<usize>, params: &[u32], places: &[u32]) -> Option<usize>
    ensures { Reads (exprs_put
        (spec.arguments g.now params.now places.now)) g.now.events.now at result }
{
    let columns = g.tail.columns.as_slice();
    let mut at = at;
    for i in 0..columns.len() {
        at = argument(g, at, place_param(params, places, i), columns[i]);
    }
    at
}

/// The first term, where the entry is the label with this number, counted from 0.
fn first_term(g: &Given<'_>, at: Option<usize>, entry: u32, label: usize) -> Option<usize>
    ensures { Reads (select_put (spec.start g.now entry label)) g.now.events.now at result }
{
    let s = g.events;
    let at = empty(s, enter(s, at), Kind::From);
    let at = truth(s, open(s, at, Kind::List), true);
    let at = behind(s, at, label);
    let at = arguments(g, at, params_of(g, entry), places_of(g, label));
    let at = null_of(s, null_of(s, at, g.result), Ty::Text);
    end_of_body(s, close(s, at))
}

/// The recursive table, by the digits of its place.
fn working_table(events: &[TreeEvent], at: Option<usize>, tables: usize) -> Option<usize>
    ensures { Reads (from_put (spec.working_table tables)) events.now at result }
{
    let mut buffer = Buffer::new();
    let digits = buffer.format(tables);
    let at = name(events, open(events, at, Kind::Table), digits);
    close(events, at)
}

/// From the query's beginning to the branches.
pub(crate) fn up_to_branches(
    g: &Given<'_>,
    entry: u32,
    label: usize,
    tables: usize,
) -> Option<usize>
    ensures { Reads (spec.before_put g.now entry label tables) g.now.events.now (Some 0) result }
{
    let s = g.events;
    let at = open(s, open(s, Some(0), Kind::Query), Kind::With);
    let at = open(s, open(s, at, Kind::Recursive), Kind::First);
    let at = close(s, first_term(g, at, entry, label));
    let at = open(s, enter(s, at), Kind::From);
    open_lateral(s, working_table(s, at, tables))
}

/// What is left of the second term behind the branches.
fn rest_of_step(g: &Given<'_>, at: Option<usize>) -> Option<usize>
    ensures { Reads (spec.rest_of_step g.now) g.now.events.now at result }
{
    let s = g.events;
    let at = to_list(s, close_lateral(s, at));
    let at = close(s, all_of(s, at, 1, g.tail.columns.as_slice().len() + 4));
    let at = column(s, open(s, at, Kind::Filter), 0, 0, 0);
    rest_of_select(s, close(s, at))
}

/// The select of results.
fn last(g: &Given<'_>, at: Option<usize>, tables: usize) -> Option<usize>
    ensures { Reads (select_put (spec.last_of g.now tables)) g.now.events.now at result }
{
    let s = g.events;
    let columns = g.tail.columns.as_slice().len();
    let at = open(s, enter(s, at), Kind::From);
    let at = to_list(s, working_table(s, at, tables));
    let at = column(s, column(s, at, 0, 0, columns + 2), 0, 0, columns + 3);
    let at = open(s, open(s, close(s, at), Kind::Filter), Kind::Not);
    let at = close(s, close(s, column(s, at, 0, 0, 0)));
    rest_of_select(s, at)
}

/// From behind the branches to the query's end.
pub(crate) fn from_branches(g: &Given<'_>, at: Option<usize>, tables: usize) -> Option<usize>
    ensures { Reads (spec.behind_put g.now tables) g.now.events.now at result }
{
    let s = g.events;
    let at = close(s, close(s, rest_of_step(g, at)));
    close(s, last(g, at, tables))
}
