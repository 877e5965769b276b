//! Small parts of the template.

ghost use Rattle.std.specs.Prelude.{suc, pos, ◌∷◌, map};
ghost use Rattle.away_trees.specs.declared.queries.Expr.TheVariants as expr;
ghost use Rattle.tree_events.specs.declared.events.Kind.TheVariants as kind;
ghost use Rattle.tree_events.specs.declared.events.TreeEvent.TheVariants as event;
ghost use Rattle.tree_events.specs.Events.{row};
ghost use Rattle.sql_meaning.specs.Template as template;
ghost use Rattle.sql_meaning.specs.Trees as tree;
ghost use Rattle.cte_reads.specs.Puts as put;
ghost use Rattle.cte_reads.specs.Puts.{expr_put, exprs_put, from_put};
ghost use Rattle.cte_reads.specs.Read.{Reads};
ghost use Rattle.cte_reads.specs.Rows as rows;

use crate::reading::{Node, Wanted, close, empty, empty_node, enter, event, leave, open};
use away_values::{Class, CmpOp, IsTest, Ty};
use tree_events::{Kind, TreeEvent};

pub fn column(
    events: &[TreeEvent],
    at: Option<usize>,
    level: usize,
    item: usize,
    place: usize,
) -> Option<usize>
    ensures { Reads (expr_put (tree.col level item place)) events.now at result }
{
    empty_node(events, at, Node::Column(level, item, place))
}

/// The parameter behind a number, with its type.
pub fn param(events: &[TreeEvent], at: Option<usize>, before: u32, ty: Ty) -> Option<usize>
    ensures { Reads (expr_put (expr.Param (suc before) ty)) events.now at result }
{
    empty_node(events, at, Node::Param(before, ty))
}

/// A node without parts in a cast.
fn cast(events: &[TreeEvent], at: Option<usize>, ty: Ty, inside: Node) -> Option<usize>
    ensures { Reads (put.cast_put ty inside) events.now at result }
{
    let at = open(events, at, Kind::Cast(ty));
    close(events, empty_node(events, at, inside))
}

/// `CAST(n AS bigint)`
pub fn number(events: &[TreeEvent], at: Option<usize>, n: usize) -> Option<usize>
    ensures { Reads (expr_put (tree.number (pos n))) events.now at result }
{
    cast(events, at, Ty::Bigint, Node::Number(n))
}

/// `CAST(n + 1 AS bigint)`
pub fn behind(events: &[TreeEvent], at: Option<usize>, n: usize) -> Option<usize>
    ensures { Reads (expr_put (tree.number (pos (suc n)))) events.now at result }
{
    cast(events, at, Ty::Bigint, Node::Behind(n))
}

pub fn truth(events: &[TreeEvent], at: Option<usize>, v: bool) -> Option<usize>
    ensures { Reads (expr_put (tree.truth v)) events.now at result }
{
    cast(events, at, Ty::Boolean, Node::Of(Kind::Bool(v)))
}

pub fn null_of(events: &[TreeEvent], at: Option<usize>, ty: Ty) -> Option<usize>
    ensures { Reads (expr_put (tree.null_of ty)) events.now at result }
{
    cast(events, at, ty, Node::Of(Kind::Null))
}

/// A class as a text.
pub fn class_text(events: &[TreeEvent], at: Option<usize>, class: Class) -> Option<usize>
    ensures { Reads (expr_put (rows.class_text class)) events.now at result }
{
    let at = open(events, at, Kind::Cast(Ty::Text));
    let at = event(events, open(events, at, Kind::Str), Wanted::Code(class));
    close(events, close(events, at))
}

/// NULL of each type.
pub fn exprs_of_nulls(events: &[TreeEvent], at: Option<usize>, types: &[Ty]) -> Option<usize>
    ensures { Reads (exprs_put (map tree.null_of types.now)) events.now at result }
{
    let mut at = at;
    for ty in types {
        at = null_of(events, at, *ty);
    }
    at
}

/// ORDER BY and LIMIT, which are missing, and the select's end.
pub fn rest_of_select(events: &[TreeEvent], at: Option<usize>) -> Option<usize>
    ensures { Reads put.end_put events.now at result }
{
    let at = empty(events, at, Kind::Order);
    leave(events, empty(events, at, Kind::Limit))
}

/// The end of a select without WHERE.
pub fn end_of_body(events: &[TreeEvent], at: Option<usize>) -> Option<usize>
    ensures { Reads put.no_filter_put events.now at result }
{
    rest_of_select(events, empty(events, at, Kind::Filter))
}

/// The items are over, and the list begins.
pub fn to_list(events: &[TreeEvent], at: Option<usize>) -> Option<usize>
    ensures { Reads (λ rest. event.Close ∷ event.Open kind.List ∷ rest) events.now at result }
{
    open(events, close(events, at), Kind::List)
}

/// The beginning of a LATERAL item, up to its selects.
pub fn open_lateral(events: &[TreeEvent], at: Option<usize>) -> Option<usize>
    ensures { Reads put.lateral_put events.now at result }
{
    let at = open(events, at, Kind::Sub(true));
    empty(events, open(events, at, Kind::Query), Kind::With)
}

pub fn close_lateral(events: &[TreeEvent], at: Option<usize>) -> Option<usize>
    ensures { Reads put.lateral_end_put events.now at result }
{
    close(events, close(events, at))
}

/// What a body is behind: the number of a label that the row has, or a test that is true or isn't, by its item.
#[derive(Clone, Copy, Debug, PartialEq, Eq)]
pub enum Gate {
    /// Counted from 0.
    Label(usize),
    Yes(usize),
    No(usize),
}

fn label_condition(events: &[TreeEvent], at: Option<usize>, label: usize) -> Option<usize>
    ensures { Reads (expr_put (put.label_is label)) events.now at result }
{
    let at = open(events, at, Kind::Compare(CmpOp::Eq));
    let at = column(events, at, 2, 0, 1);
    close(events, behind(events, at, label))
}

fn condition(events: &[TreeEvent], at: Option<usize>, gate: Gate) -> Option<usize>
    ensures { Reads (expr_put (put.condition gate)) events.now at result }
{
    match gate {
        Gate::Label(label) => label_condition(events, at, label),
        Gate::Yes(item) => column(events, at, 2, item, 0),
        Gate::No(item) => {
            let at = open(events, at, Kind::Is(IsTest::True, true));
            close(events, column(events, at, 2, item, 0))
        }
    }
}

/// `LATERAL (SELECT TRUE WHERE condition)`
pub fn gate_item(events: &[TreeEvent], at: Option<usize>, gate: Gate) -> Option<usize>
    ensures { Reads (from_put (template.gate (put.condition gate))) events.now at result }
{
    let at = enter(events, open_lateral(events, at));
    let at = open(events, empty(events, at, Kind::From), Kind::List);
    let at = close(events, truth(events, at, true));
    let at = condition(events, open(events, at, Kind::Filter), gate);
    let at = rest_of_select(events, close(events, at));
    close_lateral(events, at)
}

/// A select up to the items behind its gate.
pub fn open_body(events: &[TreeEvent], at: Option<usize>, by: Gate) -> Option<usize>
    ensures { Reads (put.open_put by) events.now at result }
{
    let at = open(events, enter(events, at), Kind::From);
    gate_item(events, at, by)
}

/// Columns of an item of the select, from the first on.
pub fn all_of(events: &[TreeEvent], at: Option<usize>, item: usize, columns: usize) -> Option<usize>
    ensures { Reads (exprs_put
        (map (tree.col 0 item) (template.below columns))) events.now at result }
{
    let mut at = at;
    for place in 0..columns {
        at = column(events, at, 0, item, place);
    }
    at
}
