//! The events of a tree, one after the other.

ghost use Rattle.std.specs.Prelude.{◌≡◌, IfOk};
ghost use Rattle.away_trees.specs.Algebra.{expr_of, item_of, from_of, key_of, select_of, recursive_of, query_of};
ghost use Rattle.away_trees.specs.declared.queries.Expr.TheViews.{out-Select};
ghost use Rattle.tree_events.specs.declared.events.Kind.TheVariants as kind;
ghost use Rattle.tree_events.specs.Events as spec;
ghost use Rattle.tree_events.specs.Events.{Adds, row, option, shaping, events_of_expr, events_of_query};

use crate::events::{Kind, Manner, TreeEvent};
use crate::nodes::{close, integer, leaf, name, named, open, push, qualified, table, text};
use away_trees::{Expr, FromItem, Item, Key, Query, Recursive, Select, Source};
use away_values::{ChainOp, NoMemory};
use sqlite_items::{Boxed, Items};
use std::alloc::Global;

#[cycle(shape)]
fn push_expr(
    alloc: Global,
    manner: Manner,
    events: &mut Items<TreeEvent>,
    e: &Expr,
) -> Result<(), NoMemory>
    ensures { Adds (expr_of (shaping manner) e.now) events.old result events.new }
{
    match e {
        Expr::Int(n) => leaf(events, integer(*n)),
        Expr::Str(t) => text(alloc, events, t),
        Expr::Bool(v) => leaf(events, Kind::Bool(*v)),
        Expr::Null => leaf(events, Kind::Null),
        Expr::Named(of) => named(alloc, events, of),
        Expr::Dotted(alias, column) => qualified(alloc, events, alias, column),
        Expr::Slot(i) => leaf(events, Kind::Slot(*i)),
        Expr::Column(c) => leaf(events, Kind::Column(*c)),
        Expr::Param(i, ty) => leaf(events, Kind::Param(*i, *ty)),
        Expr::Neg(x) => push_node(alloc, manner, events, Kind::Neg, x.get()),
        Expr::NegSmall(x) => push_node(alloc, manner, events, Kind::NegSmall, x.get()),
        Expr::Not(x) => push_node(alloc, manner, events, Kind::Not, x.get()),
        Expr::Is(x, test, negative) => {
            push_node(alloc, manner, events, Kind::Is(*test, *negative), x.get())
        }
        Expr::Chain(x, links) => {
            open(events, Kind::Chain)?;
            push_expr(alloc, manner, events, x.get())?;
            push_links(alloc, manner, events, links.as_slice())?;
            close(events)
        }
        Expr::Compare(op, x, y) => {
            open(events, Kind::Compare(*op))?;
            push_expr(alloc, manner, events, x.get())?;
            push_expr(alloc, manner, events, y.get())?;
            close(events)
        }
        Expr::Between(negative, x, low, high) => {
            open(events, Kind::Between(*negative))?;
            push_expr(alloc, manner, events, x.get())?;
            push_expr(alloc, manner, events, low.get())?;
            push_expr(alloc, manner, events, high.get())?;
            close(events)
        }
        Expr::OneOf(negative, x, list) => {
            open(events, Kind::OneOf(*negative))?;
            push_expr(alloc, manner, events, x.get())?;
            push_exprs(alloc, manner, events, list.as_slice())?;
            close(events)
        }
        Expr::Cast(x, ty) => push_node(alloc, manner, events, Kind::Cast(*ty), x.get()),
        Expr::Cases(arms, other) => {
            open(events, Kind::Cases)?;
            push_arms(alloc, manner, events, arms.as_slice())?;
            push_else(alloc, manner, events, other)?;
            close(events)
        }
        Expr::Call(of, list) => {
            open(events, Kind::Call)?;
            name(alloc, events, of)?;
            push_exprs(alloc, manner, events, list.as_slice())?;
            close(events)
        }
        Expr::CountRows => leaf(events, Kind::CountRows),
        Expr::Scalar(q) => {
            open(events, Kind::Scalar)?;
            push_query(alloc, manner, events, q.get())?;
            close(events)
        }
        Expr::Exists(q) => {
            open(events, Kind::Exists)?;
            push_query(alloc, manner, events, q.get())?;
            close(events)
        }
    }
}

/// A node of one expression.
#[cycle(shape)]
fn push_node(
    alloc: Global,
    manner: Manner,
    events: &mut Items<TreeEvent>,
    kind: Kind,
    e: &Expr,
) -> Result<(), NoMemory>
    ensures { Adds (spec.node kind (expr_of (shaping manner) e.now)) events.old result events.new }
{
    open(events, kind)?;
    push_expr(alloc, manner, events, e)?;
    close(events)
}

#[cycle(shape)]
fn push_exprs(
    alloc: Global,
    manner: Manner,
    events: &mut Items<TreeEvent>,
    list: &[Expr],
) -> Result<(), NoMemory>
    ensures { Adds (row (λ x. expr_of (shaping manner) x) list.now) events.old result events.new }
{
    for e in list {
        push_expr(alloc, manner, events, e)?;
    }
    Ok(())
}

#[cycle(shape)]
fn push_links(
    alloc: Global,
    manner: Manner,
    events: &mut Items<TreeEvent>,
    links: &[(ChainOp, Expr)],
) -> Result<(), NoMemory>
    ensures { Adds (row (spec.link_put manner) links.now) events.old result events.new }
{
    for link in links {
        push_node(alloc, manner, events, Kind::Link(link.0), &link.1)?;
    }
    Ok(())
}

#[cycle(shape)]
fn push_arms(
    alloc: Global,
    manner: Manner,
    events: &mut Items<TreeEvent>,
    arms: &[(Expr, Expr)],
) -> Result<(), NoMemory>
    ensures { Adds (row (spec.arm_put manner) arms.now) events.old result events.new }
{
    for arm in arms {
        open(events, Kind::Arm)?;
        push_expr(alloc, manner, events, &arm.0)?;
        push_expr(alloc, manner, events, &arm.1)?;
        close(events)?;
    }
    Ok(())
}

#[cycle(shape)]
fn push_else(
    alloc: Global,
    manner: Manner,
    events: &mut Items<TreeEvent>,
    other: &Option<Boxed<Expr>>,
) -> Result<(), NoMemory>
    ensures { Adds (option (λ x. spec.node kind.Else
        (expr_of (shaping manner) x)) other.now) events.old result events.new }
{
    match other {
        None => Ok(()),
        Some(x) => push_node(alloc, manner, events, Kind::Else, x.get()),
    }
}

/// The list of a select.
#[cycle(shape)]
fn push_list(
    alloc: Global,
    manner: Manner,
    events: &mut Items<TreeEvent>,
    list: &[Item],
) -> Result<(), NoMemory>
    ensures { Adds (spec.node kind.List
        (row (item_of (shaping manner)) list.now)) events.old result events.new }
{
    open(events, Kind::List)?;
    for item in list {
        push_expr(alloc, manner, events, &item.expr)?;
    }
    close(events)
}

#[cycle(shape)]
fn push_from(
    alloc: Global,
    manner: Manner,
    events: &mut Items<TreeEvent>,
    list: &[FromItem],
) -> Result<(), NoMemory>
    ensures { Adds (spec.node kind.From
        (row (from_of (shaping manner)) list.now)) events.old result events.new }
{
    open(events, Kind::From)?;
    for item in list {
        push_from_item(alloc, manner, events, item)?;
    }
    close(events)
}

#[cycle(shape)]
fn push_from_item(
    alloc: Global,
    manner: Manner,
    events: &mut Items<TreeEvent>,
    item: &FromItem,
) -> Result<(), NoMemory>
    ensures { Adds (from_of (shaping manner) item.now) events.old result events.new }
{
    match &item.source {
        Source::Table(_) => table(alloc, events, item.columns.as_slice()),
        Source::Sub(q, lateral) => {
            open(events, Kind::Sub(*lateral))?;
            push_query(alloc, manner, events, q.get())?;
            close(events)
        }
    }
}

/// A part of a select that may be missing.
#[cycle(shape)]
fn push_option(
    alloc: Global,
    manner: Manner,
    events: &mut Items<TreeEvent>,
    kind: Kind,
    e: &Option<Expr>,
) -> Result<(), NoMemory>
    ensures { Adds (spec.node kind
        (option (λ x. expr_of (shaping manner) x) e.now)) events.old result events.new }
{
    open(events, kind)?;
    if let Some(x) = e {
        push_expr(alloc, manner, events, x)?;
    }
    close(events)
}

#[cycle(shape)]
fn push_order(
    alloc: Global,
    manner: Manner,
    events: &mut Items<TreeEvent>,
    keys: &[Key],
) -> Result<(), NoMemory>
    ensures { Adds (spec.node kind.Order
        (row (key_of (shaping manner)) keys.now)) events.old result events.new }
{
    open(events, Kind::Order)?;
    for key in keys {
        push_node(alloc, manner, events, Kind::Key(key.descending), &key.expr)?;
    }
    close(events)
}

/// The list and FROM, in their order.
#[cycle(shape)]
fn push_list_and_from(
    alloc: Global,
    manner: Manner,
    events: &mut Items<TreeEvent>,
    select: &Select,
) -> Result<(), NoMemory>
    ensures { Adds (spec.list_and_from manner
        (spec.node kind.List (row (item_of (shaping manner)) (out-Select select.now).list))
        (spec.node kind.From (row (from_of (shaping manner))
        (out-Select select.now).from))) events.old result events.new }
{
    match manner {
        Manner::Whole => {
            push_from(alloc, manner, events, select.from.as_slice())?;
            push_list(alloc, manner, events, select.list.as_slice())
        }
        Manner::Reading => {
            push_list(alloc, manner, events, select.list.as_slice())?;
            push_from(alloc, manner, events, select.from.as_slice())
        }
    }
}

#[cycle(shape)]
fn push_select(
    alloc: Global,
    manner: Manner,
    events: &mut Items<TreeEvent>,
    select: &Select,
) -> Result<(), NoMemory>
    ensures { Adds (select_of (shaping manner) select.now) events.old result events.new }
{
    push(events, TreeEvent::Enter)?;
    push_list_and_from(alloc, manner, events, select)?;
    push_option(alloc, manner, events, Kind::Filter, &select.filter)?;
    push_order(alloc, manner, events, select.order.as_slice())?;
    push_option(alloc, manner, events, Kind::Limit, &select.limit)?;
    push(events, TreeEvent::Leave)
}

#[cycle(shape)]
fn push_selects(
    alloc: Global,
    manner: Manner,
    events: &mut Items<TreeEvent>,
    selects: &[Select],
) -> Result<(), NoMemory>
    ensures { Adds (row (select_of (shaping manner)) selects.now) events.old result events.new }
{
    for select in selects {
        push_select(alloc, manner, events, select)?;
    }
    Ok(())
}

#[cycle(shape)]
fn push_recursive(
    alloc: Global,
    manner: Manner,
    events: &mut Items<TreeEvent>,
    recursive: &Recursive,
) -> Result<(), NoMemory>
    ensures { Adds (recursive_of (shaping manner) recursive.now) events.old result events.new }
{
    open(events, Kind::Recursive)?;
    open(events, Kind::First)?;
    push_selects(alloc, manner, events, recursive.first.as_slice())?;
    close(events)?;
    push_select(alloc, manner, events, &recursive.second)?;
    close(events)
}

/// The recursive part, where it isn't left out.
#[cycle(shape)]
fn push_with(
    alloc: Global,
    manner: Manner,
    events: &mut Items<TreeEvent>,
    with: &Option<Recursive>,
) -> Result<(), NoMemory>
    ensures { Adds (spec.with_put manner with.now) events.old result events.new }
{
    match with {
        None => Ok(()),
        Some(recursive) => match manner {
            Manner::Whole => push_recursive(alloc, manner, events, recursive),
            Manner::Reading => Ok(()),
        },
    }
}

#[cycle(shape)]
fn push_query(
    alloc: Global,
    manner: Manner,
    events: &mut Items<TreeEvent>,
    query: &Query,
) -> Result<(), NoMemory>
    ensures { Adds (query_of (shaping manner) query.now) events.old result events.new }
{
    open(events, Kind::Query)?;
    open(events, Kind::With)?;
    push_with(alloc, manner, events, &query.recursive)?;
    close(events)?;
    push_selects(alloc, manner, events, query.selects.as_slice())?;
    close(events)
}

/// The events of an expression.
pub fn expr_events(alloc: Global, manner: Manner, e: &Expr) -> Result<Items<TreeEvent>, NoMemory>
    ensures { IfOk result (λ events. events ≡ events_of_expr manner e.now) }
{
    let mut events = Items::new(alloc);
    push_expr(alloc, manner, &mut events, e)?;
    Ok(events)
}

/// The events of a query.
pub fn query_events(alloc: Global, query: &Query) -> Result<Items<TreeEvent>, NoMemory>
    ensures { IfOk result (λ events. events ≡ events_of_query query.now) }
{
    let mut events = Items::new(alloc);
    push_query(alloc, Manner::Whole, &mut events, query)?;
    Ok(events)
}
