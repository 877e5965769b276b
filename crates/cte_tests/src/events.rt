//! The events of small trees. A test that finds no memory stops.

use away_trees::{Col, Expr, FromItem, Item, Query, Select, Source};
use away_values::{ChainOp, IntOp, Name, Ty, Word, name, word};
use sqlite_items::{Boxed, Items};
use std::process::Abort;
use tree_events::{Kind, Manner, TreeEvent, expr_events, query_events};

fn named(rt: &(impl Abort + AllocGlobal), text: &str) -> Name {
    match name(rt.alloc(), text) {
        Ok(Some(name)) => name,
        _ => rt.abort(),
    }
}

fn worded(rt: &(impl Abort + AllocGlobal), text: &str) -> Word {
    match word(rt.alloc(), text) {
        Ok(Some(word)) => word,
        _ => rt.abort(),
    }
}

fn kinds(rt: &(impl Abort + AllocGlobal), events: &[TreeEvent]) -> Vec<Kind> {
    let mut found = Vec::new(rt.alloc());
    for event in events {
        if let TreeEvent::Open(kind) = event {
            found.push(*kind).expect(rt, "memory");
        }
    }
    found
}

/// `SELECT list FROM table AS alias`
fn select(rt: &(impl Abort + AllocGlobal), list: Expr, alias: &str) -> Query {
    let mut columns = Items::new(rt.alloc());
    columns.push(named(rt, "t7")).expect(rt, "memory");
    columns.push(named(rt, alias)).expect(rt, "memory");
    let item = FromItem {
        source: Source::Table(named(rt, alias)),
        alias: named(rt, alias),
        columns,
    };
    let mut items = Items::new(rt.alloc());
    items
        .push(Item {
            expr: list,
            alias: Some(named(rt, alias)),
        })
        .expect(rt, "memory");
    let mut from = Items::new(rt.alloc());
    from.push(item).expect(rt, "memory");
    let select = Select {
        list: items,
        from,
        filter: None,
        order: Items::new(rt.alloc()),
        limit: None,
    };
    let mut selects = Items::new(rt.alloc());
    selects.push(select).expect(rt, "memory");
    Query {
        recursive: None,
        selects,
    }
}

#[test]
fn a_sum_is_its_first_term_and_its_links(rt: HostRuntime) {
    let mut links = Items::new(rt.alloc());
    links
        .push((ChainOp::Int(IntOp::Add), Expr::Int(-5)))
        .expect(&rt, "memory");
    let first = Boxed::new(rt.alloc(), Expr::Slot(3)).expect(&rt, "memory");
    let sum = Expr::Chain(first, links);
    let events = expr_events(rt.alloc(), Manner::Whole, &sum).expect(&rt, "memory");
    assert_eq!(rt; events.len(), 8);
    assert_eq!(rt;
        kinds(&rt, events.as_slice()).as_slice(),
        [
            Kind::Chain,
            Kind::Slot(3),
            Kind::Link(ChainOp::Int(IntOp::Add)),
            Kind::Int(-5)
        ]
        .as_slice()
    );
}

#[test]
fn a_text_stands_in_its_node(rt: HostRuntime) {
    let inner = Boxed::new(rt.alloc(), Expr::Str(worded(&rt, "ab"))).expect(&rt, "memory");
    let cast = Expr::Cast(inner, Ty::Text);
    let events = expr_events(rt.alloc(), Manner::Reading, &cast).expect(&rt, "memory");
    assert_eq!(rt; events.len(), 5);
}

#[test]
fn from_comes_first_in_a_whole_query(rt: HostRuntime) {
    let column = Col {
        level: 0,
        item: 0,
        column: 1,
    };
    let query = select(&rt, Expr::Column(column), "t");
    let events = query_events(rt.alloc(), &query).expect(&rt, "memory");
    assert_eq!(rt; events.len(), 21);
    assert_eq!(rt;
        kinds(&rt, events.as_slice()).as_slice(),
        [
            Kind::Query,
            Kind::With,
            Kind::From,
            Kind::Table,
            Kind::List,
            Kind::Column(column),
            Kind::Filter,
            Kind::Order,
            Kind::Limit
        ]
        .as_slice()
    );
}

#[test]
fn the_list_comes_first_as_it_is_read(rt: HostRuntime) {
    let query = Boxed::new(rt.alloc(), select(&rt, Expr::Slot(4), "t")).expect(&rt, "memory");
    let events = expr_events(rt.alloc(), Manner::Reading, &Expr::Exists(query)).expect(
        &rt, "memory",
    );
    assert_eq!(rt;
        kinds(&rt, events.as_slice()).as_slice(),
        [
            Kind::Exists,
            Kind::Query,
            Kind::With,
            Kind::List,
            Kind::Slot(4),
            Kind::From,
            Kind::Table,
            Kind::Filter,
            Kind::Order,
            Kind::Limit
        ]
        .as_slice()
    );
}

#[test]
fn a_long_list_has_a_event_for_each(rt: HostRuntime) {
    let mut list = Items::new(rt.alloc());
    for _item in 0..20_000 {
        list.push(Expr::Null).expect(&rt, "memory");
    }
    let call = Expr::Call(named(&rt, "coalesce"), list);
    let events = expr_events(rt.alloc(), Manner::Whole, &call).expect(&rt, "memory");
    assert_eq!(rt; events.len(), 40_003);
}
