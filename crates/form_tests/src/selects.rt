//! The entries and the slots of a small SELECT INTO. A test that finds no memory stops.

use away_trees::{Expr, FromItem, Item, Select, Source};
use away_values::{CmpOp, Name, Ty, name};
use select_into::{push_entries, select_slots};
use sqlite_items::Items;
use std::process::Abort;

fn named(rt: &(impl Abort + AllocGlobal), text: &str) -> Name {
    let made = name(rt.alloc(), text).expect(rt, "memory");
    made.expect(rt, "a name")
}

/// A select of these items alone.
fn select(rt: &(impl Abort + AllocGlobal), first: Expr, second: Expr) -> Select {
    let mut list = Items::new(rt.alloc());
    for expr in [first, second] {
        list.push(Item { expr, alias: None }).expect(rt, "memory");
    }
    Select {
        list,
        from: Items::new(rt.alloc()),
        filter: None,
        order: Items::new(rt.alloc()),
        limit: None,
    }
}

/// The one select of a scalar subquery.
fn inside(e: &Expr) -> Option<&Select> {
    match e {
        Expr::Scalar(query) => query.get().selects.as_slice().get(0),
        _ => None,
    }
}

fn item_at(s: &Select, place: usize) -> Option<&Expr> {
    let item = s.list.as_slice().get(place)?;
    Some(&item.expr)
}

/// The select in the FROM of another one.
fn within(s: &Select) -> Option<&Select> {
    let item = s.from.as_slice().get(0)?;
    match &item.source {
        Source::Sub(query, false) => query.get().selects.as_slice().get(0),
        _ => None,
    }
}

fn column_name(s: &Select, place: usize) -> Option<&str> {
    let item: &FromItem = s.from.as_slice().get(0)?;
    let name = item.columns.as_slice().get(place)?;
    Some(name.text())
}

#[test]
fn strict_has_two_tests_before_its_picks(rt: HostRuntime) {
    let s = select(&rt, Expr::Null, Expr::Slot(7));
    let targets = [(named(&rt, "a"), Some(1)), (named(&rt, "b"), Some(0))];
    let mut list = Items::new(rt.alloc());
    push_entries(
        rt.alloc(),
        &[Ty::Text, Ty::Bigint],
        true,
        &targets,
        &s,
        &mut list,
    )
    .expect(&rt, "memory");
    let entries = list.as_slice();
    assert_eq!(rt; entries.len(), 4);
    assert!(rt; matches!(entries[0], Expr::Compare(CmpOp::Eq, _, _)));
    assert!(rt; matches!(entries[1], Expr::Compare(CmpOp::Gt, _, _)));
    let pick = inside(&entries[3]).expect(&rt, "a pick");
    assert!(rt; matches!(item_at(pick, 0), Some(Expr::Column(c)) if c.column == 1));
    assert!(rt; column_name(pick, 1) == Some("away_v2"));
    let query = within(pick).expect(&rt, "a select");
    assert!(rt; matches!(item_at(query, 0), Some(Expr::Cast(_, Ty::Bigint))));
    assert!(rt; matches!(item_at(query, 1), Some(Expr::Slot(7))));
}

#[test]
fn each_slot_is_told_once(rt: HostRuntime) {
    let s = select(&rt, Expr::Slot(7), Expr::Slot(7));
    let slots = select_slots(rt.alloc(), &s).expect(&rt, "memory");
    assert_eq!(rt; slots.as_slice(), [7].as_slice());
}

#[test]
fn a_marked_item_is_cast_around_its_pick(rt: HostRuntime) {
    let mut s = select(&rt, Expr::Slot(7), Expr::Slot(7));
    s.list = Items::new(rt.alloc());
    for alias in [None, Some(named(&rt, "b"))] {
        let expr = Expr::Slot(7);
        s.list.push(Item { expr, alias }).expect(&rt, "memory");
    }
    let targets = [(named(&rt, "a"), Some(0)), (named(&rt, "b"), Some(0))];
    let mut list = Items::new(rt.alloc());
    push_entries(rt.alloc(), &[Ty::Integer], false, &targets, &s, &mut list).expect(&rt, "memory");
    let entries = list.as_slice();
    assert!(rt; matches!(entries[0], Expr::Scalar(_)));
    assert!(rt; matches!(entries[1], Expr::Cast(_, Ty::Integer)));
    let pick = match &entries[1] {
        Expr::Cast(pick, _) => inside(pick.get()).expect(&rt, "a pick"),
        _ => return,
    };
    let query = within(pick).expect(&rt, "a select");
    let item = query.list.as_slice().get(1).expect(&rt, "an item");
    assert!(rt; item.alias.is_none());
}
