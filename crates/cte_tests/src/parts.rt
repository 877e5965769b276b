//! The query's names, its small trees, and expressions of a function. A test that finds no memory stops.

use away_trees::{Col, Expr, FromItem, Source};
use away_values::{Class, CmpOp, Ty};
use cte_parts::{
    Known, add, after, alone, class_text, col, either_as, equal, gate_as, let_as, not, not_true,
    null, number, only, place, row_names, select, small, subquery, sum, truth, working,
};
use sqlite_items::{Boxed, Items};
use std::process::Abort;

fn column(e: &Expr) -> Option<Col> {
    match e {
        Expr::Column(column) => Some(*column),
        _ => None,
    }
}

/// The columns on both sides of a comparison.
fn sides(e: &Expr) -> (Option<Col>, Option<Col>) {
    match e {
        Expr::Compare(_, left, right) => (column(left.get()), column(right.get())),
        _ => (None, None),
    }
}

fn cast_to(e: &Expr) -> Option<Ty> {
    match e {
        Expr::Cast(_, ty) => Some(*ty),
        _ => None,
    }
}

/// How many selects an item's subquery has.
fn selects(item: &FromItem) -> usize {
    match &item.source {
        Source::Table(_) => 0,
        Source::Sub(query, _) => query.get().selects.len(),
    }
}

/// The first item's first column has this name.
fn first_is(from: &[FromItem], name: &str) -> bool {
    match from.get(0) {
        None => false,
        Some(item) => match item.columns.as_slice().get(0) {
            None => false,
            Some(column) => column.text() == name,
        },
    }
}

const FIRST: Col = Col {
    level: 2,
    item: 0,
    column: 5,
};

const OTHER: Col = Col {
    level: 3,
    item: 1,
    column: 0,
};

#[test]
fn columns_of_a_row_are_numbered(rt: HostRuntime) {
    let names = row_names(rt.alloc(), 2).expect(&rt, "memory");
    let mut text = String::new(rt.alloc());
    for name in names.as_slice() {
        text.push_str(name.text()).expect(&rt, "memory");
        text.push(' ').expect(&rt, "memory");
    }
    let expected = "away_go away_fn away_c0 away_c1 away_res away_err ";
    assert_eq!(rt; text.as_str(), expected);
    let step = Known::Step.name(rt.alloc()).expect(&rt, "memory");
    assert_eq!(rt; step.text(), "away_s");
}

#[test]
fn numbers_have_an_end(rt: HostRuntime) {
    assert!(rt; after(usize::MAX).is_err());
    assert_eq!(rt; sum(2, 3).expect(&rt, "memory"), 5);
    assert_eq!(rt; small(7).expect(&rt, "memory"), 7);
    assert!(rt; small(usize::MAX).is_err());
}

/// Slot 7 has a column, and slot 3 has none.
#[test]
fn columns_stand_for_slots(rt: HostRuntime) {
    let left = Boxed::new(rt.alloc(), Expr::Slot(7)).expect(&rt, "memory");
    let right = Boxed::new(rt.alloc(), Expr::Slot(3)).expect(&rt, "memory");
    let e = Expr::Compare(CmpOp::Gt, left, right);
    let placed = place(rt.alloc(), Ty::Boolean, &e, &[FIRST], OTHER).expect(&rt, "memory");
    assert_eq!(rt; sides(&placed), (Some(FIRST), Some(OTHER)));
    let none = place(rt.alloc(), Ty::Text, &Expr::Null, &[], OTHER).expect(&rt, "memory");
    assert_eq!(rt; cast_to(&none), Some(Ty::Text));
}

/// A literal that 32 bits hold is an integer; a negative one isn't.
#[test]
fn literals_have_their_own_types(rt: HostRuntime) {
    for (value, ty) in [
        (0, Ty::Integer),
        (2147483647, Ty::Integer),
        (2147483648, Ty::Bigint),
        (-1, Ty::Bigint),
    ] {
        let placed = place(rt.alloc(), Ty::Bigint, &Expr::Int(value), &[], OTHER).expect(
            &rt, "memory",
        );
        assert_eq!(rt; cast_to(&placed), Some(ty));
    }
}

#[test]
fn items_of_a_branch_have_aliases(rt: HostRuntime) {
    let go = truth(rt.alloc(), true).expect(&rt, "memory");
    let gate = gate_as(rt.alloc(), 3, go).expect(&rt, "memory");
    assert_eq!(rt; gate.alias.text(), "away_k3");
    assert_eq!(rt; selects(&gate), 1);
    let one = number(rt.alloc(), 1).expect(&rt, "memory");
    let value = let_as(rt.alloc(), 12, one).expect(&rt, "memory");
    assert_eq!(rt; value.alias.text(), "away_k12");
    let fault = class_text(rt.alloc(), Class { code: *b"22012" }).expect(&rt, "memory");
    assert_eq!(rt; cast_to(&fault), Some(Ty::Text));
    let mut list = only(rt.alloc(), fault).expect(&rt, "memory");
    add(
        &mut list,
        null(rt.alloc(), Ty::Bigint).expect(&rt, "memory"),
    )
    .expect(&rt, "memory");
    assert_eq!(rt; list.len(), 2);
    let first = select(rt.alloc(), list, Items::new(rt.alloc()), None);
    let second = select(
        rt.alloc(),
        Items::new(rt.alloc()),
        Items::new(rt.alloc()),
        None,
    );
    let both = either_as(rt.alloc(), 4, 2, first, second).expect(&rt, "memory");
    assert_eq!(rt; selects(&both), 2);
    assert_eq!(rt; both.columns.len(), 6);
}

#[test]
fn the_working_table_has_its_place(rt: HostRuntime) {
    let from = working(rt.alloc(), 7, 1).expect(&rt, "memory");
    assert_eq!(rt; from.len(), 1);
    assert!(rt; first_is(from.as_slice(), "7"));
    let left = col(2, 0, 1).expect(&rt, "memory");
    let right = number(rt.alloc(), 4).expect(&rt, "memory");
    let test = equal(rt.alloc(), left, right).expect(&rt, "memory");
    let test = not_true(rt.alloc(), test).expect(&rt, "memory");
    let test = not(rt.alloc(), test).expect(&rt, "memory");
    let list = Items::new(rt.alloc());
    let select = select(rt.alloc(), list, from, Some(test));
    let query = subquery(rt.alloc(), alone(rt.alloc(), select).expect(&rt, "memory"));
    assert_eq!(rt; query.expect(&rt, "memory").get().selects.len(), 1);
}
