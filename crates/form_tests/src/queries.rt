//! Queries of small functions. A test that finds no memory stops.

use crate::built::built;
use crate::functions::function;
use away_trees::{Col, Expr, FromItem, Query, Recursive, Select, Source};
use away_values::Ty;
use block_forms::expr_table;
use cte_template::{carry, template_tree};
use sqlite_items::Items;
use std::process::Abort;

/// The query of a function of a over two tables.
fn query(rt: &(impl Abort + AllocGlobal), body: &str) -> Query {
    let f = function(rt, "a bigint", "", body);
    let forms = built(rt, f.get());
    let table = expr_table(rt.alloc(), f.get()).expect(rt, "memory");
    template_tree(
        rt.alloc(),
        f.get(),
        &forms.goto,
        &forms.ssa,
        &forms.anf,
        &forms.tail,
        &table,
        2,
    )
    .expect(rt, "memory")
}

/// The recursive table of a function of a over two tables, without first rows. Each row carries a text.
fn table_that_carries(rt: &(impl Abort + AllocGlobal), body: &str) -> Recursive {
    let f = function(rt, "a bigint", "", body);
    let forms = built(rt, f.get());
    let table = expr_table(rt.alloc(), f.get()).expect(rt, "memory");
    carry(
        rt.alloc(),
        f.get(),
        &forms.goto,
        &forms.ssa,
        &forms.anf,
        &forms.tail,
        &table,
        2,
        Items::new(rt.alloc()),
        &[Ty::Text],
    )
    .expect(rt, "memory")
}

/// A test, whose one arm calls the label of a loop, and whose other returns.
const ONE_OR_THE_OTHER: &str = "BEGIN IF a > 0 THEN LOOP RETURN a; END LOOP; END IF; RETURN 1; END";

fn selects(item: &FromItem) -> &[Select] {
    match &item.source {
        Source::Table(_) => &[],
        Source::Sub(query, _) => query.get().selects.as_slice(),
    }
}

fn item_at<'a>(rt: &(impl Abort + AllocGlobal), select: &'a Select, place: usize) -> &'a FromItem {
    match select.from.as_slice().get(place) {
        None => rt.abort(),
        Some(item) => item,
    }
}

fn name_at<'a>(rt: &(impl Abort + AllocGlobal), table: &'a Recursive, place: usize) -> &'a str {
    match table.columns.as_slice().get(place) {
        None => rt.abort(),
        Some(name) => name.text(),
    }
}

fn first_of<'a>(rt: &(impl Abort + AllocGlobal), item: &'a FromItem) -> &'a Select {
    match selects(item).get(0) {
        None => rt.abort(),
        Some(select) => select,
    }
}

fn branch_of<'a>(
    rt: &(impl Abort + AllocGlobal),
    table: &'a Recursive,
    label: usize,
) -> &'a Select {
    let rows = item_at(rt, &table.second, 1);
    match selects(rows).get(label) {
        None => rt.abort(),
        Some(select) => select,
    }
}

fn branch<'a>(rt: &(impl Abort + AllocGlobal), q: &'a Query, label: usize) -> &'a Select {
    let Some(working_table) = &q.recursive else {
        rt.abort()
    };
    branch_of(rt, working_table, label)
}

fn column_at(select: &Select, place: usize) -> Option<Col> {
    match select.list.as_slice().get(place) {
        None => None,
        Some(item) => match &item.expr {
            Expr::Column(column) => Some(*column),
            _ => None,
        },
    }
}

#[test]
fn a_block_is_merged_into_another(rt: HostRuntime) {
    let q = query(&rt, "BEGIN a := a + 1; RETURN a; END");
    let only = branch(&rt, &q, 0);
    assert_eq!(rt; only.from.len(), 3);
    let result = Col {
        level: 0,
        item: 2,
        column: 0,
    };
    assert_eq!(rt; column_at(only, 3), Some(result));
}

#[test]
fn a_test_is_two_selects(rt: HostRuntime) {
    let q = query(&rt, ONE_OR_THE_OTHER);
    let first = branch(&rt, &q, 0);
    assert_eq!(rt; first.from.len(), 3);
    let both = item_at(&rt, first, 2);
    assert_eq!(rt; both.alias.text(), "away_k3");
    assert_eq!(rt; both.columns.len(), 5);
    assert_eq!(rt; selects(both).len(), 2);
    assert_eq!(rt; branch(&rt, &q, 1).from.len(), 2);
}

#[test]
fn each_row_carries_a_text(rt: HostRuntime) {
    let table = table_that_carries(&rt, ONE_OR_THE_OTHER);
    assert_eq!(rt; table.columns.len(), 6);
    assert_eq!(rt; name_at(&rt, &table, 2), "away_x0");
    let text = Col {
        level: 1,
        item: 0,
        column: 2,
    };
    assert_eq!(rt; column_at(branch_of(&rt, &table, 1), 2), Some(text));
    let both = item_at(&rt, branch_of(&rt, &table, 0), 2);
    assert_eq!(rt; both.columns.len(), 6);
    let inside = Col { level: 2, ..text };
    assert_eq!(rt; column_at(first_of(&rt, both), 2), Some(inside));
    let value = Col {
        column: 3,
        ..inside
    };
    assert_eq!(rt; column_at(first_of(&rt, both), 3), Some(value));
}

/// Each of 497 blocks sets a slot and goes on with the next one. No function has more than 500 nodes.
#[test]
fn a_long_row_of_blocks_is_one_select(rt: HostRuntime) {
    let mut body = String::from_str(rt.alloc(), "BEGIN ").expect(&rt, "memory");
    for _ in 0..497 {
        body.push_str("a := 1; ").expect(&rt, "memory");
    }
    body.push_str("RETURN a; END").expect(&rt, "memory");
    let q = query(&rt, body.as_str());
    assert_eq!(rt; branch(&rt, &q, 0).from.len(), 499);
}
