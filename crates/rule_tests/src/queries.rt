//! Schemas and queries that are checked.

use away_trees::{
    ColumnSchema, Expr, FromItem, Item, Query, Recursive, Schema, Select, Source, TableSchema,
};
use away_types::{CheckedSchema, RuleRefusal, check_query, check_rows, check_schema};
use away_values::{ChainOp, CmpOp, IntOp, Name, Ty, name};
use itoa::Buffer;
use sqlite_items::{Boxed, Items};
use std::process::Abort;

fn named(rt: &(impl Abort + AllocGlobal), text: &str) -> Name {
    match name(rt.alloc(), text) {
        Ok(Some(n)) => n,
        _ => rt.abort(),
    }
}

fn boxed<T: Drop>(rt: &(impl Abort + AllocGlobal), x: T) -> Boxed<T> {
    match Boxed::new(rt.alloc(), x) {
        Ok(b) => b,
        Err(_) => rt.abort(),
    }
}

fn push<T: Drop>(rt: &(impl Abort + AllocGlobal), list: &mut Items<T>, x: T) {
    if list.push(x).is_err() {
        rt.abort();
    }
}

fn one<T: Drop>(rt: &(impl Abort + AllocGlobal), x: T) -> Items<T> {
    let mut list = Items::new(rt.alloc());
    push(rt, &mut list, x);
    list
}

fn two<T: Drop>(rt: &(impl Abort + AllocGlobal), x: T, y: T) -> Items<T> {
    let mut list = one(rt, x);
    push(rt, &mut list, y);
    list
}

fn column(rt: &(impl Abort + AllocGlobal), text: &str) -> Expr {
    Expr::Named(named(rt, text))
}

/// `a + b`, `b` once for each.
fn sums(rt: &(impl Abort + AllocGlobal), first: Expr, times: usize) -> Expr {
    let mut links = Items::new(rt.alloc());
    for _ in 0..times {
        push(rt, &mut links, (ChainOp::Int(IntOp::Add), Expr::Int(1)));
    }
    Expr::Chain(boxed(rt, first), links)
}

fn item(expr: Expr) -> Item {
    Item { expr, alias: None }
}

fn table(rt: &(impl Abort + AllocGlobal), text: &str) -> FromItem {
    FromItem {
        source: Source::Table(named(rt, text)),
        alias: named(rt, text),
        columns: Items::new(rt.alloc()),
    }
}

fn select(
    rt: &(impl Abort + AllocGlobal),
    list: Items<Item>,
    from: Items<FromItem>,
    filter: Option<Expr>,
) -> Select {
    Select {
        list,
        from,
        filter,
        order: Items::new(rt.alloc()),
        limit: None,
    }
}

/// The name of a table by its number.
fn numbered(rt: &(impl Abort + AllocGlobal), number: usize) -> Name {
    let mut buffer = Buffer::new();
    named(rt, buffer.format(number))
}

/// That many tables with a column k, and then one of this name.
fn tables(rt: &(impl Abort + AllocGlobal), number: usize, last: Name) -> Schema {
    let mut list = Items::new(rt.alloc());
    for i in 0..number {
        let columns = one(
            rt,
            ColumnSchema {
                name: named(rt, "k"),
                ty: Ty::Bigint,
                not_null: false,
            },
        );
        push(
            rt,
            &mut list,
            TableSchema {
                name: numbered(rt, i),
                columns,
            },
        );
    }
    push(
        rt,
        &mut list,
        TableSchema {
            name: last,
            columns: Items::new(rt.alloc()),
        },
    );
    Schema { tables: list }
}

fn checked(rt: &(impl Abort + AllocGlobal), s: Schema) -> Result<CheckedSchema, u8> {
    match check_schema(rt.alloc(), s) {
        Ok(schema) => Ok(schema),
        Err(RuleRefusal::Broken(rule)) => Err(rule.number()),
        Err(RuleRefusal::NoMemory) => rt.abort(),
    }
}

/// The number of parameters of the checked query, or the rule that it breaks.
fn params_or_rule(
    rt: &(impl Abort + AllocGlobal),
    s: &CheckedSchema,
    q: Query,
) -> Result<usize, u8> {
    match check_query(rt.alloc(), s, q) {
        Ok(query) => Ok(query.params.len()),
        Err(RuleRefusal::Broken(rule)) => Err(rule.number()),
        Err(RuleRefusal::NoMemory) => rt.abort(),
    }
}

/// The types of the columns of the checked query, or the rule that it breaks.
fn columns_or_rule(
    rt: &(impl Abort + AllocGlobal),
    s: &CheckedSchema,
    q: Query,
) -> Result<Items<Ty>, u8> {
    match check_rows(rt.alloc(), s, q) {
        Ok(query) => Ok(query.columns),
        Err(RuleRefusal::Broken(rule)) => Err(rule.number()),
        Err(RuleRefusal::NoMemory) => rt.abort(),
    }
}

/// A query of this list alone.
fn listing(rt: &(impl Abort + AllocGlobal), list: Items<Item>) -> Query {
    Query {
        recursive: None,
        selects: one(rt, select(rt, list, Items::new(rt.alloc()), None)),
    }
}

#[test]
fn names_of_many_tables_are_found(rt: HostRuntime) {
    assert!(rt; checked(&rt, tables(&rt, 10_000, numbered(&rt, 5_000))).err() == Some(6));
    match checked(&rt, tables(&rt, 10_000, named(&rt, "t"))) {
        Err(_) => rt.abort(),
        Ok(schema) => {
            let mut from = Items::new(rt.alloc());
            for i in 9_000..9_100 {
                let mut number = Buffer::new();
                push(&rt, &mut from, table(&rt, number.format(i)));
            }
            let list = two(&rt, item(Expr::CountRows), item(Expr::Null));
            let q = Query {
                recursive: None,
                selects: one(&rt, select(&rt, list, from, None)),
            };
            assert!(rt; params_or_rule(&rt, &schema, q) == Ok(0));
        }
    }
}

#[test]
fn a_recursive_query_is_checked(rt: HostRuntime) {
    let below = Expr::Compare(
        CmpOp::Lt,
        boxed(&rt, column(&rt, "i")),
        boxed(&rt, Expr::Param(2, Ty::Bigint)),
    );
    let first = select(
        &rt,
        one(&rt, item(Expr::Param(1, Ty::Bigint))),
        Items::new(rt.alloc()),
        None,
    );
    let second = select(
        &rt,
        one(&rt, item(sums(&rt, column(&rt, "i"), 1))),
        one(&rt, table(&rt, "r")),
        Some(below),
    );
    let sum = Expr::Cast(
        boxed(
            &rt,
            Expr::Call(named(&rt, "sum"), one(&rt, column(&rt, "i"))),
        ),
        Ty::Bigint,
    );
    let last = select(
        &rt,
        two(&rt, item(sum), item(Expr::Null)),
        one(&rt, table(&rt, "r")),
        None,
    );
    let q = Query {
        recursive: Some(Recursive {
            name: named(&rt, "r"),
            columns: one(&rt, named(&rt, "i")),
            first: one(&rt, first),
            second,
        }),
        selects: one(&rt, last),
    };
    match checked(&rt, tables(&rt, 2, named(&rt, "t"))) {
        Err(_) => rt.abort(),
        Ok(schema) => assert!(rt; params_or_rule(&rt, &schema, q) == Ok(2)),
    }
}

#[test]
fn a_long_expression_is_checked(rt: HostRuntime) {
    let long = sums(&rt, Expr::Int(0), 100_000);
    let q = Query {
        recursive: None,
        selects: one(
            &rt,
            select(
                &rt,
                two(&rt, item(long), item(Expr::Null)),
                Items::new(rt.alloc()),
                None,
            ),
        ),
    };
    match checked(&rt, tables(&rt, 0, named(&rt, "t"))) {
        Err(_) => rt.abort(),
        Ok(schema) => assert!(rt; params_or_rule(&rt, &schema, q) == Ok(0)),
    }
}

#[test]
fn a_query_of_one_column_is_refused(rt: HostRuntime) {
    let q = Query {
        recursive: None,
        selects: one(
            &rt,
            select(
                &rt,
                one(&rt, item(Expr::Int(1))),
                Items::new(rt.alloc()),
                None,
            ),
        ),
    };
    match checked(&rt, tables(&rt, 0, named(&rt, "t"))) {
        Err(_) => rt.abort(),
        Ok(schema) => assert!(rt; params_or_rule(&rt, &schema, q) == Err(18)),
    }
}

#[test]
fn all_columns_of_a_query_are_told(rt: HostRuntime) {
    let schema = match checked(&rt, tables(&rt, 0, named(&rt, "t"))) {
        Err(_) => rt.abort(),
        Ok(schema) => schema,
    };
    let number = columns_or_rule(&rt, &schema, listing(&rt, one(&rt, item(Expr::Int(1)))));
    match number {
        Ok(columns) => assert!(rt; columns.as_slice() == [Ty::Integer].as_slice()),
        Err(_) => rt.abort(),
    }
    let pair = two(&rt, item(Expr::Bool(true)), item(Expr::Null));
    match columns_or_rule(&rt, &schema, listing(&rt, pair)) {
        Ok(columns) => assert!(rt; columns.as_slice() == [Ty::Boolean, Ty::Text].as_slice()),
        Err(_) => rt.abort(),
    }
    let unknown = listing(&rt, one(&rt, item(column(&rt, "k"))));
    assert!(rt; columns_or_rule(&rt, &schema, unknown).err() == Some(7));
}
