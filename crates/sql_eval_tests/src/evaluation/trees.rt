//! Small resolved trees for tests. A test that finds no memory stops.

use away_trees::{Col, Expr, FromItem, Item, Key, Query, Recursive, Select, Source};
use away_values::{ChainOp, CmpOp, IntOp, Name, Table, Tables, Value, name, word};
use sqlite_items::{Boxed, Items};
use std::process::Abort;

/// A value as a test writes it.
#[derive(Clone, Copy)]
pub(crate) enum Given {
    Null,
    Int(i64),
    Bool(bool),
    Text(&'static str),
}

pub(crate) fn named(rt: &(impl Abort + AllocGlobal), text: &str) -> Name {
    let made = name(rt.alloc(), text).expect(rt, "memory");
    made.expect(rt, "a name")
}

pub(crate) fn value(rt: &(impl Abort + AllocGlobal), given: Given) -> Value {
    match given {
        Given::Null => Value::Null,
        Given::Int(n) => Value::Int(n),
        Given::Bool(b) => Value::Bool(b),
        Given::Text(t) => {
            let made = word(rt.alloc(), t).expect(rt, "memory");
            Value::Text(made.expect(rt, "a text"))
        }
    }
}

pub(crate) fn literal(rt: &(impl Abort + AllocGlobal), given: Given) -> Expr {
    match value(rt, given) {
        Value::Null => Expr::Null,
        Value::Int(n) => Expr::Int(n),
        Value::Bool(b) => Expr::Bool(b),
        Value::Text(t) => Expr::Str(t),
    }
}

pub(crate) fn none<T>(rt: &(impl Abort + AllocGlobal)) -> Items<T> {
    Items::new(rt.alloc())
}

pub(crate) fn one<T: Drop>(rt: &(impl Abort + AllocGlobal), only: T) -> Items<T> {
    with(rt, Items::new(rt.alloc()), only)
}

/// The list, and one more.
pub(crate) fn with<T: Drop>(rt: &(impl Abort + AllocGlobal), list: Items<T>, last: T) -> Items<T> {
    let mut list = list;
    list.push(last).expect(rt, "memory");
    list
}

pub(crate) fn boxed<T: Drop>(rt: &(impl Abort + AllocGlobal), value: T) -> Boxed<T> {
    Boxed::new(rt.alloc(), value).expect(rt, "memory")
}

pub(crate) fn arithmetic(
    rt: &(impl Abort + AllocGlobal),
    op: IntOp,
    left: Expr,
    right: Expr,
) -> Expr {
    Expr::Chain(boxed(rt, left), one(rt, (ChainOp::Int(op), right)))
}

pub(crate) fn comparison(
    rt: &(impl Abort + AllocGlobal),
    op: CmpOp,
    left: Expr,
    right: Expr,
) -> Expr {
    Expr::Compare(op, boxed(rt, left), boxed(rt, right))
}

pub(crate) fn call(rt: &(impl Abort + AllocGlobal), text: &str, arg: Expr) -> Expr {
    Expr::Call(named(rt, text), one(rt, arg))
}

/// The first column of an item of the select itself.
pub(crate) fn column(item: u32) -> Expr {
    outer_column(0, item)
}

pub(crate) fn outer_column(level: u32, item: u32) -> Expr {
    Expr::Column(Col {
        level,
        item,
        column: 0,
    })
}

pub(crate) fn item(expr: Expr) -> Item {
    Item { expr, alias: None }
}

/// The table at a place.
pub(crate) fn table(rt: &(impl Abort + AllocGlobal), place: &str) -> FromItem {
    FromItem {
        source: Source::Table(named(rt, "t")),
        alias: named(rt, "t"),
        columns: one(rt, named(rt, place)),
    }
}

pub(crate) fn lateral(rt: &(impl Abort + AllocGlobal), query: Query) -> FromItem {
    FromItem {
        source: Source::Sub(boxed(rt, query), true),
        alias: named(rt, "s"),
        columns: one(rt, named(rt, "a")),
    }
}

pub(crate) fn select(
    rt: &(impl Abort + AllocGlobal),
    list: Items<Item>,
    from: Items<FromItem>,
) -> Select {
    Select {
        list,
        from,
        filter: None,
        order: Items::new(rt.alloc()),
        limit: None,
    }
}

/// A select of an expression and NULL, which is what an answer is read from.
pub(crate) fn answering(
    rt: &(impl Abort + AllocGlobal),
    expr: Expr,
    from: Items<FromItem>,
) -> Select {
    let list = with(rt, one(rt, item(expr)), item(Expr::Null));
    select(rt, list, from)
}

pub(crate) fn key(expr: Expr, descending: bool) -> Key {
    Key { expr, descending }
}

pub(crate) fn query(rt: &(impl Abort + AllocGlobal), select: Select) -> Query {
    Query {
        recursive: None,
        selects: one(rt, select),
    }
}

/// A table of one column.
pub(crate) fn filled(rt: &(impl Abort + AllocGlobal), column: &[Given]) -> Table {
    let mut rows = Items::new(rt.alloc());
    for given in column {
        let row = one(rt, value(rt, *given));
        rows.push(row).expect(rt, "memory");
    }
    Table { rows }
}

pub(crate) fn tables(rt: &(impl Abort + AllocGlobal), column: &[Given]) -> Tables {
    Tables {
        list: one(rt, filled(rt, column)),
    }
}

/// WITH RECURSIVE r(n) AS (SELECT 1 UNION ALL SELECT next FROM r [WHERE filter]), and a select, over a schema of one table.
pub(crate) fn recursive(
    rt: &(impl Abort + AllocGlobal),
    next: Expr,
    filter: Option<Expr>,
    last: Select,
) -> Query {
    let mut second = select(rt, one(rt, item(next)), one(rt, table(rt, "1")));
    second.filter = filter;
    let recursive = Recursive {
        name: named(rt, "r"),
        columns: one(rt, named(rt, "n")),
        first: one(rt, select(rt, one(rt, item(Expr::Int(1))), none(rt))),
        second,
    };
    Query {
        recursive: Some(recursive),
        selects: one(rt, last),
    }
}

/// WITH RECURSIVE r(n) AS (SELECT 1 UNION ALL SELECT r.n + 1 FROM r WHERE r.n < last), and a select.
pub(crate) fn up_to(rt: &(impl Abort + AllocGlobal), last: i64, s: Select) -> Query {
    let next = arithmetic(rt, IntOp::Add, column(0), Expr::Int(1));
    let filter = comparison(rt, CmpOp::Lt, column(0), Expr::Int(last));
    recursive(rt, next, Some(filter), s)
}

/// The same, and SELECT count(*), NULL FROM r.
pub(crate) fn counting(rt: &(impl Abort + AllocGlobal), last: i64) -> Query {
    let s = answering(rt, Expr::CountRows, one(rt, table(rt, "1")));
    up_to(rt, last, s)
}

/// SELECT e, NULL FROM r WHERE filter
pub(crate) fn filtered(rt: &(impl Abort + AllocGlobal), e: Expr, filter: Expr) -> Select {
    let mut s = answering(rt, e, one(rt, table(rt, "1")));
    s.filter = Some(filter);
    s
}
