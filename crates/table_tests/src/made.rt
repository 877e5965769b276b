//! Parts of trees for tests. A test that finds no memory stops.

use away_trees::{Expr, FromItem, Item, Query, Select, Source};
use away_values::{ChainOp, CmpOp, IntOp, Name, Word, name, word};
use sqlite_items::{Boxed, Items};
use std::process::Abort;

pub(crate) fn named(rt: &(impl Abort + AllocGlobal), text: &str) -> Name {
    let made = name(rt.alloc(), text).expect(rt, "memory");
    made.expect(rt, "a name")
}

pub(crate) fn worded(rt: &(impl Abort + AllocGlobal), text: &str) -> Word {
    let made = word(rt.alloc(), text).expect(rt, "memory");
    made.expect(rt, "a word")
}

pub(crate) fn variable(rt: &(impl Abort + AllocGlobal), text: &str) -> Expr {
    Expr::Named(named(rt, text))
}

pub(crate) fn one<T: Drop>(rt: &(impl Abort + AllocGlobal), only: T) -> Items<T> {
    let mut all = Items::new(rt.alloc());
    all.push(only).expect(rt, "memory");
    all
}

pub(crate) fn two<T: Drop>(rt: &(impl Abort + AllocGlobal), first: T, second: T) -> Items<T> {
    let mut all = Items::new(rt.alloc());
    all.push(first).expect(rt, "memory");
    all.push(second).expect(rt, "memory");
    all
}

pub(crate) fn boxed<T: Drop>(rt: &(impl Abort + AllocGlobal), value: T) -> Boxed<T> {
    Boxed::new(rt.alloc(), value).expect(rt, "memory")
}

/// Arithmetic on two expressions.
pub(crate) fn arithmetic(
    rt: &(impl Abort + AllocGlobal),
    op: IntOp,
    left: Expr,
    right: Expr,
) -> Expr {
    Expr::Chain(boxed(rt, left), one(rt, (ChainOp::Int(op), right)))
}

pub(crate) fn comparison(
    rt: &(impl Abort + AllocGlobal),
    op: CmpOp,
    left: Expr,
    right: Expr,
) -> Expr {
    Expr::Compare(op, boxed(rt, left), boxed(rt, right))
}

/// SELECT of the expression FROM the table under an alias.
pub(crate) fn simple(
    rt: &(impl Abort + AllocGlobal),
    expr: Expr,
    table: &str,
    alias: &str,
    filter: Option<Expr>,
) -> Select {
    let from = FromItem {
        source: Source::Table(named(rt, table)),
        alias: named(rt, alias),
        columns: Items::new(rt.alloc()),
    };
    Select {
        list: one(rt, Item { expr, alias: None }),
        from: one(rt, from),
        filter,
        order: Items::new(rt.alloc()),
        limit: None,
    }
}

pub(crate) fn whole(rt: &(impl Abort + AllocGlobal), select: Select) -> Query {
    Query {
        recursive: None,
        selects: one(rt, select),
    }
}
