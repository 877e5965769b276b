//! A tree of each kind is copied where there is memory. That a copy equals its tree is proved.

use away_core::Copied;
use away_trees::{
    Arm, ColumnSchema, Decl, Expr, FromItem, Function, Item, Key, LoopKind, Query, Raised,
    Recursive, Schema, Select, Source, Stmt, TableSchema,
};
use away_values::{ChainOp, CmpOp, Name, Ty, Word, name, word};
use sqlite_items::{Boxed, Items};
use std::process::Abort;

fn named(rt: &(impl Abort + AllocGlobal), text: &str) -> Name {
    let made = name(rt.alloc(), text).expect(rt, "memory");
    made.expect(rt, "a name")
}

fn worded(rt: &(impl Abort + AllocGlobal), text: &str) -> Word {
    let made = word(rt.alloc(), text).expect(rt, "memory");
    made.expect(rt, "a word")
}

fn one<T: Drop>(rt: &(impl Abort + AllocGlobal), only: T) -> Items<T> {
    let mut all = Items::new(rt.alloc());
    all.push(only).expect(rt, "memory");
    all
}

fn x(rt: &(impl Abort + AllocGlobal)) -> Boxed<Expr> {
    Boxed::new(rt.alloc(), Expr::Named(named(rt, "x"))).expect(rt, "memory")
}

fn is_copied<T: Copied + Drop>(rt: &(impl Abort + AllocGlobal), tree: T) -> bool {
    tree.copy(rt.alloc()).is_ok()
}

fn key(rt: &(impl Abort + AllocGlobal)) -> Key {
    Key {
        expr: Expr::Str(worded(rt, "é")),
        descending: true,
    }
}

fn item(rt: &(impl Abort + AllocGlobal)) -> Item {
    Item {
        expr: Expr::Cases(one(rt, (Expr::Null, Expr::Slot(1))), Some(x(rt))),
        alias: Some(named(rt, "v")),
    }
}

fn from_item(rt: &(impl Abort + AllocGlobal)) -> FromItem {
    FromItem {
        source: Source::Table(named(rt, "t")),
        alias: named(rt, "u"),
        columns: one(rt, named(rt, "c")),
    }
}

fn select(rt: &(impl Abort + AllocGlobal)) -> Select {
    Select {
        list: one(rt, item(rt)),
        from: one(rt, from_item(rt)),
        filter: Some(Expr::Compare(CmpOp::Lt, x(rt), x(rt))),
        order: one(rt, key(rt)),
        limit: Some(Expr::Int(1)),
    }
}

fn query(rt: &(impl Abort + AllocGlobal)) -> Query {
    let recursive = Recursive {
        name: named(rt, "r"),
        columns: one(rt, named(rt, "c")),
        first: one(rt, select(rt)),
        second: select(rt),
    };
    Query {
        recursive: Some(recursive),
        selects: one(rt, select(rt)),
    }
}

#[test]
fn expressions(rt: HostRuntime) {
    assert!(rt; is_copied(&rt, Expr::Between(true, x(&rt), x(&rt), x(&rt))));
    assert!(rt; is_copied(&rt, Expr::OneOf(false, x(&rt), one(&rt, Expr::Bool(true)))));
    assert!(rt; is_copied(&rt, Expr::Call(named(&rt, "abs"), one(&rt, Expr::Int(-1)))));
}

#[test]
fn queries(rt: HostRuntime) {
    assert!(rt; is_copied(&rt, query(&rt)));
}

fn long_chain(rt: &(impl Abort + AllocGlobal)) -> Expr {
    let mut links = Items::new(rt.alloc());
    for i in 0..100_000_i64 {
        links.push((ChainOp::Or, Expr::Int(i))).expect(rt, "memory");
    }
    Expr::Chain(x(rt), links)
}

#[test]
fn a_long_chain(rt: HostRuntime) {
    assert!(rt; is_copied(&rt, long_chain(&rt)));
}

fn decl(rt: &(impl Abort + AllocGlobal)) -> Decl {
    Decl {
        name: named(rt, "v"),
        ty: Ty::Bigint,
        constant: true,
        not_null: false,
        default: Some(Expr::Int(0)),
    }
}

fn counted(rt: &(impl Abort + AllocGlobal), body: Items<Stmt>) -> Stmt {
    let kind = LoopKind::Count {
        var: named(rt, "i"),
        reverse: true,
        first: Expr::Int(1),
        last: Expr::Int(9),
        step: Some(Expr::Int(2)),
    };
    Stmt::Loop {
        label: Some(named(rt, "l")),
        kind,
        body,
        closing: None,
    }
}

fn choice(rt: &(impl Abort + AllocGlobal)) -> Stmt {
    let arm = Arm {
        test: Expr::Null,
        body: one(rt, Stmt::Raise(Raised::Message(worded(rt, "No!")))),
    };
    Stmt::If(one(rt, arm), Some(one(rt, Stmt::Return(Expr::Int(2)))))
}

fn into(rt: &(impl Abort + AllocGlobal)) -> Stmt {
    Stmt::Into {
        strict: true,
        targets: one(rt, (named(rt, "a"), Some(2))),
        query: select(rt),
    }
}

fn block(rt: &(impl Abort + AllocGlobal)) -> Stmt {
    Stmt::Block {
        label: None,
        decls: one(rt, decl(rt)),
        body: one(rt, counted(rt, one(rt, choice(rt)))),
        closing: Some(named(rt, "b")),
    }
}

fn function(rt: &(impl Abort + AllocGlobal)) -> Function {
    Function {
        name: named(rt, "f"),
        strict: true,
        params: one(rt, (named(rt, "p"), Ty::Text)),
        result: Ty::Boolean,
        body: block(rt),
    }
}

#[test]
fn functions(rt: HostRuntime) {
    assert!(rt; is_copied(&rt, function(&rt)));
    assert!(rt; is_copied(&rt, into(&rt)));
    assert!(rt; is_copied(&rt, Stmt::Assign(named(&rt, "v"), Some(4), Expr::Int(1))));
}

fn schema(rt: &(impl Abort + AllocGlobal)) -> Schema {
    let column = ColumnSchema {
        name: named(rt, "k"),
        ty: Ty::Bigint,
        not_null: true,
    };
    let table = TableSchema {
        name: named(rt, "t"),
        columns: one(rt, column),
    };
    Schema {
        tables: one(rt, table),
    }
}

#[test]
fn schemas(rt: HostRuntime) {
    assert!(rt; is_copied(&rt, schema(&rt)));
}
