//! The nodes of two functions, built as trees.

use crate::made::{arithmetic, boxed, comparison, named, one, simple, two, variable, whole};
use away_trees::{Arm, Decl, Expr, Function, LoopKind, Stmt, node_count, nodes, weight};
use away_values::{CmpOp, IntOp, Ty};
use sqlite_items::Items;
use std::process::Abort;

fn assignment(rt: &(impl Abort + AllocGlobal), text: &str, value: Expr) -> Stmt {
    Stmt::Assign(named(rt, text), None, value)
}

fn decl(rt: &(impl Abort + AllocGlobal), text: &str, default: Option<Expr>) -> Decl {
    Decl {
        name: named(rt, text),
        ty: Ty::Bigint,
        constant: false,
        not_null: false,
        default,
    }
}

/// n := n / 2
fn halved(rt: &(impl Abort + AllocGlobal)) -> Stmt {
    assignment(
        rt,
        "n",
        arithmetic(rt, IntOp::Div, variable(rt, "n"), Expr::Int(2)),
    )
}

/// n := 3 * n + 1
fn tripled(rt: &(impl Abort + AllocGlobal)) -> Stmt {
    let three_n = arithmetic(rt, IntOp::Mul, Expr::Int(3), variable(rt, "n"));
    assignment(rt, "n", arithmetic(rt, IntOp::Add, three_n, Expr::Int(1)))
}

fn is_even(rt: &(impl Abort + AllocGlobal)) -> Expr {
    let rest = arithmetic(rt, IntOp::Rem, variable(rt, "n"), Expr::Int(2));
    comparison(rt, CmpOp::Eq, rest, Expr::Int(0))
}

/// WHEN n is even: halved
fn even(rt: &(impl Abort + AllocGlobal)) -> Arm {
    let half = halved(rt);
    Arm {
        test: is_even(rt),
        body: one(rt, half),
    }
}

fn halved_or_tripled(rt: &(impl Abort + AllocGlobal)) -> Stmt {
    let arms = one(rt, even(rt));
    let other = one(rt, tripled(rt));
    Stmt::If(arms, Some(other))
}

fn steps_to_one(rt: &(impl Abort + AllocGlobal)) -> Stmt {
    let more = arithmetic(rt, IntOp::Add, variable(rt, "steps"), Expr::Int(1));
    let counted = assignment(rt, "steps", more);
    let test = comparison(rt, CmpOp::Ne, variable(rt, "n"), Expr::Int(1));
    Stmt::Loop {
        label: None,
        kind: LoopKind::While(test),
        body: two(rt, halved_or_tripled(rt), counted),
        closing: None,
    }
}

fn collatz(rt: &(impl Abort + AllocGlobal)) -> Function {
    let result = Stmt::Return(variable(rt, "steps"));
    Function {
        name: named(rt, "collatz"),
        strict: false,
        params: one(rt, (named(rt, "n"), Ty::Bigint)),
        result: Ty::Bigint,
        body: Stmt::Block {
            label: None,
            decls: one(rt, decl(rt, "steps", Some(Expr::Int(0)))),
            body: two(rt, steps_to_one(rt), result),
            closing: None,
        },
    }
}

/// best := (SELECT max(r.cost) FROM route r WHERE r.src = s)
fn dearest(rt: &(impl Abort + AllocGlobal)) -> Stmt {
    let cost = Expr::Dotted(named(rt, "r"), named(rt, "cost"));
    let most = Expr::Call(named(rt, "max"), one(rt, cost));
    let src = Expr::Dotted(named(rt, "r"), named(rt, "src"));
    let here = comparison(rt, CmpOp::Eq, src, variable(rt, "s"));
    let query = whole(rt, simple(rt, most, "route", "r", Some(here)));
    assignment(rt, "best", Expr::Scalar(boxed(rt, query)))
}

fn counted_to(rt: &(impl Abort + AllocGlobal), text: &str, last: i64, body: Items<Stmt>) -> Stmt {
    Stmt::Loop {
        label: None,
        kind: LoopKind::Count {
            var: named(rt, text),
            reverse: false,
            first: Expr::Int(0),
            last: Expr::Int(last),
            step: None,
        },
        body,
        closing: None,
    }
}

fn inner_loop(rt: &(impl Abort + AllocGlobal)) -> Stmt {
    let best = Expr::Call(
        named(rt, "coalesce"),
        two(rt, variable(rt, "best"), Expr::Int(0)),
    );
    let more = arithmetic(rt, IntOp::Add, variable(rt, "total"), best);
    let added = assignment(rt, "total", more);
    let enough = comparison(rt, CmpOp::Gt, variable(rt, "total"), variable(rt, "lim"));
    let exit = Stmt::Exit(Some(named(rt, "outer_loop")), Some(enough));
    counted_to(rt, "d", 9, two(rt, added, exit))
}

fn walk(rt: &(impl Abort + AllocGlobal)) -> Function {
    let outer_loop = counted_to(rt, "s", 99, two(rt, dearest(rt), inner_loop(rt)));
    let total = Stmt::Return(variable(rt, "total"));
    Function {
        name: named(rt, "walk"),
        strict: false,
        params: one(rt, (named(rt, "lim"), Ty::Bigint)),
        result: Ty::Bigint,
        body: Stmt::Block {
            label: None,
            decls: two(
                rt,
                decl(rt, "best", None),
                decl(rt, "total", Some(Expr::Int(0))),
            ),
            body: two(rt, outer_loop, total),
            closing: None,
        },
    }
}

/// The nodes and the weight.
fn counted(rt: &(impl Abort + AllocGlobal), f: &Function) -> (u64, u64) {
    match node_count(f) {
        Some(count) if count < 4_294_967_296 => (nodes(f), weight(f)),
        _ => rt.abort(),
    }
}

#[test]
fn nodes_and_weights(rt: HostRuntime) {
    assert_eq!(rt; counted(&rt, &collatz(&rt)), (11, 192));
    assert_eq!(rt; counted(&rt, &walk(&rt)), (10, 176));
}
