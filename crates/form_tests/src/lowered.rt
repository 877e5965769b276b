//! Forms of small functions, written out in words: `*` marks a head, `s2=#4(0,1)` sets slot 2 to expression 4 of slots 0 and 1, `>5` goes to block 5,
//! `?#0(0)>2:3` branches, `=#1()` returns and `!22004` fails. A test that finds no memory stops.

use crate::functions::function;
use away_values::Class;
use block_forms::{Block, End, Goto, Term};
use goto_check::check_lowered;
use goto_lower::lower;
use sqlite_items::Items;
use std::fmt::Write;
use std::process::Abort;

/// Parameters, attributes and bodies, and the forms that they have.
const ROWS: [(&str, &str, &str, &str); 8] = [
    (
        "a bigint",
        "",
        "BEGIN IF a > 0 THEN RETURN 1; END IF; RETURN 2; END",
        ">2 !2F005 ?#0(0)>3:4 =#1() =#2() | 2 2 2 2 3 4",
    ),
    (
        "a bigint",
        "",
        "DECLARE n bigint := a; steps bigint NOT NULL := 0; BEGIN WHILE n > 0 LOOP IF n > 0 THEN n := n; ELSE n := n; END IF; \
        steps := steps; END LOOP; RETURN steps; END",
        ">2 !2F005 s1=#0(0)>3 s2=#1()>4 ?#11(2)>5:6 !22004 *?#2(1)>7:13 ?#3(1)>8:9 \
        s1=#4(1)>10 s1=#5(1)>10 s2=#6(2)>11 ?#11(2)>12:6 !22004 =#7(2) | 2 2 2 3 6 7 7 8 9 9 10 13",
    ),
    (
        "a bigint",
        "",
        "BEGIN FOR i IN REVERSE a .. 1 BY 2 LOOP a := i; END LOOP; RETURN 0; END",
        ">2 !2F005 s2=#0(0)>3 ?#21(2)>4:5 !22004 s3=#1()>6 ?#21(3)>7:8 !22004 s4=#2()>9 ?#21(4)>10:11 !22004 ?#11(4)>12:13 !22023 \
        *?#13(2,3)>14:18 s1=#19(2)>17 ?#15(4,2)>18:16 s2=#17(2,4)>13 s0=#3(1)>15 =#4() | 2 2 2 17 18",
    ),
    (
        "",
        "",
        "BEGIN <<a>> LOOP <<b>> LOOP <<c>> LOOP EXIT a; CONTINUE b; END LOOP; END LOOP; END LOOP; RETURN 1; END",
        ">2 !2F005 *>3 *>4 *>5 >7 >3 =#0() | 2 2 3 4 5 6 7",
    ),
    (
        "a bigint",
        "",
        "BEGIN IF a > 0 THEN NULL; ELSE END IF; RETURN 0; END",
        ">2 !2F005 ?#0(0)>3:4 >4 =#1() | 2 2 2 2 3 4 4",
    ),
    (
        "a bigint, b bigint",
        "STRICT",
        "BEGIN RETURN 1; END",
        ">2 !2F005 ?#4(0)>3:4 =#1() ?#4(1)>5:6 =#1() =#0() | 2 4 6 6",
    ),
    (
        "a bigint",
        "",
        "BEGIN CASE WHEN a > 0 THEN RAISE EXCEPTION 'x'; END CASE; END",
        ">2 !2F005 ?#0(0)>3:4 !P0001 !20000 | 2 2 2 2 3",
    ),
    (
        "a bigint",
        "",
        "DECLARE r bigint NOT NULL := 0; BEGIN SELECT a, 1 INTO STRICT r, a; RETURN r; END",
        ">2 !2F005 s1=#0()>3 ?#9(1)>4:5 !22004 ?#1(0)>6:7 !P0002 ?#2(0)>8:9 !P0003 s2=#3(0)>10 s3=#4(0)>11 \
        s1=#20(2)>12 ?#9(1)>13:14 !22004 s0=#20(3)>15 =#5(1) | 2 2 2 5 9 10 15",
    ),
];

fn write_term(rt: &(impl Abort + AllocGlobal), out: &mut String, t: &Term) {
    write!(out, "#{}(", t.expr).expect(rt, "memory");
    for i in 0..t.names.len() {
        if i > 0 {
            out.push(',').expect(rt, "memory");
        }
        write!(out, "{}", t.names.as_slice()[i]).expect(rt, "memory");
    }
    out.push(')').expect(rt, "memory");
}

fn write_block(rt: &(impl Abort + AllocGlobal), out: &mut String, x: &Block) {
    if x.head {
        out.push('*').expect(rt, "memory");
    }
    if let Some(set) = &x.set {
        write!(out, "s{}=", set.0).expect(rt, "memory");
        write_term(rt, out, &set.1);
    }
    match &x.end {
        End::Jump(b) => write!(out, ">{b}").expect(rt, "memory"),
        End::Branch(t, y, n) => {
            out.push('?').expect(rt, "memory");
            write_term(rt, out, t);
            write!(out, ">{y}:{n}").expect(rt, "memory");
        }
        End::Return(t) => {
            out.push('=').expect(rt, "memory");
            write_term(rt, out, t);
        }
        End::Fail(class) => {
            out.push('!').expect(rt, "memory");
            for byte in class.code {
                out.push(byte as char).expect(rt, "memory");
            }
        }
    }
}

/// The blocks in a row, and behind them the first block of each node.
fn told(rt: &(impl Abort + AllocGlobal), g: &Goto) -> String {
    let mut out = String::new(rt.alloc());
    for i in 0..g.blocks.len() {
        write_block(rt, &mut out, &g.blocks.as_slice()[i]);
        out.push(' ').expect(rt, "memory");
    }
    out.push('|').expect(rt, "memory");
    for i in 0..g.nodes.len() {
        write!(&mut out, " {}", g.nodes.as_slice()[i]).expect(rt, "memory");
    }
    out
}

/// The form of the function with these parameters, attributes and body.
fn form(rt: &(impl Abort + AllocGlobal), params: &str, attributes: &str, body: &str) -> Goto {
    let function = function(rt, params, attributes, body);
    lower(rt.alloc(), function.get()).expect(rt, "memory")
}

#[test]
fn functions_and_their_forms(rt: HostRuntime) {
    for (params, attributes, body, wanted) in ROWS {
        let shown = told(&rt, &form(&rt, params, attributes, body));
        assert_eq!(&rt; (body, shown.as_str()), (body, wanted));
    }
}

/// A block with 499 statements.
#[test]
fn a_function_of_500_nodes_is_lowered(rt: HostRuntime) {
    let mut body = String::from_str(rt.alloc(), "BEGIN ").expect(&rt, "memory");
    for _ in 0..499 {
        body.push_str("NULL; ").expect(&rt, "memory");
    }
    body.push_str("END").expect(&rt, "memory");
    let found = form(&rt, "", "", body.as_str());
    assert_eq!(&rt; found.nodes.len(), 500);
    assert_eq!(&rt; found.blocks.len(), 501);
}

fn jump(head: bool, to: u32) -> Block {
    Block {
        head,
        set: None,
        end: End::Jump(to),
    }
}

/// A loop in a loop with two statements, whose second one has the entry as its block.
fn with_shared_entry(rt: &(impl Abort + AllocGlobal)) -> Goto {
    let no_return = Block {
        head: false,
        set: None,
        end: End::Fail(Class { code: *b"2F005" }),
    };
    let mut blocks = Items::new(rt.alloc());
    blocks.push(jump(false, 2)).expect(rt, "memory");
    blocks.push(no_return).expect(rt, "memory");
    blocks.push(jump(true, 3)).expect(rt, "memory");
    blocks.push(jump(true, 4)).expect(rt, "memory");
    blocks.push(jump(false, 3)).expect(rt, "memory");
    let mut nodes = Items::new(rt.alloc());
    for node in [2, 2, 3, 4, 0] {
        nodes.push(node).expect(rt, "memory");
    }
    Goto {
        entry: 0,
        finish: 1,
        nodes,
        blocks,
    }
}

/// A CONTINUE that nothing reaches may have the entry as its block, and no EXIT.
#[test]
fn no_exit_has_the_entry(rt: HostRuntime) {
    let g = with_shared_entry(&rt);
    let goes_on = "BEGIN <<a>> LOOP LOOP CONTINUE; CONTINUE a; END LOOP; END LOOP; END";
    assert!(&rt; check_lowered(function(&rt, "", "", goes_on).get(), &g));
    let leaves = "BEGIN LOOP LOOP CONTINUE; EXIT; END LOOP; END LOOP; END";
    assert!(&rt; !check_lowered(function(&rt, "", "", leaves).get(), &g));
}
