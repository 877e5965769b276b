//! The tail forms of worked functions and forms, as rows of a table, and one of many blocks. A test that finds no memory stops.

use crate::built::{are_few, built};
use crate::edits::Edit;
use crate::forms::{EndOf, SetOf, block, ssa_block};
use crate::functions::{COLLATZ, SIGN_OF, function};
use anf_build::to_calls;
use away_values::Ty;
use block_forms::{Block, Goto, Ssa, SsaBlock};
use call_forms::Tail;
use sqlite_items::Items;
use ssa_check::check_named;
use std::fmt::Write;
use std::process::Abort;
use tail_rec::to_tail;

/// The columns, and each label with the places of its parameters.
fn shown(rt: &(impl Abort + AllocGlobal), r: &Tail) -> String {
    let mut out = String::new(rt.alloc());
    for column in r.columns.as_slice() {
        let letter = match column {
            Ty::Bigint => "b",
            Ty::Boolean => "o",
            Ty::Text => "t",
            Ty::Integer => "i",
        };
        out.push_str(letter).expect(rt, "memory");
    }
    for (label, places) in r.labels.as_slice().iter().zip(r.places.as_slice().iter()) {
        let text = format!(in rt.alloc(); " {label}(").expect(rt, "memory");
        out.push_str(text.as_str()).expect(rt, "memory");
        for place in places.as_slice() {
            let text = format!(in rt.alloc(); "{place},").expect(rt, "memory");
            out.push_str(text.as_str()).expect(rt, "memory");
        }
        out.push_str(")").expect(rt, "memory");
    }
    out
}

/// All blocks of the first are merged into the entry, and what nothing calls is no label. Those of the other are the entry, the head, and the block to
/// which two calls go.
#[test]
fn worked_functions(rt: HostRuntime) {
    for (params, body, wanted) in [
        ("a bigint", SIGN_OF, "b 0(0,)"),
        ("n bigint", COLLATZ, "bb 0(0,) 3(0,1,) 7(0,1,)"),
    ] {
        let f = function(&rt, params, "", body);
        let forms = built(&rt, f.get());
        assert_eq!(&rt; shown(&rt, &forms.tail).as_str(), wanted);
    }
}

/// The blocks of a goto form and of its SSA form, where each slot has the name of its own number.
#[derive(Drop)]
struct Pair {
    goto: Items<Block>,
    ssa: Items<SsaBlock>,
}

fn no_blocks(rt: &(impl Abort + AllocGlobal)) -> Pair {
    Pair {
        goto: Items::new(rt.alloc()),
        ssa: Items::new(rt.alloc()),
    }
}

/// One more block, whose map has these slots.
fn add(
    rt: &(impl Abort + AllocGlobal),
    pair: &mut Pair,
    head: bool,
    map: &[(u32, u32)],
    set: SetOf,
    end: EndOf,
) {
    let mut edit = Edit::none();
    let in_slots = block(rt, &mut edit, head, set, end);
    pair.goto.push(in_slots).expect(rt, "memory");
    let in_names = ssa_block(rt, &mut edit, map, None, set, end);
    pair.ssa.push(in_names).expect(rt, "memory");
}

/// The tail form of a pair over so many slots, which are those of the function.
fn tail(rt: &(impl Abort + AllocGlobal), params: &str, body: &str, slots: u32, pair: Pair) -> Tail {
    let f = function(rt, params, "", body);
    let mut names = Items::new(rt.alloc());
    for slot in 0..slots {
        names.push(slot).expect(rt, "memory");
    }
    let s = Ssa {
        names,
        blocks: pair.ssa,
    };
    let g = Goto {
        entry: 0,
        finish: 0,
        nodes: Items::new(rt.alloc()),
        blocks: pair.goto,
    };
    assert!(rt; check_named(f.get(), &g, &s));
    let a = to_calls(rt.alloc(), &g, &s).expect(rt, "memory");
    assert!(rt; are_few(a.blocks.as_slice()));
    to_tail(rt.alloc(), f.get(), &g, &s, &a).expect(rt, "memory")
}

/// Labels with several types: a label's parameters of one type take that type's columns in order.
#[test]
fn several_types(rt: HostRuntime) {
    let mut pair = no_blocks(&rt);
    let blocks: [(&[(u32, u32)], SetOf, EndOf); 4] = [
        (
            &[(0, 0), (1, 1), (2, 2), (3, 3)],
            Some((4, 0, &[1])),
            EndOf::Branch(1, &[0, 2], 1, 1),
        ),
        (
            &[(1, 1), (3, 3), (4, 4)],
            Some((5, 2, &[1, 3, 4])),
            EndOf::Jump(2),
        ),
        (&[(5, 5)], None, EndOf::Branch(3, &[5], 2, 3)),
        (&[], None, EndOf::Return(4, &[])),
    ];
    for (map, set, end) in blocks {
        add(&rt, &mut pair, false, map, set, end);
    }
    let params = "a bigint, b text, c boolean, d bigint";
    let r = tail(&rt, params, "DECLARE e text; i integer; BEGIN END", 6, pair);
    assert_eq!(&rt;
        shown(&rt, &r).as_str(),
        "bbotti 0(0,3,2,1,) 1(3,0,4,) 2(5,)"
    );
}

/// Loops that nothing reaches: with a head, which is a label; without one, where each block has one call, no label.
#[test]
fn unreachable_loops(rt: HostRuntime) {
    let mut pair = no_blocks(&rt);
    for (head, end) in [
        (false, EndOf::Return(0, &[])),
        (true, EndOf::Jump(2)),
        (false, EndOf::Branch(0, &[], 1, 3)),
        (false, EndOf::Return(0, &[])),
        (false, EndOf::Jump(5)),
        (false, EndOf::Branch(0, &[], 6, 4)),
        (false, EndOf::Return(0, &[])),
    ] {
        add(&rt, &mut pair, head, &[], None, end);
    }
    let r = tail(&rt, "", "BEGIN END", 0, pair);
    assert_eq!(&rt; shown(&rt, &r).as_str(), " 0() 1()");
}

/// Forty tests, each in an arm of the one before: both arms of the sixteenth are labels, and both of the thirty-second.
#[test]
fn nested_tests(rt: HostRuntime) {
    let mut pair = no_blocks(&rt);
    for test in 0..40u32 {
        let end = EndOf::Branch(0, &[], 41 + test, test + 1);
        add(&rt, &mut pair, false, &[], None, end);
    }
    for _end in 0..41u32 {
        add(&rt, &mut pair, false, &[], None, EndOf::Return(0, &[]));
    }
    let r = tail(&rt, "", "BEGIN END", 0, pair);
    assert_eq!(&rt; shown(&rt, &r).as_str(), " 0() 56() 16() 72() 32()");
}

/// 20,000 blocks in a row, of which every thousandth is a head, and one more that they lead to. It returns what the last of them sets.
#[test]
fn many_blocks(rt: HostRuntime) {
    let mut pair = no_blocks(&rt);
    for block in 0..19_999u32 {
        add(
            &rt,
            &mut pair,
            block % 1_000 == 0,
            &[],
            None,
            EndOf::Jump(block + 1),
        );
    }
    add(
        &rt,
        &mut pair,
        false,
        &[],
        Some((0, 0, &[])),
        EndOf::Jump(20_000),
    );
    add(
        &rt,
        &mut pair,
        false,
        &[(0, 0)],
        None,
        EndOf::Return(1, &[0]),
    );
    let r = tail(&rt, "", "DECLARE v bigint; BEGIN END", 1, pair);
    assert!(&rt; r.labels.len() == 20);
    assert!(&rt; r.columns.len() == 0);
}
