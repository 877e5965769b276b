//! The normal forms of worked SSA forms, and of one with many blocks. A test that finds no memory stops.

use crate::functions::function;
use crate::ssa_forms::{block, fails, goto_of, joins, phi, sets, shown, term};
use anf_build::to_calls;
use away_types::CheckedFunction;
use block_forms::{End, Ssa, SsaBlock};
use call_forms::Anf;
use sqlite_items::{Boxed, Items};
use ssa_check::check_named;
use std::fmt::Write;
use std::process::Abort;

fn ssa(rt: &(impl Abort + AllocGlobal), slots: &[u32], blocks: Items<SsaBlock>) -> Ssa {
    Ssa {
        names: Items::from_slice(rt.alloc(), slots).expect(rt, "memory"),
        blocks,
    }
}

/// The normal form of an SSA form over the slots of the function.
fn normal(rt: &(impl Abort + AllocGlobal), f: &CheckedFunction, z: &Ssa) -> Anf {
    let g = goto_of(rt, z);
    assert!(rt; check_named(f, &g, z));
    to_calls(rt.alloc(), &g, z).expect(rt, "memory")
}

/// sign_of(a): IF a > 0: RETURN 1; RETURN 2.
fn sign_of(rt: &(impl Abort + AllocGlobal)) -> Ssa {
    let mut blocks = Items::new(rt.alloc());
    for y in [
        block(rt, &[(0, 0)], End::Jump(1)),
        block(rt, &[(0, 0)], End::Branch(term(rt, &[0]), 2, 3)),
        block(rt, &[(0, 0)], End::Return(term(rt, &[]))),
        block(rt, &[], End::Return(term(rt, &[]))),
        fails(rt, &[]),
    ] {
        blocks.push(y).expect(rt, "memory");
    }
    ssa(rt, &[0], blocks)
}

/// collatz(n): steps := 0; WHILE n <> 1: IF n % 2 = 0: n := n / 2, ELSE n := 3 * n + 1; steps := steps + 1; RETURN steps.
fn collatz(rt: &(impl Abort + AllocGlobal)) -> Ssa {
    let both = [(0, 2), (1, 3)];
    let head = block(rt, &both, End::Branch(term(rt, &[2]), 4, 8));
    let head = joins(rt, head, phi(rt, 2, &[(2, 0), (7, 6)]));
    let head = joins(rt, head, phi(rt, 3, &[(2, 1), (7, 7)]));
    let met = sets(rt, &[(0, 6), (1, 3)], 7, &[3], 3);
    let met = joins(rt, met, phi(rt, 6, &[(5, 4), (6, 5)]));
    let mut blocks = Items::new(rt.alloc());
    for y in [
        block(rt, &[(0, 0)], End::Jump(2)),
        fails(rt, &[]),
        sets(rt, &[(0, 0)], 1, &[], 3),
        head,
        block(rt, &both, End::Branch(term(rt, &[2]), 5, 6)),
        sets(rt, &both, 4, &[2], 7),
        sets(rt, &both, 5, &[2], 7),
        met,
        block(rt, &both, End::Return(term(rt, &[3]))),
    ] {
        blocks.push(y).expect(rt, "memory");
    }
    ssa(rt, &[0, 1, 0, 1, 0, 0, 0, 1], blocks)
}

/// A loop that nothing reaches, and that leads to what is reached.
fn unreachable_loop(rt: &(impl Abort + AllocGlobal)) -> Ssa {
    let mut blocks = Items::new(rt.alloc());
    for y in [
        block(rt, &[(0, 0)], End::Jump(1)),
        block(rt, &[(0, 0)], End::Return(term(rt, &[0]))),
        block(rt, &[(0, 0), (1, 1)], End::Branch(term(rt, &[1]), 3, 1)),
        sets(rt, &[(0, 0), (1, 1)], 1, &[1], 2),
    ] {
        blocks.push(y).expect(rt, "memory");
    }
    ssa(rt, &[0, 1], blocks)
}

/// A loop that never ends: it passes a parameter on that nothing reads, and sets what its test reads.
fn endless_loop(rt: &(impl Abort + AllocGlobal)) -> Ssa {
    let mut blocks = Items::new(rt.alloc());
    for y in [
        block(rt, &[(0, 0), (1, 1)], End::Jump(1)),
        sets(rt, &[(0, 0)], 2, &[], 2),
        block(rt, &[(0, 0), (1, 2)], End::Branch(term(rt, &[2]), 1, 1)),
    ] {
        blocks.push(y).expect(rt, "memory");
    }
    ssa(rt, &[0, 1, 1], blocks)
}

/// One block, which fails.
fn one_block(rt: &(impl Abort + AllocGlobal)) -> Ssa {
    let mut blocks = Items::new(rt.alloc());
    blocks.push(fails(rt, &[])).expect(rt, "memory");
    ssa(rt, &[], blocks)
}

#[test]
fn worked_forms(rt: HostRuntime) {
    for (params, body, z, text) in [
        (
            "a bigint",
            "BEGIN END",
            sign_of(&rt),
            " (0)>1(0) (0)?(0)>2()>3() ()=() ()=() ()!",
        ),
        (
            "a bigint",
            "DECLARE b bigint; BEGIN END",
            collatz(&rt),
            " (0)>2(0) ()! (0)1=()>3(0 1) (2 3)?(2)>4(2 3)>8(3) (2 3)?(2)>5(2 3)>6(2 3) (2 3)4=(2)>7(4 3) (2 3)5=(2)>7(5 3) (6 3)7=(3)>3(6 7) (3)=(3)",
        ),
        (
            "a bigint",
            "DECLARE b bigint; BEGIN END",
            unreachable_loop(&rt),
            " (0)>1(0) (0)=(0) (0 1)?(1)>3(0 1)>1(0) (0 1)1=(1)>2(0 1)",
        ),
        (
            "a bigint, b bigint",
            "BEGIN END",
            endless_loop(&rt),
            " ()>1() ()2=()>2(2) (2)?(2)>1()>1()",
        ),
        ("", "BEGIN END", one_block(&rt), " ()!"),
    ] {
        let f = function(&rt, params, "", body);
        let anf = normal(&rt, f.get(), &z);
        assert_eq!(&rt; shown(&rt, &anf).as_str(), text);
    }
}

/// A function of 32 parameters.
fn of_32(rt: &(impl Abort + AllocGlobal)) -> Boxed<CheckedFunction> {
    let mut params = String::from_str(rt.alloc(), "p0 bigint").expect(rt, "memory");
    for k in 1..32u32 {
        write!(&mut params, ", p{k} bigint").expect(rt, "memory");
    }
    function(rt, params.as_str(), "", "BEGIN END")
}

/// 8,015 blocks test 32 slots in turn, and go on to the next block or back to one of half the number; the last block returns one slot.
#[test]
fn many_blocks(rt: HostRuntime) {
    let slots: u32 = 32;
    let mut map = Items::new(rt.alloc());
    let mut names = Items::new(rt.alloc());
    for slot in 0..slots {
        map.push((slot, slot)).expect(&rt, "memory");
        names.push(slot).expect(&rt, "memory");
    }
    let mut blocks = Items::new(rt.alloc());
    for at in 0..8_015u32 {
        let end = End::Branch(term(&rt, &[at % slots]), at + 1, at / 2);
        let y = block(&rt, map.as_slice(), end);
        blocks.push(y).expect(&rt, "memory");
    }
    let last = block(&rt, map.as_slice(), End::Return(term(&rt, &[31])));
    blocks.push(last).expect(&rt, "memory");
    let anf = normal(&rt, of_32(&rt).get(), &Ssa { names, blocks });
    assert!(rt; anf.blocks.len() == 8_016);
    for block in anf.blocks.as_slice().iter().take(8_015) {
        assert!(rt; block.params.len() == 32);
    }
    for block in anf.blocks.as_slice().iter().skip(8_015) {
        assert!(rt; block.params.len() == 1);
    }
}
