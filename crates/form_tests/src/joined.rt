//! The SSA forms of worked functions, and of one with many blocks.

use crate::functions::{COLLATZ, SIGN_OF, function};
use block_forms::Ssa;
use goto_lower::lower;
use ssa_build::build_ssa;
use std::fmt::Write;
use std::process::Abort;

/// The slots of the names, and block by block the φs with their operands and the assigned name.
fn shown(rt: &(impl Abort + AllocGlobal), z: &Ssa) -> String {
    let mut out = String::new(rt.alloc());
    for slot in z.names.as_slice() {
        let text = format!(in rt.alloc(); " {slot}").expect(rt, "memory");
        out.push_str(text.as_str()).expect(rt, "memory");
    }
    for (at, block) in z.blocks.as_slice().iter().enumerate() {
        for phi in block.phis.as_slice() {
            let name = phi.name;
            let text = format!(in rt.alloc(); ", {name} at {at} of").expect(rt, "memory");
            out.push_str(text.as_str()).expect(rt, "memory");
            for (from, operand) in phi.operands.as_slice() {
                let text = format!(in rt.alloc(); " {from}:{operand}").expect(rt, "memory");
                out.push_str(text.as_str()).expect(rt, "memory");
            }
        }
        if let Some((name, _)) = &block.set {
            let text = format!(in rt.alloc(); ", {name} set at {at}").expect(rt, "memory");
            out.push_str(text.as_str()).expect(rt, "memory");
        }
    }
    out
}

fn ssa(rt: &(impl Abort + AllocGlobal), params: &str, body: &str) -> Ssa {
    let f = function(rt, params, "", body);
    let goto = lower(rt.alloc(), f.get()).expect(rt, "memory");
    build_ssa(rt.alloc(), f.get(), &goto).expect(rt, "memory")
}

/// In collatz each name from 2 on is set once. Nothing reaches the loop of the last function, and it leads to what is reached.
#[test]
fn worked_functions(rt: HostRuntime) {
    for (params, body, wanted) in [
        (
            "n bigint",
            COLLATZ,
            " 0 1 1 0 1 0 0 0 1, 2 set at 2, 3 at 3 of 2:0 7:7, 4 at 3 of 2:2 7:8, 5 set at 5, 6 set at 6, 7 at 7 of 5:5 6:6, 8 set at 7",
        ),
        ("a bigint", SIGN_OF, " 0"),
        (
            "a bigint, b bigint",
            "BEGIN IF a > 0 THEN RETURN a; WHILE b > 0 LOOP b := b - 1; END LOOP; END IF; RETURN a; END",
            " 0 1 1, 2 set at 5",
        ),
    ] {
        let z = ssa(&rt, params, body);
        assert_eq!(&rt; (body, shown(&rt, &z).as_str()), (body, wanted));
    }
}

/// 155 times: IF test of a parameter: the parameter := itself; 32 parameters in turn, which are all read at the end. Each assignment and each φ behind
/// it has a name. No function has more than 500 nodes.
#[test]
fn many_blocks(rt: HostRuntime) {
    let mut params = String::new(rt.alloc());
    let mut all = String::new(rt.alloc());
    for slot in 0..32u32 {
        let before = if slot == 0 { "" } else { ", " };
        write!(&mut params, "{before}p{slot} bigint").expect(&rt, "memory");
        let before = if slot == 0 { "" } else { " + " };
        write!(&mut all, "{before}p{slot}").expect(&rt, "memory");
    }
    let mut body = String::from_str(rt.alloc(), "BEGIN ").expect(&rt, "memory");
    for turn in 0..155u32 {
        let slot = turn % 32;
        write!(
            &mut body,
            "IF p{slot} > 0 THEN p{slot} := p{slot}; END IF; "
        )
        .expect(&rt, "memory");
    }
    write!(&mut body, "RETURN {all}; END").expect(&rt, "memory");
    let z = ssa(&rt, params.as_str(), body.as_str());
    assert_eq!(&rt; z.blocks.len(), 313);
    assert_eq!(&rt; z.names.len(), 342);
}
