//! SSA forms, the goto forms that they stand for, and normal forms as text.

use away_values::Class;
use block_forms::{Block, End, Goto, Phi, Ssa, SsaBlock, Term};
use call_forms::{Anf, Call, CallEnd};
use sqlite_items::Items;
use std::fmt::Write;
use std::process::Abort;

fn numbers(rt: &(impl Abort + AllocGlobal), list: &[u32]) -> Items<u32> {
    Items::from_slice(rt.alloc(), list).expect(rt, "memory")
}

pub(crate) fn term(rt: &(impl Abort + AllocGlobal), names: &[u32]) -> Term {
    Term {
        expr: 0,
        names: numbers(rt, names),
    }
}

/// A block that sets nothing.
pub(crate) fn block(rt: &(impl Abort + AllocGlobal), map: &[(u32, u32)], end: End) -> SsaBlock {
    SsaBlock {
        map: Items::from_slice(rt.alloc(), map).expect(rt, "memory"),
        phis: Items::new(rt.alloc()),
        set: None,
        end,
    }
}

/// A block that fails.
pub(crate) fn fails(rt: &(impl Abort + AllocGlobal), map: &[(u32, u32)]) -> SsaBlock {
    block(rt, map, End::Fail(Class { code: *b"2F005" }))
}

/// A block that sets a name by a term that reads names.
pub(crate) fn sets(
    rt: &(impl Abort + AllocGlobal),
    map: &[(u32, u32)],
    name: u32,
    reads: &[u32],
    next: u32,
) -> SsaBlock {
    let mut made = block(rt, map, End::Jump(next));
    made.set = Some((name, term(rt, reads)));
    made
}

/// A φ.
pub(crate) fn phi(rt: &(impl Abort + AllocGlobal), name: u32, operands: &[(u32, u32)]) -> Phi {
    Phi {
        name,
        operands: Items::from_slice(rt.alloc(), operands).expect(rt, "memory"),
    }
}

/// The same block with one more φ.
pub(crate) fn joins(rt: &(impl Abort + AllocGlobal), block: SsaBlock, phi: Phi) -> SsaBlock {
    let mut made = block;
    made.phis.push(phi).expect(rt, "memory");
    made
}

// ---- the goto form

fn slot_of(names: &[u32], name: u32) -> u32 {
    match names.get(name as usize) {
        None => 0,
        Some(slot) => *slot,
    }
}

fn in_slots(rt: &(impl Abort + AllocGlobal), names: &[u32], t: &Term) -> Term {
    let mut slots = Items::new(rt.alloc());
    for name in t.names.as_slice() {
        slots.push(slot_of(names, *name)).expect(rt, "memory");
    }
    Term {
        expr: t.expr,
        names: slots,
    }
}

fn end_in_slots(rt: &(impl Abort + AllocGlobal), names: &[u32], end: &End) -> End {
    match end {
        End::Jump(next) => End::Jump(*next),
        End::Branch(test, yes, no) => End::Branch(in_slots(rt, names, test), *yes, *no),
        End::Return(value) => End::Return(in_slots(rt, names, value)),
        End::Fail(class) => End::Fail(*class),
    }
}

fn block_in_slots(rt: &(impl Abort + AllocGlobal), names: &[u32], y: &SsaBlock) -> Block {
    let set = match &y.set {
        None => None,
        Some((name, value)) => Some((slot_of(names, *name), in_slots(rt, names, value))),
    };
    Block {
        head: false,
        set,
        end: end_in_slots(rt, names, &y.end),
    }
}

/// The goto form of an SSA form.
pub(crate) fn goto_of(rt: &(impl Abort + AllocGlobal), z: &Ssa) -> Goto {
    let mut blocks = Items::new(rt.alloc());
    for y in z.blocks.as_slice() {
        let x = block_in_slots(rt, z.names.as_slice(), y);
        blocks.push(x).expect(rt, "memory");
    }
    Goto {
        entry: 0,
        finish: 0,
        nodes: Items::new(rt.alloc()),
        blocks,
    }
}

// ---- text

fn write_names(rt: &(impl Abort + AllocGlobal), out: &mut String, names: &[u32]) {
    out.push_str("(").expect(rt, "memory");
    for (at, name) in names.iter().enumerate() {
        let before = if at == 0 { "" } else { " " };
        write!(out, "{before}{name}").expect(rt, "memory");
    }
    out.push_str(")").expect(rt, "memory");
}

fn write_call(rt: &(impl Abort + AllocGlobal), out: &mut String, call: &Call) {
    let target = call.target;
    write!(out, ">{target}").expect(rt, "memory");
    write_names(rt, out, call.args.as_slice());
}

fn write_end(rt: &(impl Abort + AllocGlobal), out: &mut String, end: &CallEnd) {
    match end {
        CallEnd::Go(call) => write_call(rt, out, call),
        CallEnd::Pick(test, yes, no) => {
            out.push_str("?").expect(rt, "memory");
            write_names(rt, out, test.names.as_slice());
            write_call(rt, out, yes);
            write_call(rt, out, no);
        }
        CallEnd::Return(value) => {
            out.push_str("=").expect(rt, "memory");
            write_names(rt, out, value.names.as_slice());
        }
        CallEnd::Fail(_) => out.push_str("!").expect(rt, "memory"),
    }
}

/// Each block with its parameters: `3=(0)` sets name 3 by a term of name 0, `>5(3)` calls block 5 with name 3, `?(0)>2()>3()` picks, `=()` returns
/// and `!` fails.
pub(crate) fn shown(rt: &(impl Abort + AllocGlobal), a: &Anf) -> String {
    let mut out = String::new(rt.alloc());
    for block in a.blocks.as_slice() {
        out.push_str(" ").expect(rt, "memory");
        write_names(rt, &mut out, block.params.as_slice());
        if let Some((name, value)) = &block.set {
            write!(out, "{name}=").expect(rt, "memory");
            write_names(rt, &mut out, value.names.as_slice());
        }
        write_end(rt, &mut out, &block.end);
    }
    out
}
