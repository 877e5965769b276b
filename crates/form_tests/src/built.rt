//! The forms of a function, each made by its builder. A test that finds no memory stops.

ghost use Rattle.std.specs.Prelude.{◌<◌, ◌^◌, length, IsTrue};
ghost use Rattle.block_forms.specs.Lowered.{Lowered};
ghost use Rattle.block_forms.specs.Named.{Named};
ghost use Rattle.block_forms.specs.Places.{Each};
ghost use Rattle.call_forms.specs.Called.{Called};
ghost use Rattle.call_forms.specs.Columned.{Columned};
ghost use Rattle.call_forms.specs.Merged.{Merged};
ghost use Rattle.tail_rec.specs.Columns.{HasFewParameters};

use anf_build::to_calls;
use away_types::CheckedFunction;
use call_forms::{AnfBlock, Forms};
use goto_lower::lower;
use ssa_build::build_ssa;
use std::process::Abort;
use tail_rec::to_tail;

fn has_few(block: &AnfBlock) -> bool
    ensures { IsTrue result → HasFewParameters block.now }
{
    block.params.len() < 268_435_456
}

/// Whether there are few blocks, each of which has few parameters.
pub fn are_few(blocks: &[AnfBlock]) -> bool
    ensures blocks { IsTrue result → length blocks.now < 2 ^ 28 }
    ensures parameters { IsTrue result → Each HasFewParameters blocks.now }
{
    if blocks.len() >= 268_435_456 {
        return false;
    }
    blocks.iter().all(|block| has_few(block))
}

pub fn built(rt: &(impl Abort + AllocGlobal), f: &CheckedFunction) -> Forms
    ensures lowered { Lowered f.now.function f.now.slots result.goto }
    ensures named { Named (length f.now.slots) (length f.now.function.params) result.goto result.ssa }
    ensures called { Called result.goto result.ssa result.anf }
    ensures merged { Merged result.goto result.anf result.tail }
    ensures columned { Columned f.now.slots result.ssa result.anf result.tail }
{
    let goto = lower(rt.alloc(), f).expect(rt, "memory");
    let ssa = build_ssa(rt.alloc(), f, &goto).expect(rt, "memory");
    let anf = to_calls(rt.alloc(), &goto, &ssa).expect(rt, "memory");
    assert!(rt; are_few(anf.blocks.as_slice()));
    let tail = to_tail(rt.alloc(), f, &goto, &ssa, &anf).expect(rt, "memory");
    Forms {
        goto,
        ssa,
        anf,
        tail,
    }
}
