//! The normal form of an SSA form.

ghost use Rattle.std.specs.Prelude.{◌≡◌, ℕ, ◌<◌, length, IfOk};
ghost use Rattle.block_forms.specs.Places.{Each};
ghost use Rattle.call_forms.specs.Called.{Called};
ghost use Rattle.call_forms.specs.Useful.{UsefulParameters};
ghost use Rattle.anf_build.specs.NormalForm.{IsNormalForm};
ghost use Rattle.anf_build.specs.Passing.{AreBlocksOf};
ghost use Rattle.anf_build.specs.Premises.{IsNamed};
ghost use Rattle.anf_build.specs.Short.{SsaWithin, AnfWithin};

use crate::calls::block_of;
use away_values::NoMemory;
use block_forms::{Block, Goto, Ssa, SsaBlock};
use block_graph::{live_tables, predecessors};
use call_forms::{Anf, AnfBlock};
use sqlite_items::Items;
use std::alloc::{AllocError, Global};

/// A number above each slot that a name has.
fn slots_of(names: &[u32]) -> usize
    ensures { Each (λ s. s < result) names.now }
{
    let mut slots = 0;
    for slot in names {
        let at = *slot as usize;
        if slots <= at {
            slots = at + 1;
        }
    }
    slots
}

/// The blocks of the normal form.
fn all_blocks(
    alloc: Global,
    tables: &[Items<bool>],
    from: &[Block],
    blocks: &[SsaBlock],
) -> Result<Items<AnfBlock>, AllocError>
    requires as_many { length from.now ≡ length blocks.now }
    ensures { IfOk result (λ xs. AreBlocksOf tables.now from.now blocks.now xs) }
{
    let mut made = Items::new(alloc);
    for at in 0..blocks.len() {
        made.push(block_of(alloc, tables, blocks, at, &from[at], &blocks[at])?)?;
    }
    Ok(made)
}

/// The normal form, by tables of live slots.
pub(crate) fn normal_form(alloc: Global, goto: &Goto, ssa: &Ssa) -> Result<Anf, AllocError>
    requires as_many { length goto.now.blocks ≡ length ssa.now.blocks }
    ensures { IfOk result (λ anf. IsNormalForm goto.now ssa.now anf) }
{
    let from = goto.blocks.as_slice();
    let sources = predecessors(alloc, from)?;
    let slots = slots_of(ssa.names.as_slice());
    let tables = live_tables(alloc, from, sources.as_slice(), slots)?;
    let blocks = all_blocks(alloc, tables.as_slice(), from, ssa.blocks.as_slice())?;
    Ok(Anf { blocks })
}

/// Calls for ways: the normal form of an SSA form. The parameters of a block are the names of slots that are read before they are set on some way
/// from there.
pub fn to_calls(alloc: Global, goto: &Goto, ssa: &Ssa) -> Result<Anf, NoMemory>
    requires named { IsNamed goto.now ssa.now }
    ensures called { IfOk result (λ anf. Called goto.now ssa.now anf) }
    ensures useful { IfOk result (λ anf. UsefulParameters anf) }
    ensures short { IfOk result (λ anf. (n : ℕ) → SsaWithin n ssa.now → AnfWithin n anf) }
{
    Ok(normal_form(alloc, goto, ssa)?)
}
