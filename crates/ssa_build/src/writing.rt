//! The blocks that are written.

ghost use Rattle.std.specs.Prelude.{◌≡◌, ◌<◌, length, IfOk};
ghost use Rattle.block_forms.specs.Lowered.{BlockBelow, EndBelow, SetBelow};
ghost use Rattle.block_forms.specs.Places.{Each};
ghost use Rattle.ssa_build.specs.FullForms.{IsSized};
ghost use Rattle.ssa_build.specs.Renamings as renamed;
ghost use Rattle.block_graph.specs.Predecessors.{ArePredecessors};

use crate::output::{new_map, new_name, new_phis, term_after, term_before};
use crate::renames::Renaming;
use block_forms::{Block, End, Phi, SsaBlock, Term};
use sqlite_items::Items;
use std::alloc::{AllocError, Global};

/// An assignment under new names.
fn new_set(
    alloc: Global,
    renaming: &Renaming<'_>,
    block: usize,
    held: &Block,
) -> Result<Option<(u32, Term)>, AllocError>
    requires tables { IsSized renaming.now.full.now }
    requires block_in { block < renaming.now.full.now.layout.blocks }
    requires below { SetBelow renaming.now.full.now.layout.slots held.now.set }
    ensures { IfOk result (λ a. a ≡ renamed.set_of renaming.now block held.now.set) }
{
    match &held.set {
        None => Ok(None),
        Some((_, value)) => {
            let name = new_name(
                renaming.into,
                renaming.numbers,
                renaming.full.names.sets[block],
            );
            let term = term_before(alloc, renaming, block, value)?;
            Ok(Some((name, term)))
        }
    }
}

/// An end under new names.
fn new_end(
    alloc: Global,
    renaming: &Renaming<'_>,
    block: usize,
    end: &End,
) -> Result<End, AllocError>
    requires tables { IsSized renaming.now.full.now }
    requires sized { length renaming.now.blocks.now ≡ renaming.now.full.now.layout.blocks }
    requires block_in { block < renaming.now.full.now.layout.blocks }
    requires below { EndBelow renaming.now.full.now.layout.slots end.now }
    ensures { IfOk result (λ e. e ≡ renamed.end_of renaming.now block end.now) }
{
    match end {
        End::Jump(next) => Ok(End::Jump(*next)),
        End::Branch(test, yes, no) => {
            let test = term_after(alloc, renaming, block, test)?;
            Ok(End::Branch(test, *yes, *no))
        }
        End::Return(value) => {
            let value = term_after(alloc, renaming, block, value)?;
            Ok(End::Return(value))
        }
        End::Fail(class) => Ok(End::Fail(*class)),
    }
}

/// The φs of a block; the entry has none.
fn block_phis(
    alloc: Global,
    renaming: &Renaming<'_>,
    block: usize,
) -> Result<Items<Phi>, AllocError>
    requires tables { IsSized renaming.now.full.now }
    requires sized { length renaming.now.blocks.now ≡ renaming.now.full.now.layout.blocks }
    requires sources { ArePredecessors renaming.now.blocks.now
        (length renaming.now.blocks.now) renaming.now.full.now.sources.items }
    requires block_in { block < renaming.now.full.now.layout.blocks }
    ensures { IfOk result (λ v. v ≡ renamed.phis_of renaming.now block) }
{
    if block == renaming.full.layout.entry {
        return Ok(Items::new(alloc));
    }
    let sources = renaming.full.sources[block].as_slice();
    new_phis(alloc, renaming, sources, block)
}

/// A block under new names.
fn new_block(alloc: Global, renaming: &Renaming<'_>, block: usize) -> Result<SsaBlock, AllocError>
    requires tables { IsSized renaming.now.full.now }
    requires sized { length renaming.now.blocks.now ≡ renaming.now.full.now.layout.blocks }
    requires sources { ArePredecessors renaming.now.blocks.now
        (length renaming.now.blocks.now) renaming.now.full.now.sources.items }
    requires block_in { block < renaming.now.full.now.layout.blocks }
    requires below { Each (BlockBelow renaming.now.full.now.layout.slots) renaming.now.blocks.now }
    ensures { IfOk result (λ y. renamed.IsBlock renaming.now block y) }
{
    let held = &renaming.blocks[block];
    let map = new_map(alloc, renaming, block)?;
    let phis = block_phis(alloc, renaming, block)?;
    let set = new_set(alloc, renaming, block, held)?;
    let end = new_end(alloc, renaming, block, &held.end)?;
    Ok(SsaBlock {
        map,
        phis,
        set,
        end,
    })
}

/// All blocks under new names.
pub(crate) fn new_blocks(
    alloc: Global,
    renaming: &Renaming<'_>,
) -> Result<Items<SsaBlock>, AllocError>
    requires tables { IsSized renaming.now.full.now }
    requires sized { length renaming.now.blocks.now ≡ renaming.now.full.now.layout.blocks }
    requires sources { ArePredecessors renaming.now.blocks.now
        (length renaming.now.blocks.now) renaming.now.full.now.sources.items }
    requires below { Each (BlockBelow renaming.now.full.now.layout.slots) renaming.now.blocks.now }
    ensures { IfOk result (λ ys.
        renamed.AreBlocks renaming.now renaming.now.full.now.layout.blocks ys) }
{
    let mut written = Items::new(alloc);
    for block in 0..renaming.full.layout.blocks {
        written.push(new_block(alloc, renaming, block)?)?;
    }
    Ok(written)
}
