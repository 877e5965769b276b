//! The full form, with a φ for each live slot of each block but the entry, as tables.

ghost use Rattle.std.specs.Prelude.{◌≡◌, ◌<◌, length, IfOk};
ghost use Rattle.ssa_build.specs.FullForms as full_of;
ghost use Rattle.ssa_build.specs.FullForms.{IsFullForm, IsSized};
ghost use Rattle.ssa_build.specs.Layout.{IsLayout};

use crate::layout::Layout;
use crate::names::{Names, full_names};
use block_forms::Block;
use block_graph::{live_tables, predecessors};
use sqlite_items::Items;
use std::alloc::{AllocError, Global};

/// For each slot the blocks where it is live, the names, and for each block the blocks that lead to it.
#[derive(Drop)]
pub(crate) struct FullForm {
    pub(crate) layout: Layout,
    pub(crate) live: Vec<Items<bool>>,
    pub(crate) names: Names,
    pub(crate) sources: Vec<Items<usize>>,
}

/// The tables of the full form.
pub(crate) fn full_form(
    alloc: Global,
    layout: Layout,
    blocks: &[Block],
) -> Result<FullForm, AllocError>
    requires is_layout { IsLayout layout }
    requires sized { length blocks.now ≡ layout.blocks }
    ensures layout { IfOk result (λ f. f.layout ≡ layout) }
    ensures tables { IfOk result (λ f. IsFullForm blocks.now f) }
{
    let sources = predecessors(alloc, blocks)?;
    let live = live_tables(alloc, blocks, sources.as_slice(), layout.slots)?;
    let names = full_names(alloc, layout, blocks, &live)?;
    Ok(FullForm {
        layout,
        live,
        names,
        sources,
    })
}

/// The name of a slot where a block begins.
pub(crate) fn name_before(full: &FullForm, block: usize, slot: u32) -> u32
    requires tables { IsSized full.now }
    requires block_in { block < full.now.layout.blocks }
    requires slot_in { slot < full.now.layout.slots }
    ensures { result ≡ full_of.before full.now block slot }
{
    if block == full.layout.entry {
        slot
    } else {
        phi_name(full, block, slot as usize)
    }
}

/// The name that the φ of a slot has in a block, if there is one.
pub(crate) fn phi_name(full: &FullForm, block: usize, slot: usize) -> u32
    requires tables { IsSized full.now }
    requires block_in { block < full.now.layout.blocks }
    requires slot_in { slot < full.now.layout.slots }
    ensures { result ≡ full_of.phi_name full.now block slot }
{
    full.names.phis[block].as_slice()[slot]
}

/// The name of a slot where a block ends.
pub(crate) fn name_after(full: &FullForm, blocks: &[Block], block: usize, slot: u32) -> u32
    requires tables { IsSized full.now }
    requires sized { length blocks.now ≡ full.now.layout.blocks }
    requires block_in { block < full.now.layout.blocks }
    requires slot_in { slot < full.now.layout.slots }
    ensures { result ≡ full_of.after full.now blocks.now block slot }
{
    if let Some((target, _)) = &blocks[block].set {
        if *target == slot {
            return full.names.sets[block];
        }
    }
    name_before(full, block, slot)
}
