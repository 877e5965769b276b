//! The names of the full form.

ghost use Rattle.std.specs.Prelude.{◌≡◌, ◌+◌, ◌^◌, ◌<◌, ◌++◌, length, IfOk};
ghost use Rattle.ssa_build.specs.Layout.{IsLayout};
ghost use Rattle.block_graph.specs.Ranges.{count_from};
ghost use Rattle.ssa_build.specs.Names as names_of;
ghost use Rattle.block_graph.specs.Tables.{live_by};

use crate::layout::Layout;
use block_forms::Block;
use block_graph::is_live;
use sqlite_items::Items;
use std::alloc::{AllocError, Global};

/// The slot of each name, for each block the names of its φs by slots, and for each block the name that it assigns.
#[derive(Drop)]
pub(crate) struct Names {
    pub(crate) slots: Vec<u32>,
    pub(crate) phis: Vec<Items<u32>>,
    pub(crate) sets: Vec<u32>,
}

/// Whether a slot has a φ in a block.
fn has_phi(layout: Layout, live: &[Items<bool>], block: usize, slot: usize) -> bool
    ensures { result ≡ names_of.has_phi layout (live_by live.now) block slot }
{
    if block == layout.entry {
        false
    } else {
        is_live(live, block, slot)
    }
}

/// Adds a name for each of the slots.
fn push_slots(names: &mut Vec<u32>, slots: usize) -> Result<(), AllocError>
    requires { slots < 2 ^ 32 }
    ensures { IfOk result (λ _. names.new.items ≡ names.old.items ++ count_from 0 slots) }
{
    for slot in 0..slots {
        names.push(slot as u32)?;
    }
    Ok(())
}

/// Adds a name for each φ of a block; the answer has for each slot the next name.
fn push_phis(
    alloc: Global,
    layout: Layout,
    live: &[Items<bool>],
    block: usize,
    names: &mut Vec<u32>,
) -> Result<Items<u32>, AllocError>
    requires room { length names.old.items + layout.slots < 2 ^ 32 }
    ensures names { IfOk result (λ _. names.new.items ≡ names.old.items
        ++ names_of.phi_slots layout (live_by live.now) block layout.slots) }
    ensures row { IfOk result (λ row. row ≡ names_of.next_row layout (live_by live.now) block
        (length names.old.items)) }
{
    let mut row = Items::from_vec(Vec::with_capacity(alloc, layout.slots)?);
    for slot in 0..layout.slots {
        row.push(names.len() as u32)?;
        if has_phi(layout, live, block, slot) {
            names.push(slot as u32)?;
        }
    }
    Ok(row)
}

/// Adds a name for the assignment of a block, if it has one.
fn push_set(block: &Block, names: &mut Vec<u32>) -> Result<(), AllocError>
    ensures { IfOk result (λ _. names.new.items ≡ names.old.items
        ++ names_of.set_slots block.now.set) }
{
    if let Some((slot, _)) = &block.set {
        names.push(*slot)?;
    }
    Ok(())
}

/// The names of the full form.
pub(crate) fn full_names(
    alloc: Global,
    layout: Layout,
    blocks: &[Block],
    live: &[Items<bool>],
) -> Result<Names, AllocError>
    requires is_layout { IsLayout layout }
    requires sized { length blocks.now ≡ layout.blocks }
    requires long { length live.now ≡ layout.slots }
    ensures { IfOk result (λ n. names_of.NamesBelow layout
        (live_by live.now) blocks.now layout.blocks n.slots.items n.phis.items n.sets.items) }
{
    let mut slots = Vec::new(alloc);
    let mut phis = Vec::new(alloc);
    let mut sets = Vec::new(alloc);
    push_slots(&mut slots, layout.slots)?;
    for block in 0..layout.blocks {
        phis.push(push_phis(alloc, layout, live, block, &mut slots)?)?;
        sets.push(slots.len() as u32)?;
        push_set(&blocks[block], &mut slots)?;
    }
    Ok(Names { slots, phis, sets })
}
