//! The tables of live blocks of all slots.

ghost use Rattle.std.specs.Prelude.{◌≡◌, ◌<◌, length, IfOk, IsTrue};
ghost use Rattle.block_graph.specs.Predecessors.{ArePredecessors};
ghost use Rattle.block_graph.specs.Spreading.{HasAll};
ghost use Rattle.block_graph.specs.Tables.{AreLiveTables, live_by};

use crate::edges::numbers;
use crate::liveness::{is_marked, live_blocks};
use block_forms::Block;
use sqlite_items::Items;
use std::alloc::{AllocError, Global};

/// For each slot the blocks at which it is live, from the predecessors and the numbers of the blocks.
fn tables_from(
    alloc: Global,
    blocks: &[Block],
    predecessors: &[Items<usize>],
    all: &[usize],
    slots: usize,
) -> Result<Vec<Items<bool>>, AllocError>
    requires predecessors { ArePredecessors blocks.now (length blocks.now) predecessors.now }
    requires all { HasAll (length blocks.now) all.now }
    ensures { IfOk result (λ v. (length v.items ≡ slots) × AreLiveTables blocks.now v.items) }
{
    let mut tables = Vec::new(alloc);
    for slot in 0..slots {
        tables.push(live_blocks(alloc, blocks, predecessors, all, slot)?)?;
    }
    Ok(tables)
}

/// For each slot below `slots` the blocks at which it is live: it is read before it is set on some way from there. The time for a slot is in the
/// number of blocks and ways between them.
pub fn live_tables(
    alloc: Global,
    blocks: &[Block],
    predecessors: &[Items<usize>],
    slots: usize,
) -> Result<Vec<Items<bool>>, AllocError>
    requires predecessors { ArePredecessors blocks.now (length blocks.now) predecessors.now }
    ensures { IfOk result (λ v. (length v.items ≡ slots) × AreLiveTables blocks.now v.items) }
{
    let all = numbers(alloc, blocks.len())?;
    tables_from(alloc, blocks, predecessors, all.as_slice(), slots)
}

/// Whether a slot is live at a block, by the tables.
pub fn is_live(tables: &[Items<bool>], block: usize, slot: usize) -> bool
    ensures by_table { result ≡ live_by tables.now block slot }
    ensures within { IsTrue result → slot < length tables.now }
{
    if slot < tables.len() {
        is_marked(tables[slot].as_slice(), block)
    } else {
        false
    }
}
