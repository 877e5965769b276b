//! The blocks at which a slot is live: it is read before it is set on some way from there.

ghost use Rattle.std.specs.Prelude.{◌≡◌, ℕ, ◌+◌, ◌^◌, ◌<◌, ◌≤◌, [], length, IfOk, OnOk, IsTrue, true};
ghost use Rattle.block_graph.specs.Liveness.{LiveTable, OnlyLive, due, has, lives, lives_end, marked};
ghost use Rattle.block_graph.specs.Predecessors.{ArePredecessors};
ghost use Rattle.block_graph.specs.Spreading.{HasAll, Spread, Work};

use block_forms::{Block, End, Term};
use sqlite_items::Items;
use std::alloc::{AllocError, Global};

/// Whether a term reads a slot.
fn reads(term: &Term, slot: usize) -> bool
    ensures { result ≡ has term.now.names slot }
{
    for name in term.names.as_slice() {
        if *name as usize == slot {
            return true;
        }
    }
    false
}

/// Whether a block is marked.
pub(crate) fn is_marked(table: &[bool], block: usize) -> bool
    ensures { result ≡ marked table.now block }
{
    if block < table.len() {
        table[block]
    } else {
        false
    }
}

/// Whether a slot is live where a block ends.
fn lives_at_end(end: &End, table: &[bool], slot: usize) -> bool
    ensures { result ≡ lives_end end.now table.now slot }
{
    match end {
        End::Jump(next) => is_marked(table, *next as usize),
        End::Branch(test, yes, no) => {
            reads(test, slot) || is_marked(table, *yes as usize) || is_marked(table, *no as usize)
        }
        End::Return(value) => reads(value, slot),
        End::Fail(_) => false,
    }
}

/// Whether a slot is live where a block begins.
fn lives_at(block: &Block, table: &[bool], slot: usize) -> bool
    ensures { result ≡ lives block.now table.now slot }
{
    match &block.set {
        None => lives_at_end(&block.end, table, slot),
        Some((target, value)) => {
            reads(value, slot) || *target as usize != slot && lives_at_end(&block.end, table, slot)
        }
    }
}

/// Whether a block isn't marked, though the slot is live there by what is marked.
fn is_due(blocks: &[Block], table: &[bool], at: usize, slot: usize) -> bool
    ensures by_table { result ≡ due blocks.now table.now slot at }
    ensures within { IsTrue result → at < length blocks.now }
{
    match blocks.get(at) {
        None => false,
        Some(block) => !is_marked(table, at) && lives_at(block, table, slot),
    }
}

/// Marks those of some blocks that are due, and adds them to the blocks from which marks are yet to spread.
fn mark_due(
    blocks: &[Block],
    among: &[usize],
    table: &mut [bool],
    left: &mut Items<usize>,
    slot: usize,
) -> Result<(), AllocError>
    requires sized { length table.old ≡ length blocks.now }
    requires only { OnlyLive blocks.now slot table.old }
    ensures { OnOk result (Spread blocks.now slot table.old left.old among.now table.new left.new) }
{
    for block in among {
        let at = *block;
        if is_due(blocks, table, at, slot) {
            table[at] = true;
            left.push(at)?;
        }
    }
    Ok(())
}

/// Marks blocks until all are marked at which the slot is live: from each marked block to those that lead to it.
fn spread(
    blocks: &[Block],
    predecessors: &[Items<usize>],
    table: &mut [bool],
    left: &mut Items<usize>,
    slot: usize,
) -> Result<(), AllocError>
    requires predecessors { ArePredecessors blocks.now (length blocks.now) predecessors.now }
    requires begun { Work blocks.now slot table.old left.old }
    ensures { OnOk result (LiveTable blocks.now slot table.new) }
{
    while let Some(block) = left.pop() {
        if let Some(list) = predecessors.get(block) {
            mark_due(blocks, list.as_slice(), table, left, slot)?;
        }
    }
    Ok(())
}

/// Marks the blocks at which a slot is live: first those that read it.
fn mark_live(
    blocks: &[Block],
    predecessors: &[Items<usize>],
    all: &[usize],
    table: &mut [bool],
    left: &mut Items<usize>,
    slot: usize,
) -> Result<(), AllocError>
    requires predecessors { ArePredecessors blocks.now (length blocks.now) predecessors.now }
    requires all { HasAll (length blocks.now) all.now }
    requires sized { length table.old ≡ length blocks.now }
    requires unmarked { (b : ℕ) → marked table.old b ≡ true → ⊥ }
    requires none_left { left.old ≡ [] }
    ensures { OnOk result (LiveTable blocks.now slot table.new) }
{
    mark_due(blocks, all, table, left, slot)?;
    spread(blocks, predecessors, table, left, slot)
}

/// No block is marked.
fn unmarked_table(alloc: Global, count: usize) -> Result<Vec<bool>, AllocError>
    ensures { IfOk result (λ v. (length v.items ≡ count)
        × ((b : ℕ) → marked v.items b ≡ true → ⊥)) }
{
    let mut table = Vec::new(alloc);
    for _block in 0..count {
        table.push(false)?;
    }
    Ok(table)
}

/// The blocks at which a slot is live. Marks spread from the blocks that read the slot, to the predecessors of what is marked.
pub(crate) fn live_blocks(
    alloc: Global,
    blocks: &[Block],
    predecessors: &[Items<usize>],
    all: &[usize],
    slot: usize,
) -> Result<Items<bool>, AllocError>
    requires predecessors { ArePredecessors blocks.now (length blocks.now) predecessors.now }
    requires all { HasAll (length blocks.now) all.now }
    ensures { IfOk result (λ v. LiveTable blocks.now slot v) }
{
    let mut table = unmarked_table(alloc, blocks.len())?;
    let mut left = Items::new(alloc);
    mark_live(blocks, predecessors, all, &mut table, &mut left, slot)?;
    Ok(Items::from_vec(table))
}
