//! The blocks that lead to each block.

ghost use Rattle.std.specs.Prelude.{◌≡◌, ◌<◌, length, IfOk};
ghost use Rattle.block_forms.specs.declared.forms.End.TheVariants.{Jump};
ghost use Rattle.block_graph.specs.Predecessors.{AddsTargets, ArePredecessors};
ghost use Rattle.block_graph.specs.Spreading.{HasAll};

use block_forms::{Block, End};
use sqlite_items::Items;
use std::alloc::{AllocError, Global};

/// Adds a block to the predecessors of a target, if that is a block.
fn add_predecessor(
    lists: &mut Vec<Items<usize>>,
    target: u32,
    block: usize,
) -> Result<(), AllocError>
    ensures { IfOk result (λ _. AddsTargets (Jump target) block lists.old.items lists.new.items) }
{
    let at = target as usize;
    if at < lists.len() {
        lists[at].push(block)?;
    }
    Ok(())
}

/// Adds a block to the predecessors of each block that its end leads to.
fn add_targets(lists: &mut Vec<Items<usize>>, end: &End, block: usize) -> Result<(), AllocError>
    ensures { IfOk result (λ _. AddsTargets end.now block lists.old.items lists.new.items) }
{
    match end {
        End::Jump(next) => add_predecessor(lists, *next, block),
        End::Branch(_, yes, no) => {
            add_predecessor(lists, *yes, block)?;
            if *yes != *no {
                add_predecessor(lists, *no, block)?;
            }
            Ok(())
        }
        End::Return(_) => Ok(()),
        End::Fail(_) => Ok(()),
    }
}

/// A list without elements for each block.
fn no_predecessors(alloc: Global, blocks: &[Block]) -> Result<Vec<Items<usize>>, AllocError>
    ensures { IfOk result (λ v. ArePredecessors blocks.now 0 v.items) }
{
    let mut lists = Vec::new(alloc);
    for _block in 0..blocks.len() {
        lists.push(Items::new(alloc))?;
    }
    Ok(lists)
}

/// For each block its predecessors, in ascending order and each once. A target that is no block is left out.
pub fn predecessors(alloc: Global, blocks: &[Block]) -> Result<Vec<Items<usize>>, AllocError>
    ensures { IfOk result (λ v. ArePredecessors blocks.now (length blocks.now) v.items) }
{
    let mut lists = no_predecessors(alloc, blocks)?;
    for block in 0..blocks.len() {
        add_targets(&mut lists, &blocks[block].end, block)?;
    }
    Ok(lists)
}

/// The numbers of so many blocks.
pub(crate) fn numbers(alloc: Global, count: usize) -> Result<Items<usize>, AllocError>
    ensures { IfOk result (λ v. HasAll count v) }
{
    let mut all = Items::new(alloc);
    for block in 0..count {
        all.push(block)?;
    }
    Ok(all)
}
