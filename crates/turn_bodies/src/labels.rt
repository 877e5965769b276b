//! Which blocks are labels, and whether the trees behind them are small.

ghost use Rattle.std.specs.Prelude.{◌≤◌, ◌^◌, length, IfOk};
ghost use Rattle.turn_bodies.specs.Testing.{EndsIn};

use crate::places::place_of;
use block_forms::Goto;
use call_forms::{Anf, Call, CallEnd};
use sqlite_items::Items;
use std::alloc::{AllocError, Global};

/// The most blocks that the trees of all labels may have together.
const MOST: usize = 200;

/// The heads of loops.
pub(crate) fn heads_of(alloc: Global, goto: &Goto) -> Result<Items<u32>, AllocError>
    requires { length goto.now.blocks ≤ 2 ^ 32 }
{
    let mut labels = Items::new(alloc);
    let blocks = goto.blocks.as_slice();
    for i in 0..blocks.len() {
        if blocks[i].head {
            labels.push(i as u32)?;
        }
    }
    Ok(labels)
}

/// The labels but the entry, and behind them the entry.
pub(crate) fn with_entry_last(
    alloc: Global,
    labels: &[u32],
    entry: u32,
) -> Result<Items<u32>, AllocError>
    ensures { IfOk result (EndsIn entry) }
{
    let mut list = Items::new(alloc);
    for block in labels {
        if *block != entry {
            list.push(*block)?;
        }
    }
    list.push(entry)?;
    Ok(list)
}

/// What is left of so many blocks behind a call.
#[cycle(counts)]
fn left_behind(anf: &Anf, labels: &[u32], depth: usize, call: &Call, most: usize) -> usize {
    match place_of(labels, call.target) {
        Some(_) => most,
        None => left_of(anf, labels, depth, call.target, most),
    }
}

/// What is left of so many blocks when those of a tree are taken away; 0 where they don't do.
#[cycle(counts)]
fn left_of(anf: &Anf, labels: &[u32], depth: usize, block: u32, most: usize) -> usize {
    if depth == 0 || most <= 1 {
        return 0;
    }
    match anf.blocks.get(block as usize) {
        None => 0,
        Some(x) => match &x.end {
            CallEnd::Go(call) => left_behind(anf, labels, depth - 1, call, most - 1),
            CallEnd::Pick(_, yes, no) => {
                let rest = left_behind(anf, labels, depth - 1, yes, most - 1);
                left_behind(anf, labels, depth - 1, no, rest)
            }
            CallEnd::Return(_) => most - 1,
            CallEnd::Fail(_) => most - 1,
        },
    }
}

/// Whether the trees of these labels are small.
pub(crate) fn are_small(anf: &Anf, labels: &[u32]) -> bool {
    let mut most = MOST;
    for block in labels {
        most = left_of(anf, labels, anf.blocks.len(), *block, most);
    }
    most > 0
}
