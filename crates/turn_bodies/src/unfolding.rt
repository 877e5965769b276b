//! The labels of a query of turns: heads of loops, and the entry behind them. Other blocks are unfolded where they are called, as
//! long as the trees are small; else blocks with several callers are labels too.

ghost use Rattle.std.specs.Prelude.{◌<◌, ◌^◌, length, IfOk, IfSome};
ghost use Rattle.block_forms.specs.Named.{Named};
ghost use Rattle.block_forms.specs.Places.{Each};
ghost use Rattle.call_forms.specs.Called.{Called};
ghost use Rattle.tail_rec.specs.Columns.{HasFewParameters};
ghost use Rattle.turn_bodies.specs.Testing.{EndsIn};
ghost use Rattle.turn_bodies.specs.Unfolding.{IsUnfolded};

use crate::checks::{all_below, passes};
use crate::labels::{are_small, heads_of, with_entry_last};
use away_types::CheckedFunction;
use away_values::NoMemory;
use block_forms::{Goto, Ssa};
use call_forms::{Anf, Tail};
use sqlite_items::Items;
use std::alloc::Global;
use tail_rec::{tail_of, to_tail};

/// The tail form of a query of turns, and how many of its labels are called: the first ones.
#[derive(Drop)]
pub struct Unfolded {
    pub tail: Tail,
    pub heads: usize,
}

/// The tail form with these labels, where it passes.
fn tried(
    alloc: Global,
    f: &CheckedFunction,
    goto: &Goto,
    ssa: &Ssa,
    anf: &Anf,
    labels: Items<u32>,
) -> Result<Option<Unfolded>, NoMemory>
    requires named { Named (length f.now.slots) (length f.now.function.params) goto.now ssa.now }
    requires called { Called goto.now ssa.now anf.now }
    requires few_blocks { length anf.now.blocks < 2 ^ 28 }
    requires few_parameters { Each HasFewParameters anf.now.blocks }
    requires entry { EndsIn goto.now.entry labels }
    ensures { IfOk result (λ found.
        IfSome found (λ x. IsUnfolded f.now.slots goto.now ssa.now anf.now x)) }
{
    if !all_below(anf.blocks.len(), labels.as_slice()) {
        return Ok(None);
    }
    let heads = labels.len() - 1;
    let tail = tail_of(alloc, f, ssa, anf, labels)?;
    if passes(alloc, goto, anf, &tail, heads)? {
        return Ok(Some(Unfolded { tail, heads }));
    }
    Ok(None)
}

/// The tail form whose labels are the heads of loops and the entry, where the trees behind them are small.
fn by_heads(
    alloc: Global,
    f: &CheckedFunction,
    goto: &Goto,
    ssa: &Ssa,
    anf: &Anf,
) -> Result<Option<Unfolded>, NoMemory>
    requires named { Named (length f.now.slots) (length f.now.function.params) goto.now ssa.now }
    requires called { Called goto.now ssa.now anf.now }
    requires few_blocks { length anf.now.blocks < 2 ^ 28 }
    requires few_parameters { Each HasFewParameters anf.now.blocks }
    ensures { IfOk result (λ found.
        IfSome found (λ x. IsUnfolded f.now.slots goto.now ssa.now anf.now x)) }
{
    let heads = heads_of(alloc, goto)?;
    let labels = with_entry_last(alloc, heads.as_slice(), goto.entry)?;
    if !are_small(anf, labels.as_slice()) {
        return Ok(None);
    }
    tried(alloc, f, goto, ssa, anf, labels)
}

/// The tail form whose labels are also the blocks with several callers.
fn by_callers(
    alloc: Global,
    f: &CheckedFunction,
    goto: &Goto,
    ssa: &Ssa,
    anf: &Anf,
) -> Result<Option<Unfolded>, NoMemory>
    requires named { Named (length f.now.slots) (length f.now.function.params) goto.now ssa.now }
    requires called { Called goto.now ssa.now anf.now }
    requires few_blocks { length anf.now.blocks < 2 ^ 28 }
    requires few_parameters { Each HasFewParameters anf.now.blocks }
    ensures { IfOk result (λ found.
        IfSome found (λ x. IsUnfolded f.now.slots goto.now ssa.now anf.now x)) }
{
    let merged = to_tail(alloc, f, goto, ssa, anf)?;
    let labels = with_entry_last(alloc, merged.labels.as_slice(), goto.entry)?;
    tried(alloc, f, goto, ssa, anf, labels)
}

/// The tail form whose labels are the heads of loops and the entry; where the trees behind them are large, also the blocks with
/// several callers. One of both passes for every function that is lowered.
pub fn unfold(
    alloc: Global,
    f: &CheckedFunction,
    goto: &Goto,
    ssa: &Ssa,
    anf: &Anf,
) -> Result<Unfolded, NoMemory>
    requires named { Named (length f.now.slots) (length f.now.function.params) goto.now ssa.now }
    requires called { Called goto.now ssa.now anf.now }
    requires few_blocks { length anf.now.blocks < 2 ^ 28 }
    requires few_parameters { Each HasFewParameters anf.now.blocks }
    ensures { IfOk result (λ x. IsUnfolded f.now.slots goto.now ssa.now anf.now x) }
{
    if let Some(x) = by_heads(alloc, f, goto, ssa, anf)? {
        return Ok(x);
    }
    match by_callers(alloc, f, goto, ssa, anf)? {
        Some(x) => Ok(x),
        None => Err(NoMemory),
    }
}
