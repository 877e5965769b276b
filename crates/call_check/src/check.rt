//! The checks of the relations between the forms with calls.

ghost use Rattle.std.specs.Prelude.{◌≡◌, ◌↔◌, IsTrue, IfOk, length, slice_get};
ghost use Rattle.block_forms.specs.Places.{Each, EachPair};
ghost use Rattle.call_forms.specs.Called.{ParametersOf, ReadsOwn, BlockCalled, Called};
ghost use Rattle.call_forms.specs.Columned.{Columned};
ghost use Rattle.call_forms.specs.Merged.{Merged};

use crate::calls::{block_called, entry_parameters};
use crate::columns::all_places;
use crate::labels::{all_call_blocks, all_once, call_counts, label_counts, others_merge};
use crate::numbers::{all_below, stands_in};
use crate::reads::{has_parameters, reads_own};
use away_types::{CheckedFunction, Slot};
use away_values::NoMemory;
use block_forms::{Goto, Ssa, SsaBlock};
use call_forms::{Anf, AnfBlock, Tail};
use std::alloc::Global;

fn all_have_parameters(names: usize, blocks: &[AnfBlock]) -> bool
    ensures { IsTrue result ↔ Each (λ x. ParametersOf names x) blocks.now }
{
    blocks.iter().all(|x| has_parameters(names, x))
}

fn all_read_own(blocks: &[AnfBlock]) -> bool
    ensures { IsTrue result ↔ Each (λ x. ReadsOwn x) blocks.now }
{
    blocks.iter().all(|x| reads_own(x))
}

fn blocks_called(ssa: &Ssa, anf: &Anf, ys: &[SsaBlock], xs: &[AnfBlock]) -> bool
    requires { length ys.now ≡ length xs.now }
    ensures { IsTrue result ↔ EachPair (λ b y x. BlockCalled ssa.now anf.now b y x) ys.now xs.now }
{
    for b in 0..ys.len() {
        if !block_called(ssa, anf, b, &ys[b], &xs[b]) {
            return false;
        }
    }
    true
}

fn is_called(goto: &Goto, ssa: &Ssa, anf: &Anf) -> bool
    ensures { IsTrue result ↔ Called goto.now ssa.now anf.now }
{
    if anf.blocks.len() != ssa.blocks.len() {
        return false;
    }
    if !all_have_parameters(ssa.names.len(), anf.blocks.as_slice()) {
        return false;
    }
    if !all_read_own(anf.blocks.as_slice()) {
        return false;
    }
    if !blocks_called(ssa, anf, ssa.blocks.as_slice(), anf.blocks.as_slice()) {
        return false;
    }
    entry_parameters(ssa, anf, goto.entry)
}

/// Whether the normal form is that of the SSA form.
pub fn check_called(_alloc: Global, goto: &Goto, ssa: &Ssa, anf: &Anf) -> Result<bool, NoMemory>
    ensures { IfOk result (λ yes. IsTrue yes ↔ Called goto.now ssa.now anf.now) }
{
    Ok(is_called(goto, ssa, anf))
}

/// Whether the labels of the tail form are distinct blocks, and every other block may be merged into the block that calls it.
pub fn check_merged(alloc: Global, goto: &Goto, anf: &Anf, tail: &Tail) -> Result<bool, NoMemory>
    ensures { IfOk result (λ yes. IsTrue yes ↔ Merged goto.now anf.now tail.now) }
{
    if !all_below(anf.blocks.len(), tail.labels.as_slice()) {
        return Ok(false);
    }
    if !stands_in(tail.labels.as_slice(), goto.entry) {
        return Ok(false);
    }
    if !all_call_blocks(anf.blocks.as_slice()) {
        return Ok(false);
    }
    let labels = label_counts(alloc, anf.blocks.len(), tail.labels.as_slice())?;
    if !all_once(&labels, tail.labels.as_slice()) {
        return Ok(false);
    }
    let calls = call_counts(alloc, anf.blocks.as_slice())?;
    Ok(others_merge(goto, anf, tail, &labels, &calls))
}

pub(crate) fn is_columned(slots: &[Slot], ssa: &Ssa, anf: &Anf, tail: &Tail) -> bool
    ensures { IsTrue result ↔ Columned slots.now ssa.now anf.now tail.now }
{
    if tail.places.len() != tail.labels.len() {
        return false;
    }
    all_places(
        slots,
        ssa.names.as_slice(),
        tail.columns.as_slice(),
        anf.blocks.as_slice(),
        tail.labels.as_slice(),
        tail.places.as_slice(),
    )
}

/// Whether each label has a column of its type for each parameter.
pub fn check_columned(f: &CheckedFunction, ssa: &Ssa, anf: &Anf, tail: &Tail) -> bool
    ensures { IsTrue result ↔ Columned f.now.slots ssa.now anf.now tail.now }
{
    is_columned(f.slots.as_slice(), ssa, anf, tail)
}
