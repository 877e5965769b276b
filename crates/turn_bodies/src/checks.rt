//! The tests of labels and of the bodies behind them.

ghost use Rattle.std.specs.Prelude.{◌≡◌, ℕ, ◌<◌, ◌≤◌, ◌^◌, true, false, IsTrue, IfOk, None, length, slice_get};
ghost use Rattle.block_forms.specs.Places.{Each, Distinct, NoneBefore};
ghost use Rattle.block_forms.specs.Runs.{is_head};
ghost use Rattle.call_forms.specs.Bodies.{body_of};
ghost use Rattle.call_forms.specs.Called.{itself};
ghost use Rattle.call_forms.specs.Forms.{label_of};
ghost use Rattle.call_forms.specs.Merged.{AtCalls};
ghost use Rattle.turn_bodies.specs.Testing.{closed, HeadsAreLabels, Passes};
ghost use Rattle.turn_bodies.specs.Trees.{as_body};

use crate::bodies::{Body, body_of};
use crate::places::place_of;
use away_values::NoMemory;
use block_forms::{Block, Goto};
use call_forms::{Anf, AnfBlock, CallEnd, Tail};
use std::alloc::Global;

/// Whether each number is below a bound.
pub(crate) fn all_below(bound: usize, numbers: &[u32]) -> bool
    ensures { IsTrue result → Each (λ n. n < bound) numbers.now }
{
    numbers.iter().all(|n| (*n as usize) < bound)
}

/// Whether no number before the place is this one.
fn none_before(numbers: &[u32], place: usize, n: u32) -> bool
    ensures { IsTrue result → NoneBefore itself numbers.now place n }
{
    numbers
        .iter()
        .enumerate()
        .all(|(j, m)| j >= place || *m != n)
}

/// Whether no number stands at two places.
fn all_differ(numbers: &[u32]) -> bool
    ensures { IsTrue result → Distinct itself numbers.now }
{
    numbers
        .iter()
        .enumerate()
        .all(|(i, n)| none_before(numbers, i, *n))
}

fn is_head(blocks: &[Block], b: usize) -> bool
    ensures { result ≡ is_head (slice_get blocks.now b) }
{
    match blocks.get(b) {
        None => false,
        Some(block) => block.head,
    }
}

/// Whether the block is a label or no head.
fn label_or_no_head(goto: &Goto, tail: &Tail, b: usize) -> bool
    requires { b < 2 ^ 32 }
    ensures { IsTrue result → label_of tail.now b ≡ None
        → is_head (slice_get goto.now.blocks b) ≡ false }
{
    match place_of(tail.labels.as_slice(), b as u32) {
        Some(_) => true,
        None => !is_head(goto.blocks.as_slice(), b),
    }
}

/// Whether each head is a label.
fn heads_are_labels(goto: &Goto, anf: &Anf, tail: &Tail) -> bool
    requires { length anf.now.blocks ≤ 2 ^ 32 }
    ensures { IsTrue result → HeadsAreLabels goto.now anf.now tail.now }
{
    for b in 0..anf.blocks.len() {
        if !label_or_no_head(goto, tail, b) {
            return false;
        }
    }
    true
}

/// Whether each call of the end is of a block.
fn calls_blocks(blocks: usize, end: &CallEnd) -> bool
    ensures { IsTrue result → AtCalls (λ b. b < blocks) end.now }
{
    match end {
        CallEnd::Go(call) => (call.target as usize) < blocks,
        CallEnd::Pick(_, yes, no) => {
            if (yes.target as usize) >= blocks {
                return false;
            }
            (no.target as usize) < blocks
        }
        CallEnd::Return(_) => true,
        CallEnd::Fail(_) => true,
    }
}

fn all_call_blocks(blocks: &[AnfBlock]) -> bool
    ensures { IsTrue result → Each (λ x. AtCalls (λ b. b < length blocks.now) x.end) blocks.now }
{
    blocks.iter().all(|x| calls_blocks(blocks.len(), &x.end))
}

/// Whether the tree is finite, and each call is of a label below the bound.
fn is_closed(body: &Body, bound: usize) -> bool
    ensures { result ≡ closed bound (as_body body.now) }
{
    match body {
        Body::Sets(_, _, rest) => is_closed(rest.get(), bound),
        Body::Enters(_, _, rest) => is_closed(rest.get(), bound),
        Body::Picks(_, yes, no) => is_closed(yes.get(), bound) && is_closed(no.get(), bound),
        Body::Returns(_) => true,
        Body::Fails(_) => true,
        Body::Calls(label, _, _) => *label < bound,
        Body::Endless => false,
    }
}

fn has_closed(
    alloc: Global,
    anf: &Anf,
    tail: &Tail,
    block: u32,
    bound: usize,
) -> Result<bool, NoMemory>
    ensures { IfOk result (λ yes. yes ≡ closed bound (body_of anf.now tail.now block)) }
{
    let body = body_of(alloc, anf, tail, block)?;
    Ok(is_closed(&body, bound))
}

/// Whether the bodies of these labels are finite, and call labels below the bound.
fn all_closed(
    alloc: Global,
    anf: &Anf,
    tail: &Tail,
    labels: &[u32],
    bound: usize,
) -> Result<bool, NoMemory>
    ensures { IfOk result (λ yes. IsTrue yes
        → Each (λ b. closed bound (body_of anf.now tail.now b) ≡ true) labels.now) }
{
    for block in labels {
        if !has_closed(alloc, anf, tail, *block, bound)? {
            return Ok(false);
        }
    }
    Ok(true)
}

/// Whether the tail form is one for a query of turns, where so many of its labels are called.
pub(crate) fn passes(
    alloc: Global,
    goto: &Goto,
    anf: &Anf,
    tail: &Tail,
    bound: usize,
) -> Result<bool, NoMemory>
    requires { length anf.now.blocks ≤ 2 ^ 32 }
    ensures { IfOk result (λ yes. IsTrue yes → Passes goto.now anf.now tail.now bound) }
{
    if !all_differ(tail.labels.as_slice()) {
        return Ok(false);
    }
    if !heads_are_labels(goto, anf, tail) {
        return Ok(false);
    }
    if !all_call_blocks(anf.blocks.as_slice()) {
        return Ok(false);
    }
    if is_head(goto.blocks.as_slice(), goto.entry as usize) {
        return Ok(false);
    }
    all_closed(alloc, anf, tail, tail.labels.as_slice(), bound)
}
