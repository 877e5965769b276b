//! The checks of labels, over tables of how often blocks are labels and are called.

ghost use Rattle.std.specs.Prelude.{◌≡◌, ℕ, ◌+◌, ◌<◌, ◌≤◌, ◌↔◌, IsTrue, IfOk, List, None, Option, length, get_or, min, slice_get};
ghost use Rattle.block_forms.specs.Places.{Each};
ghost use Rattle.call_forms.specs.Forms.{label_of};
ghost use Rattle.block_forms.specs.Runs.{is_head};
ghost use Rattle.call_forms.specs.Merged.{AtCalls, MayMerge, end_calls, calls_to};
ghost use Rattle.call_check.specs.Counts.{times, CountsOf, CountedOnce};

use block_forms::{Block, Goto};
use call_forms::{Anf, AnfBlock, CallEnd, Tail};
use std::alloc::{AllocError, Global};

/// No number is counted.
fn no_counts(alloc: Global, n: usize) -> Result<Vec<u8>, AllocError>
    ensures { IfOk result (λ table. CountsOf n (λ b. 0) table.items) }
{
    let mut table = Vec::new(alloc);
    for _number in 0..n {
        table.push(0)?;
    }
    Ok(table)
}

/// What the table has; nothing behind its end.
fn seen(table: &[u8], b: usize) -> u8
    ensures { result ≡ get_or table.now b 0 }
{
    if b < table.len() { table[b] } else { 0 }
}

/// Counts a number of the table once more.
fn count(table: &mut [u8], b: u32)
    ensures { CountedOnce b table.old table.new }
{
    let at = b as usize;
    if at < table.len() && table[at] < 2 {
        table[at] += 1;
    }
}

/// How often each block is a label.
pub(crate) fn label_counts(
    alloc: Global,
    blocks: usize,
    labels: &[u32],
) -> Result<Vec<u8>, AllocError>
    ensures { IfOk result (λ table. CountsOf blocks (times labels.now) table.items) }
{
    let mut table = no_counts(alloc, blocks)?;
    for label in labels {
        count(&mut table, *label);
    }
    Ok(table)
}

/// Counts the calls of an end.
fn count_calls(table: &mut [u8], end: &CallEnd)
    ensures sized { length table.new ≡ length table.old }
    ensures each { (b : ℕ) → b < length table.old
        → min 2 (get_or table.new b 0) ≡ min 2 (get_or table.old b 0 + end_calls b end.now) }
{
    match end {
        CallEnd::Go(call) => count(table, call.target),
        CallEnd::Pick(_, yes, no) => {
            count(table, yes.target);
            count(table, no.target);
        }
        CallEnd::Return(_) => {}
        CallEnd::Fail(_) => {}
    }
}

/// How many calls go to each block.
pub(crate) fn call_counts(alloc: Global, blocks: &[AnfBlock]) -> Result<Vec<u8>, AllocError>
    ensures { IfOk result (λ table. CountsOf (length blocks.now)
        (λ b. calls_to b blocks.now) table.items) }
{
    let mut table = no_counts(alloc, blocks.len())?;
    for block in blocks {
        count_calls(&mut table, &block.end);
    }
    Ok(table)
}

fn is_once(table: &[u8], b: u32) -> bool
    ensures { IsTrue result ↔ (get_or table.now b 0 ≤ 1) }
{
    seen(table, b as usize) <= 1
}

/// Each label is counted once.
pub(crate) fn all_once(table: &[u8], labels: &[u32]) -> bool
    ensures { IsTrue result ↔ Each (λ b. get_or table.now b 0 ≤ 1) labels.now }
{
    labels.iter().all(|b| is_once(table, *b))
}

fn is_head(blocks: &[Block], b: usize) -> bool
    ensures { result ≡ is_head (slice_get blocks.now b) }
{
    match blocks.get(b) {
        None => false,
        Some(block) => block.head,
    }
}

/// The block is no head, and at most one call goes to it.
fn may_merge(goto: &Goto, anf: &Anf, calls: &[u8], b: usize) -> bool
    requires counted { CountsOf (length anf.now.blocks) (λ b. calls_to b anf.now.blocks) calls.now }
    requires of_form { b < length anf.now.blocks }
    ensures { IsTrue result ↔ MayMerge goto.now anf.now b }
{
    if is_head(goto.blocks.as_slice(), b) {
        return false;
    }
    seen(calls, b) <= 1
}

/// The block is a label, or may be merged.
fn label_or_merged(
    goto: &Goto,
    anf: &Anf,
    tail: &Tail,
    labels: &[u8],
    calls: &[u8],
    b: usize,
) -> bool
    requires labels { CountsOf (length anf.now.blocks) (times tail.now.labels) labels.now }
    requires calls { CountsOf (length anf.now.blocks) (λ b. calls_to b anf.now.blocks) calls.now }
    requires of_form { b < length anf.now.blocks }
    ensures { IsTrue result ↔ (label_of tail.now b ≡ None → MayMerge goto.now anf.now b) }
{
    if seen(labels, b) > 0 {
        return true;
    }
    may_merge(goto, anf, calls, b)
}

/// Each block that is no label may be merged.
pub(crate) fn others_merge(goto: &Goto, anf: &Anf, tail: &Tail, labels: &[u8], calls: &[u8]) -> bool
    requires labels { CountsOf (length anf.now.blocks) (times tail.now.labels) labels.now }
    requires calls { CountsOf (length anf.now.blocks) (λ b. calls_to b anf.now.blocks) calls.now }
    ensures { IsTrue result ↔ ((b : ℕ) → b < length anf.now.blocks → label_of tail.now b ≡ None
        → MayMerge goto.now anf.now b) }
{
    for b in 0..anf.blocks.len() {
        if !label_or_merged(goto, anf, tail, labels, calls, b) {
            return false;
        }
    }
    true
}

/// Each call of the end is of a block.
fn calls_blocks(blocks: usize, end: &CallEnd) -> bool
    ensures { IsTrue result ↔ AtCalls (λ b. b < blocks) end.now }
{
    match end {
        CallEnd::Go(call) => (call.target as usize) < blocks,
        CallEnd::Pick(_, yes, no) => {
            if (yes.target as usize) >= blocks {
                return false;
            }
            (no.target as usize) < blocks
        }
        CallEnd::Return(_) => true,
        CallEnd::Fail(_) => true,
    }
}

pub(crate) fn all_call_blocks(blocks: &[AnfBlock]) -> bool
    ensures { IsTrue result ↔ Each (λ x. AtCalls (λ b. b < length blocks.now) x.end) blocks.now }
{
    blocks.iter().all(|x| calls_blocks(blocks.len(), &x.end))
}
