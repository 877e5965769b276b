//! Whether a run of a goto form may come to a fault.

ghost use Rattle.std.specs.Prelude.{◌≡◌, ◌<◌, IfOk, IfSome, length, set, true};
ghost use Rattle.inline_calls.specs.Fails as spec;
ghost use Rattle.inline_calls.specs.Marks as marks_of;

use block_forms::{Block, End, Goto};
use std::alloc::{AllocError, Global};

/// The block is one of the form, and isn't marked.
fn is_new(marks: &[bool], b: u32) -> bool
    ensures { result ≡ marks_of.is_new marks.now b }
{
    let b = b as usize;
    if b < marks.len() { !marks[b] } else { false }
}

/// A block that isn't marked to which the end leads.
fn new_target(marks: &[bool], end: &End) -> Option<u32>
    ensures { result ≡ marks_of.new_target marks.now end.now }
{
    match end {
        End::Jump(c) => { if is_new(marks, *c) { Some(*c) } else { None } }
        End::Branch(_, c, d) => {
            if is_new(marks, *c) {
                return Some(*c);
            }
            if is_new(marks, *d) { Some(*d) } else { None }
        }
        End::Return(_) => None,
        End::Fail(_) => None,
    }
}

/// A block that isn't marked to which a marked one leads.
fn next_block(blocks: &[Block], marks: &[bool]) -> Option<u32>
    requires { length marks.now ≡ length blocks.now }
    ensures some { IfSome result (marks_of.IsNext blocks.now marks.now) }
    ensures none { result ≡ None → marks_of.IsClosed blocks.now marks.now }
{
    for b in 0..blocks.len() {
        if marks[b] {
            if let Some(c) = new_target(marks, &blocks[b].end) {
                return Some(c);
            }
        }
    }
    None
}

fn mark(marks: &mut [bool], b: u32)
    requires { b < length marks.old }
    ensures { marks.new ≡ set marks.old b true }
{
    marks[b as usize] = true;
}

/// Marks the blocks to which marked ones lead, until none is left.
fn spread(blocks: &[Block], marks: &mut [bool])
    requires { length marks.old ≡ length blocks.now }
    ensures { marks_of.IsSpread blocks.now marks.old marks.new }
{
    while let Some(b) = next_block(blocks, marks) {
        mark(marks, b);
    }
}

fn unmarked(alloc: Global, blocks: &[Block]) -> Result<Vec<bool>, AllocError>
    ensures { IfOk result (λ marks. marks_of.AreUnmarked (length blocks.now) marks.items) }
{
    let mut marks = Vec::new(alloc);
    for _block in blocks {
        marks.push(false)?;
    }
    Ok(marks)
}

fn is_fail(end: &End) -> bool
    ensures { result ≡ marks_of.is_fail end.now }
{
    match end {
        End::Fail(_) => true,
        End::Jump(_) | End::Branch(_, _, _) | End::Return(_) => false,
    }
}

/// A marked block fails.
fn some_fails(blocks: &[Block], marks: &[bool]) -> bool
    requires { length marks.now ≡ length blocks.now }
    ensures { marks_of.TellsMarkedFail blocks.now marks.now result }
{
    for b in 0..blocks.len() {
        if marks[b] && is_fail(&blocks[b].end) {
            return true;
        }
    }
    false
}

/// Marks the blocks that the entry reaches, where none is marked before.
fn mark_reached(goto: &Goto, marks: &mut [bool])
    requires { marks_of.AreUnmarked (length goto.now.blocks) marks.old }
    ensures { marks_of.AreReached goto.now marks.new }
{
    if (goto.entry as usize) < marks.len() {
        mark(marks, goto.entry);
    }
    spread(goto.blocks.as_slice(), marks);
}

/// A mark for each block, set where the entry reaches it.
pub(crate) fn reached(alloc: Global, goto: &Goto) -> Result<Vec<bool>, AllocError>
    ensures { IfOk result (λ marks. marks_of.AreReached goto.now marks.items) }
{
    let mut marks = unmarked(alloc, goto.blocks.as_slice())?;
    mark_reached(goto, &mut marks);
    Ok(marks)
}

/// A block that jumps and branches reach from the entry fails.
pub(crate) fn may_fail(alloc: Global, goto: &Goto) -> Result<bool, AllocError>
    ensures { IfOk result (spec.TellsFails goto.now) }
{
    let marks = reached(alloc, goto)?;
    Ok(some_fails(goto.blocks.as_slice(), &marks))
}
