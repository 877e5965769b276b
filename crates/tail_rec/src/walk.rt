//! The walk from labels along calls: every block that it reaches, and how many tests lie on the way.

ghost use Rattle.std.specs.Prelude.{◌≡◌, ◌++◌, ◌<◌, ◌≤◌, ◌^◌, length, IfOk, OnOk};
ghost use Rattle.std.specs.Option.{option_copied};
ghost use Rattle.tail_rec.specs.Callers.{is_firm};
ghost use Rattle.tail_rec.specs.Walk as spec;

use crate::callers::{Callers, is_firm};
use block_forms::Goto;
use call_forms::{AnfBlock, CallEnd};
use std::alloc::{AllocError, Global};

/// A block that is reached, with its depth, and whether it is a label.
#[derive(Clone, Copy, Debug, PartialEq, Eq)]
pub(crate) struct Reached {
    pub block: u32,
    pub depth: u32,
    pub is_label: bool,
}

/// The labels whatever their depth, in order.
fn firm_labels(
    alloc: Global,
    goto: &Goto,
    callers: &[Callers],
    count: usize,
) -> Result<Vec<Reached>, AllocError>
    requires { count ≤ 2 ^ 32 }
    ensures { IfOk result (λ v. v.items ≡ spec.firm_labels (is_firm goto.now callers.now) count) }
{
    let mut reached = Vec::new(alloc);
    for at in 0..count {
        let block = at as u32;
        if is_firm(goto, callers, block) {
            reached.push(Reached {
                block,
                depth: 0,
                is_label: true,
            })?;
        }
    }
    Ok(reached)
}

/// Goes on with a block behind a jump.
fn reach(
    reached: &mut Vec<Reached>,
    goto: &Goto,
    callers: &[Callers],
    block: u32,
    depth: u32,
) -> Result<(), AllocError>
    ensures { OnOk result (reached.new.items ≡ reached.old.items
        ++ spec.followed (is_firm goto.now callers.now) depth block) }
{
    if is_firm(goto, callers, block) {
        return Ok(());
    }
    reached.push(Reached {
        block,
        depth,
        is_label: false,
    })?;
    Ok(())
}

/// A block behind a test, where the block that tests has this depth. With sixteen tests on the way it is a label.
fn behind_test(block: u32, depth: u32) -> Reached
    ensures { result ≡ spec.behind_test block depth }
{
    if depth < 15 {
        Reached {
            block,
            depth: depth + 1,
            is_label: false,
        }
    } else {
        Reached {
            block,
            depth: 0,
            is_label: true,
        }
    }
}

/// Goes on with an arm of a test.
fn reach_arm(
    reached: &mut Vec<Reached>,
    goto: &Goto,
    callers: &[Callers],
    block: u32,
    depth: u32,
) -> Result<(), AllocError>
    ensures { OnOk result (reached.new.items ≡ reached.old.items
        ++ spec.picked (is_firm goto.now callers.now) depth block) }
{
    if is_firm(goto, callers, block) {
        return Ok(());
    }
    reached.push(behind_test(block, depth))?;
    Ok(())
}

/// Goes on with what an end calls.
fn reach_end(
    reached: &mut Vec<Reached>,
    goto: &Goto,
    callers: &[Callers],
    end: &CallEnd,
    depth: u32,
) -> Result<(), AllocError>
    ensures { OnOk result (reached.new.items ≡ reached.old.items
        ++ spec.after_end (is_firm goto.now callers.now) depth end.now) }
{
    match end {
        CallEnd::Go(call) => reach(reached, goto, callers, call.target, depth),
        CallEnd::Pick(_, yes, no) => {
            reach_arm(reached, goto, callers, yes.target, depth)?;
            reach_arm(reached, goto, callers, no.target, depth)
        }
        CallEnd::Return(_) => Ok(()),
        CallEnd::Fail(_) => Ok(()),
    }
}

/// Goes on behind a block that is reached.
fn reach_next(
    reached: &mut Vec<Reached>,
    goto: &Goto,
    callers: &[Callers],
    blocks: &[AnfBlock],
    from: Reached,
) -> Result<(), AllocError>
    ensures { OnOk result (reached.new.items ≡ reached.old.items
        ++ spec.after (is_firm goto.now callers.now) blocks.now from) }
{
    match blocks.get(from.block as usize) {
        None => Ok(()),
        Some(block) => reach_end(reached, goto, callers, &block.end, from.depth),
    }
}

/// All blocks that calls reach from labels, each after the block that calls it.
pub(crate) fn walk_calls(
    alloc: Global,
    goto: &Goto,
    callers: &[Callers],
    blocks: &[AnfBlock],
) -> Result<Vec<Reached>, AllocError>
    requires { length blocks.now ≤ 2 ^ 32 }
    ensures { IfOk result (λ v. v.items ≡ spec.walked (is_firm goto.now callers.now) blocks.now
        (length blocks.now)) }
{
    let mut reached = firm_labels(alloc, goto, callers, blocks.len())?;
    for at in 0..blocks.len() {
        if at < reached.len() {
            let from = reached[at];
            reach_next(&mut reached, goto, callers, blocks, from)?;
        }
    }
    Ok(reached)
}
