//! How many calls go to each block.

ghost use Rattle.std.specs.Prelude.{◌≡◌, length, IfOk};
ghost use Rattle.std.specs.Option.{option_copied};
ghost use Rattle.tail_rec.specs.Callers as spec;

use block_forms::Goto;
use call_forms::{AnfBlock, CallEnd};
use std::alloc::{AllocError, Global};

/// How many calls go to a block.
#[derive(Clone, Copy, Debug, PartialEq, Eq)]
pub(crate) enum Callers {
    No,
    One,
    Several,
}

fn one_more(callers: Callers) -> Callers
    ensures { result ≡ spec.one_more callers }
{
    match callers {
        Callers::No => Callers::One,
        Callers::One | Callers::Several => Callers::Several,
    }
}

fn count_call(table: &mut [Callers], target: u32)
    ensures { table.new ≡ spec.with_call target table.old }
{
    let at = target as usize;
    if at < table.len() {
        table[at] = one_more(table[at]);
    }
}

fn count_end(table: &mut [Callers], end: &CallEnd)
    ensures { table.new ≡ spec.with_end end.now table.old }
{
    match end {
        CallEnd::Go(call) => count_call(table, call.target),
        CallEnd::Pick(_, yes, no) => {
            count_call(table, yes.target);
            count_call(table, no.target);
        }
        CallEnd::Return(_) => {}
        CallEnd::Fail(_) => {}
    }
}

/// How many calls go to each block.
pub(crate) fn callers_of(alloc: Global, blocks: &[AnfBlock]) -> Result<Vec<Callers>, AllocError>
    ensures { IfOk result (λ v. v.items ≡ spec.callers_of blocks.now) }
{
    let mut table = vec![in alloc; Callers::No; blocks.len()]?;
    for block in blocks {
        count_end(&mut table, &block.end);
    }
    Ok(table)
}

fn is_head(goto: &Goto, block: u32) -> bool
    ensures { result ≡ spec.is_head_of goto.now block }
{
    match goto.blocks.get(block as usize) {
        None => false,
        Some(found) => found.head,
    }
}

fn has_several(callers: &[Callers], block: u32) -> bool
    ensures { result ≡ spec.has_several callers.now block }
{
    match callers.get(block as usize) {
        None => false,
        Some(found) => matches!(found, Callers::Several),
    }
}

/// Whether a block is a label whatever its depth: the entry, a head, and a block with several calls to it.
pub(crate) fn is_firm(goto: &Goto, callers: &[Callers], block: u32) -> bool
    ensures { result ≡ spec.is_firm goto.now callers.now block }
{
    block == goto.entry || is_head(goto, block) || has_several(callers, block)
}
