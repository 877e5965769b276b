//! The checks of what a block of the normal form reads.

ghost use Rattle.std.specs.Prelude.{◌≡◌, ℕ, ◌<◌, ◌↔◌, IsTrue, List};
ghost use Rattle.block_forms.specs.Places.{Each};
ghost use Rattle.call_forms.specs.Called.{Among, ParametersOf, with_assigned, own_names, AssignmentReads, EndReads, ReadsOwn};

use crate::numbers::{all_below, all_differ, all_stand_in, stands_in};
use block_forms::Term;
use call_forms::{AnfBlock, CallEnd};

/// The parameters are distinct names of the form.
pub(crate) fn has_parameters(names: usize, block: &AnfBlock) -> bool
    ensures { IsTrue result ↔ ParametersOf names block.now }
{
    if !all_below(names, block.params.as_slice()) {
        return false;
    }
    all_differ(block.params.as_slice())
}

/// Whether the name is a parameter or the assigned name.
fn is_own(set: &Option<(u32, Term)>, params: &[u32], n: u32) -> bool
    ensures { IsTrue result ↔ Among (with_assigned set.now params.now) n }
{
    match set {
        None => stands_in(params, n),
        Some(assigned) => {
            if assigned.0 == n {
                return true;
            }
            stands_in(params, n)
        }
    }
}

fn all_own(set: &Option<(u32, Term)>, params: &[u32], names: &[u32]) -> bool
    ensures { IsTrue result ↔ Each (Among (with_assigned set.now params.now)) names.now }
{
    names.iter().all(|n| is_own(set, params, *n))
}

/// What the assignment reads are parameters.
fn set_reads(params: &[u32], set: &Option<(u32, Term)>) -> bool
    ensures { IsTrue result ↔ AssignmentReads params.now set.now }
{
    match set {
        None => true,
        Some(assigned) => all_stand_in(params, assigned.1.names.as_slice()),
    }
}

/// What the end reads and passes are the block's own names.
fn end_reads(set: &Option<(u32, Term)>, params: &[u32], end: &CallEnd) -> bool
    ensures { IsTrue result ↔ EndReads (with_assigned set.now params.now) end.now }
{
    match end {
        CallEnd::Go(call) => all_own(set, params, call.args.as_slice()),
        CallEnd::Pick(test, yes, no) => {
            if !all_own(set, params, test.names.as_slice()) {
                return false;
            }
            if !all_own(set, params, yes.args.as_slice()) {
                return false;
            }
            all_own(set, params, no.args.as_slice())
        }
        CallEnd::Return(term) => all_own(set, params, term.names.as_slice()),
        CallEnd::Fail(_) => true,
    }
}

/// The block reads its own names alone.
pub(crate) fn reads_own(block: &AnfBlock) -> bool
    ensures { IsTrue result ↔ ReadsOwn block.now }
{
    if !set_reads(block.params.as_slice(), &block.set) {
        return false;
    }
    end_reads(&block.set, block.params.as_slice(), &block.end)
}
