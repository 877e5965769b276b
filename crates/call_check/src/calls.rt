//! The checks of calls against the ways of the SSA form.

ghost use Rattle.std.specs.Prelude.{◌≡◌, ℕ, ◌↔◌, IsTrue, List, slice_get};
ghost use Rattle.block_forms.specs.Places.{Each};
ghost use Rattle.call_forms.specs.Called.{PassesNames, Passes, CallOf, EndCalled, BlockCalled, HasName, EntryParameters};

use crate::sources::takes;
use block_forms::{End, Phi, Ssa, SsaBlock, same_assignment, same_term};
use call_forms::{Anf, AnfBlock, Call, CallEnd};

/// One name for each parameter: what the parameter takes from block b.
fn passes_names(phis: &[Phi], b: usize, params: &[u32], args: &[u32]) -> bool
    ensures { IsTrue result ↔ PassesNames phis.now b params.now args.now }
{
    if args.len() != params.len() {
        return false;
    }
    params
        .iter()
        .zip(args)
        .all(|(name, taken)| takes(phis, b, *name, *taken))
}

fn passes(b: usize, ys: &[SsaBlock], xs: &[AnfBlock], c: u32, args: &[u32]) -> bool
    ensures { IsTrue result ↔ Passes b (slice_get ys.now c) (slice_get xs.now c) args.now }
{
    match ys.get(c as usize) {
        None => false,
        Some(y) => match xs.get(c as usize) {
            None => false,
            Some(x) => passes_names(y.phis.as_slice(), b, x.params.as_slice(), args),
        },
    }
}

/// The call stands for the way from block b to block c.
fn is_call_of(ssa: &Ssa, anf: &Anf, b: usize, c: u32, call: &Call) -> bool
    ensures { IsTrue result ↔ CallOf ssa.now anf.now b c call.now }
{
    if call.target != c {
        return false;
    }
    passes(
        b,
        ssa.blocks.as_slice(),
        anf.blocks.as_slice(),
        c,
        call.args.as_slice(),
    )
}

/// The same end, with calls in place of ways.
fn end_called(ssa: &Ssa, anf: &Anf, b: usize, y: &End, x: &CallEnd) -> bool
    ensures { IsTrue result ↔ EndCalled ssa.now anf.now b y.now x.now }
{
    match y {
        End::Jump(c) => match x {
            CallEnd::Go(call) => is_call_of(ssa, anf, b, *c, call),
            _ => false,
        },
        End::Branch(t, c, d) => match x {
            CallEnd::Pick(u, yes, no) => {
                if !same_term(u, t) {
                    return false;
                }
                if !is_call_of(ssa, anf, b, *c, yes) {
                    return false;
                }
                is_call_of(ssa, anf, b, *d, no)
            }
            _ => false,
        },
        End::Return(t) => match x {
            CallEnd::Return(u) => same_term(u, t),
            _ => false,
        },
        End::Fail(c) => match x {
            CallEnd::Fail(d) => *d == *c,
            _ => false,
        },
    }
}

pub(crate) fn block_called(ssa: &Ssa, anf: &Anf, b: usize, y: &SsaBlock, x: &AnfBlock) -> bool
    ensures { IsTrue result ↔ BlockCalled ssa.now anf.now b y.now x.now }
{
    if !same_assignment(&x.set, &y.set) {
        return false;
    }
    end_called(ssa, anf, b, &y.end, &x.end)
}

/// Whether the map has the name.
fn has_name(y: &SsaBlock, n: u32) -> bool
    ensures { IsTrue result ↔ HasName y.now n }
{
    for pair in y.map.as_slice() {
        if pair.1 == n {
            return true;
        }
    }
    false
}

fn has_names(y: &SsaBlock, params: &[u32]) -> bool
    ensures { IsTrue result ↔ Each (HasName y.now) params.now }
{
    params.iter().all(|n| has_name(y, *n))
}

/// The entry's parameters stand in the entry's map.
pub(crate) fn entry_parameters(ssa: &Ssa, anf: &Anf, entry: u32) -> bool
    ensures { IsTrue result ↔ EntryParameters (slice_get ssa.now.blocks entry)
        (slice_get anf.now.blocks entry) }
{
    match ssa.blocks.as_slice().get(entry as usize) {
        None => false,
        Some(y) => match anf.blocks.as_slice().get(entry as usize) {
            None => false,
            Some(x) => has_names(y, x.params.as_slice()),
        },
    }
}
