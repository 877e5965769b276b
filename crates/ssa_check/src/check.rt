//! The check of the relation between a goto form and its SSA form.

ghost use Rattle.std.specs.Prelude.{◌≡◌, ◌↔◌, IsTrue, map, length, slice_get};
ghost use Rattle.block_forms.specs.Named.{MapOfSlots, MapOfParameters, EntryHas, BlockRenamed, PhisOfPredecessors, EdgesFed, Named};
ghost use Rattle.block_forms.specs.Places.{Each, EachAt, EachPair};
ghost use Rattle.ssa_check.specs.Naming.{setting_of, BoundsIn};

use crate::edges::{edges_fed, phis_of_block};
use crate::maps::{map_of_parameters, map_of_slots};
use crate::names::names_of_slots;
use crate::terms::block_renamed;
use away_types::CheckedFunction;
use block_forms::{Block, Goto, Ssa, SsaBlock};

fn maps_of_slots(names: &[u32], blocks: &[SsaBlock]) -> bool
    ensures { IsTrue result ↔ Each (λ y. MapOfSlots names.now y) blocks.now }
{
    blocks.iter().all(|y| map_of_slots(names, y))
}

fn entry_has_parameters(params: usize, blocks: &[SsaBlock], entry: u32) -> bool
    ensures { IsTrue result ↔ EntryHas (MapOfParameters params) (slice_get blocks.now entry) }
{
    match blocks.get(entry as usize) {
        None => false,
        Some(y) => map_of_parameters(params, y),
    }
}

fn blocks_renamed(names: &[u32], xs: &[Block], ys: &[SsaBlock]) -> bool
    requires { length xs.now ≡ length ys.now }
    ensures { IsTrue result ↔ EachPair (λ b x y. BlockRenamed names.now x y) xs.now ys.now }
{
    for b in 0..xs.len() {
        if !block_renamed(names, &xs[b], &ys[b]) {
            return false;
        }
    }
    true
}

fn operands_match(xs: &[Block], ys: &[SsaBlock]) -> bool
    ensures { IsTrue result ↔ EachAt (λ c y. PhisOfPredecessors xs.now c y) ys.now }
{
    ys.iter().enumerate().all(|(c, y)| phis_of_block(xs, c, y))
}

fn all_edges_fed(xs: &[Block], ys: &[SsaBlock]) -> bool
    requires { length xs.now ≡ length ys.now }
    ensures { IsTrue result ↔ EachPair (λ b x y. EdgesFed ys.now b x y) xs.now ys.now }
{
    for b in 0..xs.len() {
        if !edges_fed(ys, b, &xs[b], &ys[b]) {
            return false;
        }
    }
    true
}

/// Whether the SSA form is a naming of the goto form of a function with so many slots and parameters.
pub(crate) fn is_named(slots: usize, params: usize, goto: &Goto, ssa: &Ssa) -> bool
    ensures { IsTrue result ↔ Named slots params goto.now ssa.now }
{
    if ssa.blocks.len() != goto.blocks.len() {
        return false;
    }
    if !names_of_slots(slots, params, ssa) {
        return false;
    }
    if !maps_of_slots(ssa.names.as_slice(), ssa.blocks.as_slice()) {
        return false;
    }
    if !entry_has_parameters(params, ssa.blocks.as_slice(), goto.entry) {
        return false;
    }
    if !blocks_renamed(
        ssa.names.as_slice(),
        goto.blocks.as_slice(),
        ssa.blocks.as_slice(),
    ) {
        return false;
    }
    if !operands_match(goto.blocks.as_slice(), ssa.blocks.as_slice()) {
        return false;
    }
    all_edges_fed(goto.blocks.as_slice(), ssa.blocks.as_slice())
}

/// Whether the SSA form is that of the goto form of the function.
pub fn check_named(f: &CheckedFunction, g: &Goto, s: &Ssa) -> bool
    ensures exact { IsTrue result ↔ Named (length f.now.slots)
        (length f.now.function.params) g.now s.now }
    ensures bounds { IsTrue result → BoundsIn (setting_of f.now.function f.now.slots g.now) s.now }
{
    is_named(f.slots.len(), f.function.params.len(), g, s)
}
