//! The checks of names and of the places that set them.

ghost use Rattle.std.specs.Prelude.{◌≡◌, ℕ, ◌+◌, ◌<◌, ◌≤◌, ◌↔◌, IsTrue, Some, None, Option, slice_get, map, min, nat_eq};
ghost use Rattle.std.specs.List.{count_by};
ghost use Rattle.block_forms.specs.declared.forms.Phi.{Phi};
ghost use Rattle.block_forms.specs.Named.{assigns_to, phis_with_name, places_that_set, NamesOfSlots};
ghost use Rattle.block_forms.specs.Places.{Each};

use block_forms::{Phi, Ssa, SsaBlock, Term};

/// Each slot is one of the function's.
fn of_slots(slots: usize, names: &[u32]) -> bool
    ensures { IsTrue result ↔ Each (λ s. s < slots) names.now }
{
    names.iter().all(|slot| (*slot as usize) < slots)
}

/// Name k belongs to slot k.
fn is_parameter(names: &[u32], k: usize) -> bool
    ensures { IsTrue result ↔ (slice_get names.now k ≡ Some k) }
{
    match names.get(k) {
        None => false,
        Some(slot) => *slot as usize == k,
    }
}

/// The first names are the parameters in order.
fn parameters(params: usize, names: &[u32]) -> bool
    ensures { IsTrue result ↔ ((k : ℕ) → k < params → slice_get names.now k ≡ Some k) }
{
    for k in 0..params {
        if !is_parameter(names, k) {
            return false;
        }
    }
    true
}

fn phis_with_name(phis: &[Phi], name: usize) -> usize
    ensures { result ≡ phis_with_name phis.now name }
{
    phis.iter().filter(|phi| phi.name as usize == name).count()
}

fn assigns_to(set: &Option<(u32, Term)>, name: usize) -> usize
    ensures { result ≡ assigns_to set.now name }
{
    match set {
        None => 0,
        Some(a) => { if a.0 as usize == name { 1 } else { 0 } }
    }
}

/// How many places of the block set the name: 0, 1, or 2 where there are more.
fn places_in_block(block: &SsaBlock, name: usize) -> usize
    ensures { result ≡ min 2 (phis_with_name block.now.phis name + assigns_to block.now.set name) }
{
    let phis = phis_with_name(block.phis.as_slice(), name);
    if phis >= 2 {
        return 2;
    }
    phis + assigns_to(&block.set, name)
}

/// How many places set the name: 0, 1, or 2 where there are more.
fn places_that_set(blocks: &[SsaBlock], name: usize) -> usize
    ensures { result ≡ min 2 (places_that_set blocks.now name) }
{
    let mut count = 0;
    for block in blocks {
        count += places_in_block(block, name);
        if count >= 2 {
            return 2;
        }
    }
    count
}

fn is_unset(blocks: &[SsaBlock], name: usize) -> bool
    ensures { IsTrue result ↔ (places_that_set blocks.now name ≡ 0) }
{
    places_that_set(blocks, name) == 0
}

fn is_set_once(blocks: &[SsaBlock], name: usize) -> bool
    ensures { IsTrue result ↔ (places_that_set blocks.now name ≤ 1) }
{
    places_that_set(blocks, name) <= 1
}

fn parameters_unset(params: usize, blocks: &[SsaBlock]) -> bool
    ensures { IsTrue result ↔ ((k : ℕ) → k < params → places_that_set blocks.now k ≡ 0) }
{
    for k in 0..params {
        if !is_unset(blocks, k) {
            return false;
        }
    }
    true
}

fn set_once(names: usize, blocks: &[SsaBlock]) -> bool
    ensures { IsTrue result ↔ ((n : ℕ) → n < names → places_that_set blocks.now n ≤ 1) }
{
    for n in 0..names {
        if !is_set_once(blocks, n) {
            return false;
        }
    }
    true
}

/// Each name belongs to a slot; the parameters are the first names and are set nowhere; the others at one place at most.
pub(crate) fn names_of_slots(slots: usize, params: usize, ssa: &Ssa) -> bool
    ensures { IsTrue result ↔ NamesOfSlots slots params ssa.now }
{
    if !of_slots(slots, ssa.names.as_slice()) {
        return false;
    }
    if !parameters(params, ssa.names.as_slice()) {
        return false;
    }
    if !parameters_unset(params, ssa.blocks.as_slice()) {
        return false;
    }
    set_once(ssa.names.len(), ssa.blocks.as_slice())
}
