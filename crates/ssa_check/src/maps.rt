//! The checks of a block's map.

ghost use Rattle.std.specs.Prelude.{◌≡◌, ◌≢◌, ℕ, ◌<◌, ◌↔◌, IsTrue, Some, None, Option, slice_get, []};
ghost use Rattle.block_forms.specs.Forms.{at_key};
ghost use Rattle.block_forms.specs.Named.{Maps, MapOfSlots, MapOfParameters};
ghost use Rattle.block_forms.specs.Places.{Each, Distinct, NoneBefore, first_of};

use block_forms::{Phi, SsaBlock};

/// What the first pair with the key has.
pub(crate) fn at_key(pairs: &[(u32, u32)], key: usize) -> Option<u32>
    ensures { result ≡ at_key pairs.now key }
{
    for pair in pairs {
        if pair.0 as usize == key {
            return Some(pair.1);
        }
    }
    None
}

/// The slot of a name.
pub(crate) fn slot_of(names: &[u32], name: u32) -> Option<u32>
    ensures { result ≡ slice_get names.now name }
{
    names.get(name as usize).copied()
}

pub(crate) fn has_slot(names: &[u32], name: u32, slot: u32) -> bool
    ensures { IsTrue result ↔ (slice_get names.now name ≡ Some slot) }
{
    slot_of(names, name) == Some(slot)
}

/// Each name of the map belongs to its slot.
pub(crate) fn own_slots(names: &[u32], pairs: &[(u32, u32)]) -> bool
    ensures { IsTrue result ↔ Each (λ p. slice_get names.now p.1 ≡ Some p.0) pairs.now }
{
    pairs.iter().all(|pair| has_slot(names, pair.1, pair.0))
}

/// No pair before the place has the key.
fn none_before(pairs: &[(u32, u32)], place: usize, key: u32) -> bool
    ensures { IsTrue result ↔ NoneBefore first_of pairs.now place key }
{
    pairs
        .iter()
        .enumerate()
        .all(|(j, q)| j >= place || q.0 != key)
}

/// No two pairs have one key.
pub(crate) fn keys_differ(pairs: &[(u32, u32)]) -> bool
    ensures { IsTrue result ↔ Distinct first_of pairs.now }
{
    pairs
        .iter()
        .enumerate()
        .all(|(i, p)| none_before(pairs, i, p.0))
}

fn maps(pairs: &[(u32, u32)], slot: Option<u32>, name: u32) -> bool
    ensures { IsTrue result ↔ Maps pairs.now slot name }
{
    match slot {
        None => false,
        Some(slot) => at_key(pairs, slot as usize) == Some(name),
    }
}

/// The map has the slot of each φ, with its name.
pub(crate) fn phis_mapped(names: &[u32], pairs: &[(u32, u32)], phis: &[Phi]) -> bool
    ensures { IsTrue result ↔ Each
        (λ f. Maps pairs.now (slice_get names.now f.name) f.name) phis.now }
{
    phis.iter()
        .all(|f| maps(pairs, slot_of(names, f.name), f.name))
}

fn no_slot_before(names: &[u32], phis: &[Phi], place: usize, slot: Option<u32>) -> bool
    ensures { IsTrue result ↔ NoneBefore (λ f. slice_get names.now f.name) phis.now place slot }
{
    phis.iter()
        .enumerate()
        .all(|(j, q)| j >= place || slot_of(names, q.name) != slot)
}

/// The φs belong to distinct slots.
pub(crate) fn phi_slots_differ(names: &[u32], phis: &[Phi]) -> bool
    ensures { IsTrue result ↔ Distinct (λ f. slice_get names.now f.name) phis.now }
{
    phis.iter().enumerate().all(|(i, f)| no_slot_before(names, phis, i, slot_of(names, f.name)))
}

/// The slots of the map are distinct, its names belong to them, and the φs are among them.
pub(crate) fn map_of_slots(names: &[u32], block: &SsaBlock) -> bool
    ensures { IsTrue result ↔ MapOfSlots names.now block.now }
{
    if !phi_slots_differ(names, block.phis.as_slice()) {
        return false;
    }
    if !phis_mapped(names, block.map.as_slice(), block.phis.as_slice()) {
        return false;
    }
    if !keys_differ(block.map.as_slice()) {
        return false;
    }
    own_slots(names, block.map.as_slice())
}

/// Each slot of the map is a parameter, under its own name.
pub(crate) fn own_parameters(params: usize, pairs: &[(u32, u32)]) -> bool
    ensures { IsTrue result ↔ Each (λ p. (p.0 ≡ p.1) × (p.1 < params)) pairs.now }
{
    pairs
        .iter()
        .all(|pair| pair.0 == pair.1 && (pair.1 as usize) < params)
}

fn is_empty(phis: &[Phi]) -> bool
    ensures { IsTrue result ↔ (phis.now ≡ []) }
{
    phis.is_empty()
}

/// The entry's map has only parameters, and the entry has no φ.
pub(crate) fn map_of_parameters(params: usize, block: &SsaBlock) -> bool
    ensures { IsTrue result ↔ MapOfParameters params block.now }
{
    if !is_empty(block.phis.as_slice()) {
        return false;
    }
    own_parameters(params, block.map.as_slice())
}
