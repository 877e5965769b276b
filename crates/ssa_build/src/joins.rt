//! Joins that join one name only are merged into it.

ghost use Rattle.std.specs.Prelude.{◌≡◌, ℕ, ◌+◌, ◌^◌, ◌<◌, ◌≤◌, length, get_or, IfOk};
ghost use Rattle.ssa_build.specs.FullJoins.{join_at};
ghost use Rattle.ssa_build.specs.JoinPlaces.{AreJoins, IsPlace, joins_of, names_of};
ghost use Rattle.ssa_build.specs.Joins.{IsRoot, IsWithin, Merged, Merging, Settled, Swept, Tells, roots, walk};

use crate::full::{name_after, phi_name};
use crate::places::{Joins, PhiPlace};
use std::alloc::{AllocError, Global};

/// What a join joins besides itself.
#[derive(Clone, Copy)]
pub(crate) enum Found {
    Several,
    One(u32),
    Itself,
}

/// The name that a name is merged into, after so many merges.
pub(crate) fn root(into: &[u32], merges: usize, name: u32) -> u32
    requires within { IsWithin into.now }
    requires here { name < length into.now }
    ensures { result ≡ walk into.now merges name }
{
    let mut at = name;
    for step in 0..merges {
        let next = into[at as usize];
        if next == at {
            return at;
        }
        at = next;
    }
    at
}

/// What the join at a place joins besides itself, as far as names are merged.
pub(crate) fn joined_names(joins: &Joins<'_>, place: PhiPlace, into: &[u32], merges: usize) -> Found
    requires are { AreJoins joins.now }
    requires place_in { IsPlace joins.now.full.now.layout place }
    requires within { IsWithin into.now }
    requires rooted { (n : ℕ) → n < length into.now → IsRoot into.now (walk into.now merges n) }
    requires operands { (k : ℕ)
        → k < length (join_at joins.now.full.now joins.now.blocks.now place).operands
        → get_or (join_at joins.now.full.now joins.now.blocks.now place).operands k 0
        < length into.now }
    ensures { Tells into.now merges (join_at joins.now.full.now joins.now.blocks.now place) result }
{
    let block = place.block as usize;
    let joined = phi_name(joins.full, block, place.slot as usize);
    let mut only: Option<u32> = None;
    for source in joins.full.sources[block].as_slice() {
        let operand = name_after(joins.full, joins.blocks, *source, place.slot);
        let name = root(into, merges, operand);
        if name != joined {
            match only {
                None => only = Some(name),
                Some(m) => {
                    if m != name {
                        return Found::Several;
                    }
                }
            }
        }
    }
    match only {
        None => Found::Itself,
        Some(m) => Found::One(m),
    }
}

/// Merges a join that joins one name only into that name, and says whether it did.
pub(crate) fn settle(joins: &Joins<'_>, at: usize, into: &mut [u32], merges: usize) -> bool
    requires are { AreJoins joins.now }
    requires merging { Merging (names_of joins.now) (joins_of joins.now) into.old merges }
    requires here { at < length joins.now.places.now }
    ensures { Settled (names_of joins.now) (joins_of joins.now) at into.old into.new merges result }
{
    let place = joins.places[at];
    let name = phi_name(joins.full, place.block as usize, place.slot as usize);
    if into[name as usize] != name {
        return false;
    }
    match joined_names(joins, place, into, merges) {
        Found::Several => false,
        Found::One(m) => {
            into[name as usize] = m;
            true
        }
        Found::Itself => {
            into[name as usize] = place.slot;
            true
        }
    }
}

/// Tries each join once, from the first to the last; the answer is the number of merges then.
pub(crate) fn sweep(joins: &Joins<'_>, into: &mut [u32], merges: usize) -> usize
    requires are { AreJoins joins.now }
    requires merging { Merging (names_of joins.now) (joins_of joins.now) into.old merges }
    requires room { roots into.old 0 + merges ≤ length into.old }
    ensures { Swept (names_of joins.now) (joins_of joins.now) into.old into.new merges result }
{
    let mut count = merges;
    for at in 0..joins.places.len() {
        if settle(joins, at, into, count) {
            count += 1;
        }
    }
    count
}

/// Tries each join once, from the last to the first; the answer is the number of merges then.
pub(crate) fn sweep_back(joins: &Joins<'_>, into: &mut [u32], merges: usize) -> usize
    requires are { AreJoins joins.now }
    requires merging { Merging (names_of joins.now) (joins_of joins.now) into.old merges }
    requires room { roots into.old 0 + merges ≤ length into.old }
    ensures { Swept (names_of joins.now) (joins_of joins.now) into.old into.new merges result }
{
    let many = joins.places.len();
    let mut count = merges;
    for done in 0..many {
        if settle(joins, many - 1 - done, into, count) {
            count += 1;
        }
    }
    count
}

/// Merges joins, to and fro, until none that is left joins one name only.
pub(crate) fn merge_all(joins: &Joins<'_>, into: &mut [u32]) -> usize
    requires are { AreJoins joins.now }
    requires merging { Merging (names_of joins.now) (joins_of joins.now) into.old 0 }
    requires room { roots into.old 0 ≤ length into.old }
    ensures { Swept (names_of joins.now) (joins_of joins.now) into.new into.new result result }
{
    let mut merges = 0;
    loop {
        let after = sweep(joins, into, merges);
        if after == merges {
            return merges;
        }
        merges = sweep_back(joins, into, after);
        if merges == after {
            return merges;
        }
    }
}

/// Each name leads to itself.
pub(crate) fn separate(alloc: Global, count: usize) -> Result<Vec<u32>, AllocError>
    requires { count < 2 ^ 32 }
    ensures { IfOk result (λ v. (length v.items ≡ count)
        × ((n : ℕ) → n < count → IsRoot v.items n)) }
{
    let mut into = Vec::new(alloc);
    for name in 0..count {
        into.push(name as u32)?;
    }
    Ok(into)
}

/// Each name leads to the one that it is merged into, and no join that is left joins one name only.
pub(crate) fn merge_joins(alloc: Global, joins: &Joins<'_>) -> Result<Vec<u32>, AllocError>
    requires are { AreJoins joins.now }
    requires short { length (names_of joins.now) < 2 ^ 32 }
    ensures { IfOk result (λ v. Merged (names_of joins.now) (joins_of joins.now) v.items) }
{
    let count = joins.full.names.slots.len();
    let mut into = separate(alloc, count)?;
    let merges = merge_all(joins, &mut into);
    let mut whole = Vec::new(alloc);
    for name in 0..count {
        whole.push(root(&into, merges, name as u32))?;
    }
    Ok(whole)
}
