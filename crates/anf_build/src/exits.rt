//! The names that slots have where a block ends, by slot.

ghost use Rattle.std.specs.Prelude.{◌≡◌, ◌<◌, length, [], set, Some, IfOk};
ghost use Rattle.block_forms.specs.Named.{exit_map, renewal};
ghost use Rattle.anf_build.specs.Passing.{AreNames, named_or};

use block_forms::{Block, SsaBlock, Term};
use std::alloc::{AllocError, Global};

/// No slot has a name.
fn no_names(alloc: Global, slots: usize) -> Result<Vec<Option<u32>>, AllocError>
    ensures { IfOk result (λ v. AreNames slots [] v.items) }
{
    let mut names = Vec::new(alloc);
    for _slot in 0..slots {
        names.push(None)?;
    }
    Ok(names)
}

/// Gives a slot a name, where the list has the slot.
fn give(names: &mut [Option<u32>], slot: u32, name: u32)
    ensures { names.new ≡ set names.old slot (Some name) }
{
    let at = slot as usize;
    if at < names.len() {
        names[at] = Some(name);
    }
}

/// Gives each slot its name in a map.
fn give_all(names: &mut [Option<u32>], map: &[(u32, u32)])
    requires none { AreNames (length names.old) [] names.old }
    ensures { AreNames (length names.old) map.now names.new }
{
    let count = map.len();
    for done in 0..count {
        let (slot, name) = map[count - 1 - done];
        give(names, slot, name);
    }
}

/// The slot that a block sets, with the name that it assigns.
fn renewed(x: &Option<(u32, Term)>, y: &Option<(u32, Term)>) -> Option<(u32, u32)>
    ensures { result ≡ renewal x.now y.now }
{
    match x {
        None => None,
        Some((slot, _)) => match y {
            None => None,
            Some((name, _)) => Some((*slot, *name)),
        },
    }
}

/// The name of each slot where a block ends.
pub(crate) fn exit_names(
    alloc: Global,
    slots: usize,
    x: &Block,
    y: &SsaBlock,
) -> Result<Vec<Option<u32>>, AllocError>
    ensures { IfOk result (λ v. AreNames slots (exit_map x.now y.now) v.items) }
{
    let mut names = no_names(alloc, slots)?;
    give_all(&mut names, y.map.as_slice());
    if let Some((slot, name)) = renewed(&x.set, &y.set) {
        give(&mut names, slot, name);
    }
    Ok(names)
}

/// The name of a slot, or another name where it has none.
pub(crate) fn name_of(names: &[Option<u32>], slot: u32, other: u32) -> u32
    requires within { slot < length names.now }
    ensures { result ≡ named_or names.now slot other }
{
    match names[slot as usize] {
        Some(name) => name,
        None => other,
    }
}
