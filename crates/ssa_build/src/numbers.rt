//! Names without gaps.

ghost use Rattle.std.specs.Prelude.{◌≡◌, ◌^◌, ◌<◌, length, IfOk};
ghost use Rattle.ssa_build.specs.Numbers.{Numbers};

use sqlite_items::Items;
use std::alloc::{AllocError, Global};

/// The new number of each old name, and the slot of each new one.
#[derive(Drop)]
pub(crate) struct Numbering {
    pub(crate) numbers: Vec<u32>,
    pub(crate) names: Items<u32>,
}

/// Numbers the names that lead to themselves, in order.
pub(crate) fn number_roots(
    alloc: Global,
    slots: &[u32],
    into: &[u32],
) -> Result<Numbering, AllocError>
    requires sized { length into.now ≡ length slots.now }
    requires short { length slots.now < 2 ^ 32 }
    ensures { IfOk result (λ v. Numbers slots.now into.now v.numbers.items v.names) }
{
    let mut numbers = Vec::new(alloc);
    let mut names = Items::new(alloc);
    for name in 0..into.len() {
        numbers.push(names.len() as u32)?;
        if into[name] as usize == name {
            names.push(slots[name])?;
        }
    }
    Ok(Numbering { numbers, names })
}
