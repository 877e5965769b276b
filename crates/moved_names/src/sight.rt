//! The new names of variables.

ghost use Rattle.std.specs.Prelude.{◌≡◌, IfOk, option_map};
ghost use Rattle.std.specs.Option.{option_copied};
ghost use Rattle.moved_names.specs.Renamed as spec;

use away_names::lookups::variable_named;
use away_names::scope::Variable;
use away_values::{Name, NoMemory};
use std::alloc::Global;

/// The new names, and the visible variables by their places among these, the innermost last.
#[derive(Clone, Copy)]
pub struct Sight<'a> {
    pub names: &'a [Name],
    pub seen: &'a [Variable],
}

/// The new name at a place. Where a list is shorter, which it never is, there is want of memory.
pub fn name_at(alloc: Global, names: &[Name], place: usize) -> Result<Name, NoMemory>
    ensures { IfOk result (λ n. n ≡ spec.name_at names.now place) }
{
    match names.get(place) {
        None => Err(NoMemory),
        Some(n) => Ok(n.copy(alloc)?),
    }
}

/// What stands for a name.
#[tactic(auto, unfolding(crate::specs::Renamed::moved))]
pub fn moved(alloc: Global, n: &Name, s: &Sight<'_>) -> Result<Name, NoMemory>
    ensures { IfOk result (λ x. x ≡ spec.moving s.now n.now) }
{
    match variable_named(n, s.seen) {
        None => Ok(n.copy(alloc)?),
        Some(v) => name_at(alloc, s.names, v.slot as usize),
    }
}

/// What stands for a name that may be left out.
pub fn maybe_moved(alloc: Global, n: &Option<Name>, s: &Sight<'_>) -> Result<Option<Name>, NoMemory>
    ensures { IfOk result (λ x. x ≡ option_map (spec.moving s.now) n.now) }
{
    match n {
        None => Ok(None),
        Some(n) => Ok(Some(moved(alloc, n, s)?)),
    }
}
