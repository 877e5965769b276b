//! The slots that a select reads.

ghost use Rattle.std.specs.Prelude.{◌≡◌, IfOk};
ghost use Rattle.select_into.specs.Wrapped as spec;

use crate::wrapping::one;
use away_core::Copied;
use away_trees::{Expr, Select};
use away_values::NoMemory;
use sqlite_items::{Boxed, Items};
use std::alloc::Global;
use tree_events::slots_of;

/// The slots that a select reads, each once, in the order of their first occurrence.
#[tactic(auto, using(crate::proofs::SourceReads::slots_are))]
pub fn select_slots(alloc: Global, s: &Select) -> Result<Items<u32>, NoMemory>
    ensures { IfOk result (λ list. list ≡ spec.select_slots s.now) }
{
    let query = one(alloc, s.copy(alloc)?)?;
    let whole = Expr::Scalar(Boxed::new(alloc, query)?);
    slots_of(alloc, &whole)
}
