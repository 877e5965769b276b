//! The slots that an expression reads, each once, in the order of their first occurrence.

ghost use Rattle.std.specs.Prelude.{◌≡◌, IfOk, OnOk};
ghost use Rattle.sql_meaning.specs.Reads as spec;
ghost use Rattle.tree_events.specs.SlotsRead.{slot_of_kind, slots_in};
ghost use Rattle.tree_events.specs.Occurrences.{contains, kept_with};

use crate::events::{Kind, Manner, TreeEvent};
use crate::push::expr_events;
use away_trees::Expr;
use away_values::NoMemory;
use sqlite_items::Items;
use std::alloc::Global;

fn slot_of(kind: Kind) -> Option<u32>
    ensures { result ≡ slot_of_kind kind }
{
    match kind {
        Kind::Slot(slot) => Some(slot),
        _ => None,
    }
}

/// The slots in events, in their order.
fn slots_in(alloc: Global, events: &[TreeEvent]) -> Result<Items<u32>, NoMemory>
    ensures { IfOk result (λ list. list ≡ slots_in events.now) }
{
    let mut list = Items::new(alloc);
    for event in events {
        if let TreeEvent::Open(kind) = event {
            if let Some(slot) = slot_of(*kind) {
                list.push(slot)?;
            }
        }
    }
    Ok(list)
}

fn has(list: &[u32], slot: u32) -> bool
    ensures { result ≡ contains slot list.now }
{
    for s in list {
        if *s == slot {
            return true;
        }
    }
    false
}

/// Adds a slot, where it isn't there.
#[tactic(auto, using(crate::proofs::FirstOccurrences::keeping_rules))]
fn keep(list: &mut Items<u32>, slot: u32) -> Result<(), NoMemory>
    ensures { OnOk result (list.new ≡ kept_with slot list.old) }
{
    if has(list.as_slice(), slot) {
        Ok(())
    } else {
        list.push(slot)?;
        Ok(())
    }
}

#[tactic(auto, using(crate::proofs::FirstOccurrences::occurrence_step))]
fn distinct(alloc: Global, list: &[u32]) -> Result<Items<u32>, NoMemory>
    ensures { IfOk result (λ l. l ≡ spec.first_occurrences list.now) }
{
    let mut kept = Items::new(alloc);
    for i in 0..list.len() {
        keep(&mut kept, list[i])?;
    }
    Ok(kept)
}

/// The slots in events, each once, in the order of their first occurrence. The time is in the number of events, and in that of slots times how many
/// differ.
pub fn slots_of_events(alloc: Global, events: &[TreeEvent]) -> Result<Items<u32>, NoMemory>
    ensures { IfOk result (λ l. l ≡ spec.first_occurrences (slots_in events.now)) }
{
    let slots = slots_in(alloc, events)?;
    distinct(alloc, slots.as_slice())
}

/// The slots that an expression reads, each once, in the order of their first occurrence.
#[tactic(auto, using(crate::proofs::ReadSlots::slots_are))]
pub fn slots_of(alloc: Global, e: &Expr) -> Result<Items<u32>, NoMemory>
    ensures { IfOk result (λ l. l ≡ spec.slots_of e.now) }
{
    let events = expr_events(alloc, Manner::Reading, e)?;
    slots_of_events(alloc, events.as_slice())
}
