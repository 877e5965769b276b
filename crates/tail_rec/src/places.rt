//! The columns that a label's parameters take.

ghost use Rattle.std.specs.Prelude.{◌≡◌, ℕ, ◌++◌, ◌+◌, ◌<◌, ◌≤◌, ◌^◌, length, map, IfOk, OnOk};
ghost use Rattle.std.specs.Option.{option_copied};
ghost use Rattle.block_forms.specs.Places.{Each};
ghost use Rattle.call_forms.specs.Columned.{type_of_name};
ghost use Rattle.tail_rec.specs.Columns as spec;

use crate::columns::{PerType, type_of};
use away_types::Slot;
use away_values::Ty;
use call_forms::AnfBlock;
use sqlite_items::Items;
use std::alloc::{AllocError, Global};

/// The first column of each type, where there are so many of each.
pub(crate) fn starts_of(widths: PerType) -> PerType
    requires { spec.AreFew widths }
    ensures exact { result ≡ spec.starts_of widths }
    ensures room { (more : ℕ) → more < 2 ^ 28 → spec.HasRoom result more }
{
    PerType {
        bigint: 0,
        boolean: widths.bigint,
        text: widths.bigint + widths.boolean,
        integer: widths.bigint + widths.boolean + widths.text,
    }
}

/// The next free column of a type.
fn place_for(free: PerType, found: Option<Ty>) -> u32
    ensures { result ≡ spec.place_for free found }
{
    match found {
        None => 0,
        Some(Ty::Bigint) => free.bigint,
        Some(Ty::Boolean) => free.boolean,
        Some(Ty::Text) => free.text,
        Some(Ty::Integer) => free.integer,
    }
}

/// What is free when the next column of a type is taken.
fn after_place(free: PerType, found: Option<Ty>) -> PerType
    requires { spec.HasRoom free 1 }
    ensures { result ≡ spec.after_place free found }
{
    let PerType {
        bigint,
        boolean,
        text,
        integer,
    } = free;
    match found {
        None => free,
        Some(Ty::Bigint) => PerType {
            bigint: bigint + 1,
            boolean,
            text,
            integer,
        },
        Some(Ty::Boolean) => PerType {
            bigint,
            boolean: boolean + 1,
            text,
            integer,
        },
        Some(Ty::Text) => PerType {
            bigint,
            boolean,
            text: text + 1,
            integer,
        },
        Some(Ty::Integer) => PerType {
            bigint,
            boolean,
            text,
            integer: integer + 1,
        },
    }
}

/// The columns of these parameters, from these columns on.
fn placed(
    alloc: Global,
    slots: &[Slot],
    names: &[u32],
    params: &[u32],
    starts: PerType,
) -> Result<Items<u32>, AllocError>
    requires { spec.HasRoom starts (length params.now) }
    ensures { IfOk result (λ v. v
        ≡ spec.placed (type_of_name slots.now names.now) starts params.now) }
{
    let mut places = Items::new(alloc);
    let mut free = starts;
    for name in params {
        let found = type_of(slots, names, *name);
        places.push(place_for(free, found))?;
        free = after_place(free, found);
    }
    Ok(places)
}

/// The columns of a block's parameters.
fn places_at(
    alloc: Global,
    slots: &[Slot],
    names: &[u32],
    blocks: &[AnfBlock],
    block: u32,
    starts: PerType,
) -> Result<Items<u32>, AllocError>
    requires few { Each spec.HasFewParameters blocks.now }
    requires room { (more : ℕ) → more < 2 ^ 28 → spec.HasRoom starts more }
    ensures { IfOk result (λ v. v
        ≡ spec.places_at (type_of_name slots.now names.now) blocks.now starts block) }
{
    match blocks.get(block as usize) {
        None => Ok(Items::new(alloc)),
        Some(found) => placed(alloc, slots, names, found.params.as_slice(), starts),
    }
}

/// The columns of each label's parameters.
pub(crate) fn places_of(
    alloc: Global,
    slots: &[Slot],
    names: &[u32],
    blocks: &[AnfBlock],
    labels: &[u32],
    starts: PerType,
) -> Result<Items<Items<u32>>, AllocError>
    requires few { Each spec.HasFewParameters blocks.now }
    requires room { (more : ℕ) → more < 2 ^ 28 → spec.HasRoom starts more }
    ensures { IfOk result (λ v. v
        ≡ spec.places_of (type_of_name slots.now names.now) blocks.now starts labels.now) }
{
    let mut places = Items::new(alloc);
    for label in labels {
        places.push(places_at(alloc, slots, names, blocks, *label, starts)?)?;
    }
    Ok(places)
}
