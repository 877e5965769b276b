//! The checks of the places that a label's parameters have.

ghost use Rattle.std.specs.Prelude.{◌≡◌, ℕ, ◌↔◌, IsTrue, List, Option, Some, None, length, slice_get};
ghost use Rattle.block_forms.specs.Places.{Each, EachPair};
ghost use Rattle.call_forms.specs.Columned.{type_of_slot, type_at, type_of_name, HasType, PlacesOf, PlacesAt};

use crate::numbers::all_differ;
use away_types::Slot;
use away_values::Ty;
use call_forms::AnfBlock;
use sqlite_items::Items;

fn type_of_slot(slots: &[Slot], slot: u32) -> Option<Ty>
    ensures { result ≡ type_of_slot (slice_get slots.now slot) }
{
    match slots.get(slot as usize) {
        None => None,
        Some(slot) => Some(slot.ty),
    }
}

/// The type of a name's slot.
pub(crate) fn type_of_name(slots: &[Slot], names: &[u32], n: u32) -> Option<Ty>
    ensures { result ≡ type_of_name slots.now names.now n }
{
    match names.get(n as usize) {
        None => None,
        Some(slot) => type_of_slot(slots, *slot),
    }
}

fn column_at(columns: &[Ty], c: u32) -> Option<Ty>
    ensures { result ≡ slice_get columns.now c }
{
    columns.get(c as usize).copied()
}

/// Whether the column has this type.
fn has_type(ty: Option<Ty>, column: Option<Ty>) -> bool
    ensures { IsTrue result ↔ HasType ty column }
{
    match ty {
        None => false,
        Some(ty) => column == Some(ty),
    }
}

fn is_typed(slots: &[Slot], names: &[u32], columns: &[Ty], p: u32, c: u32) -> bool
    ensures { IsTrue result ↔ HasType (type_of_name slots.now names.now p)
        (slice_get columns.now c) }
{
    has_type(type_of_name(slots, names, p), column_at(columns, c))
}

fn all_typed(slots: &[Slot], names: &[u32], columns: &[Ty], params: &[u32], places: &[u32]) -> bool
    requires { length params.now ≡ length places.now }
    ensures { IsTrue result ↔ EachPair (λ i p c. HasType (type_of_name slots.now names.now p)
        (slice_get columns.now c)) params.now places.now }
{
    for i in 0..params.len() {
        if !is_typed(slots, names, columns, params[i], places[i]) {
            return false;
        }
    }
    true
}

fn places_of(slots: &[Slot], names: &[u32], columns: &[Ty], params: &[u32], places: &[u32]) -> bool
    ensures { IsTrue result ↔ PlacesOf slots.now names.now columns.now params.now places.now }
{
    if places.len() != params.len() {
        return false;
    }
    if !all_differ(places) {
        return false;
    }
    all_typed(slots, names, columns, params, places)
}

fn places_at(
    slots: &[Slot],
    names: &[u32],
    columns: &[Ty],
    blocks: &[AnfBlock],
    label: u32,
    places: &[u32],
) -> bool
    ensures { IsTrue result ↔ PlacesAt slots.now names.now columns.now
        (slice_get blocks.now label) places.now }
{
    match blocks.get(label as usize) {
        None => false,
        Some(block) => places_of(slots, names, columns, block.params.as_slice(), places),
    }
}

/// The places of each label.
pub(crate) fn all_places(
    slots: &[Slot],
    names: &[u32],
    columns: &[Ty],
    blocks: &[AnfBlock],
    labels: &[u32],
    places: &[Items<u32>],
) -> bool
    requires { length labels.now ≡ length places.now }
    ensures { IsTrue result ↔ EachPair (λ i b ps. PlacesAt slots.now names.now columns.now
        (slice_get blocks.now b) ps) labels.now places.now }
{
    for i in 0..labels.len() {
        if !places_at(
            slots,
            names,
            columns,
            blocks,
            labels[i],
            places[i].as_slice(),
        ) {
            return false;
        }
    }
    true
}
