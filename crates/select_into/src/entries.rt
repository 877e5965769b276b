//! The expressions of a SELECT INTO, which a function's forms name by number.

ghost use Rattle.std.specs.Prelude.{◌≡◌, ◌++◌, ◌∷◌, [], IfOk, OnOk, slice_get};
ghost use Rattle.select_into.specs.Entries as spec;
ghost use Rattle.select_into.specs.Wrapped.{no_row, more_rows, pick_as, picked};

use crate::{picked, wrapping};
use away_core::Copied;
use away_trees::{Expr, Item, Select};
use away_values::{Name, NoMemory, Ty};
use sqlite_items::{Boxed, Items};
use std::alloc::Global;

fn type_of(types: &[Ty], target: Option<u32>) -> Ty
    ensures { result ≡ spec.type_of types.now target }
{
    match target {
        None => Ty::Bigint,
        Some(slot) => match types.get(slot as usize) {
            None => Ty::Bigint,
            Some(ty) => *ty,
        },
    }
}

fn target_types(
    alloc: Global,
    types: &[Ty],
    targets: &[(Name, Option<u32>)],
) -> Result<Items<Ty>, NoMemory>
    ensures { IfOk result (λ list. list ≡ spec.target_types types.now targets.now) }
{
    let mut list = Items::new(alloc);
    for i in 0..targets.len() {
        list.push(type_of(types, targets[i].1))?;
    }
    Ok(list)
}

/// With STRICT: whether there is no row, and whether there are two or more.
fn push_checks(
    alloc: Global,
    strict: bool,
    s: &Select,
    list: &mut Items<Expr>,
) -> Result<(), NoMemory>
    ensures { OnOk result (list.new ≡ list.old ++ spec.check_entries strict s.now) }
{
    if strict {
        list.push(wrapping::no_row(alloc, s.copy(alloc)?)?)?;
        list.push(wrapping::more_rows(alloc, s.copy(alloc)?)?)?;
    }
    Ok(())
}

/// Whether there is an item at a place, and it is to be converted: its alias is the mark.
fn is_converted(items: &[Item], place: usize) -> bool
    ensures { result ≡ spec.is_converted (slice_get items.now place) }
{
    if place >= items.len() {
        return false;
    }
    items[place].alias.is_some()
}

/// The type to which the pick at a place is cast, where its item is to be converted.
fn cast_at(types: &[Ty], items: &[Item], place: usize) -> Option<Ty>
    ensures { result ≡ spec.cast_at types.now items.now place }
{
    if !is_converted(items, place) {
        return None;
    }
    match types.get(place) {
        None => None,
        Some(ty) => Some(*ty),
    }
}

fn pick_entry(alloc: Global, types: &[Ty], s: &Select, place: usize) -> Result<Expr, NoMemory>
    ensures { IfOk result (λ e. e ≡ spec.pick_entry types.now s.now place) }
{
    let cast = cast_at(types, s.list.as_slice(), place);
    match u32::try_from(place) {
        Ok(place) => wrapping::pick_as(alloc, cast, picked::picked(alloc, types, s)?, place),
        Err(_) => Err(NoMemory),
    }
}

fn push_picks(
    alloc: Global,
    types: &[Ty],
    s: &Select,
    list: &mut Items<Expr>,
) -> Result<(), NoMemory>
    ensures { OnOk result (list.new ≡ list.old ++ spec.pick_entries types.now s.now) }
{
    for place in 0..types.len() {
        list.push(pick_entry(alloc, types, s, place)?)?;
    }
    Ok(())
}

/// Adds the entries of a SELECT INTO, by the types of the function's slots: with STRICT its two tests, then a pick for each target, under a cast where
/// the target has the other type of numbers.
pub fn push_entries(
    alloc: Global,
    types: &[Ty],
    strict: bool,
    targets: &[(Name, Option<u32>)],
    query: &Select,
    list: &mut Items<Expr>,
) -> Result<(), NoMemory>
    ensures { OnOk result (list.new
        ≡ list.old ++ spec.into_entries types.now strict targets.now query.now) }
{
    let unmarked = Boxed::new(alloc, picked::picked(alloc, &[], query)?)?;
    push_checks(alloc, strict, unmarked.get(), list)?;
    let picks = target_types(alloc, types, targets)?;
    push_picks(alloc, picks.as_slice(), query, list)
}
