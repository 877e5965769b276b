//! Where names stand: the items and columns of the query that hold their values.

ghost use Rattle.std.specs.Prelude.{◌≡◌, map, IfOk};
ghost use Rattle.call_forms.specs.Scopes.{paired};
ghost use Rattle.cte_template.specs.Places as spec;

use away_trees::Col;
use away_values::{NoMemory, Ty};
use cte_parts::{small, sum};
use sqlite_items::Items;
use std::alloc::Global;

/// A column of an item of a select. The select of the query's step has depth 0, the branches have depth 1, and each test opens selects that are one
/// deeper.
#[derive(Clone, Copy, Debug, PartialEq, Eq)]
pub struct ItemColumn {
    pub depth: usize,
    pub item: usize,
    pub column: usize,
}

/// A column that no row has.
pub(crate) fn nowhere() -> ItemColumn
    ensures { result ≡ spec.nowhere }
{
    ItemColumn {
        depth: 0,
        item: 1,
        column: 0,
    }
}

/// The column from a list at a depth.
pub(crate) fn seen(place: ItemColumn, depth: usize) -> Result<Col, NoMemory>
    ensures { IfOk result (λ c. c ≡ spec.seen depth place) }
{
    Ok(Col {
        level: small(depth.saturating_sub(place.depth))?,
        item: small(place.item)?,
        column: small(place.column)?,
    })
}

/// Where a name stands; the last pair with it counts.
#[tactic(auto, using(crate::proofs::PlaceRules::found))]
pub(crate) fn place_of(pairs: &[(u32, ItemColumn)], name: u32) -> ItemColumn
    ensures { result ≡ spec.place_of pairs.now name }
{
    let mut found = nowhere();
    for pair in pairs {
        if pair.0 == name {
            found = pair.1;
        }
    }
    found
}

/// Where each name of a list stands.
pub(crate) fn places_of(
    alloc: Global,
    pairs: &[(u32, ItemColumn)],
    names: &[u32],
) -> Result<Items<ItemColumn>, NoMemory>
    ensures { IfOk result (λ list. list ≡ map (spec.place_of pairs.now) names.now) }
{
    let mut list = Items::new(alloc);
    for name in names {
        list.push(place_of(pairs, *name))?;
    }
    Ok(list)
}

/// A column of the working table, behind the flag, the label and what is carried.
#[tactic(auto, using(crate::proofs::PlaceRules::place_behind))]
fn row_place(carried: &[Ty], column: u32) -> Result<ItemColumn, NoMemory>
    ensures { IfOk result (λ p. p ≡ spec.carried_place carried.now column) }
{
    let first = sum(carried.len(), 2)?;
    Ok(ItemColumn {
        depth: 0,
        item: 0,
        column: sum(first, column as usize)?,
    })
}

/// The places of a row's columns, behind the flag, the label and what is carried.
pub(crate) fn row_places(
    alloc: Global,
    carried: &[Ty],
    columns: &[u32],
) -> Result<Items<ItemColumn>, NoMemory>
    ensures { IfOk result (λ list. list ≡ map (spec.carried_place carried.now) columns.now) }
{
    let mut list = Items::new(alloc);
    for column in columns {
        list.push(row_place(carried, *column)?)?;
    }
    Ok(list)
}

/// Each key at its place. The first of equal keys counts.
pub(crate) fn keys_at(
    alloc: Global,
    keys: &[u32],
    places: &[ItemColumn],
) -> Result<Items<(u32, ItemColumn)>, NoMemory>
    ensures { IfOk result (λ pairs. spec.place_of pairs ≡ spec.at_keys keys.now places.now) }
{
    let mut pairs = Items::new(alloc);
    let mut left = keys.len();
    while left > 0 {
        left -= 1;
        if left < places.len() {
            pairs.push((keys[left], places[left]))?;
        }
    }
    Ok(pairs)
}

/// The parameters of a block at the places of what is passed.
pub(crate) fn entered(
    alloc: Global,
    pairs: &[(u32, ItemColumn)],
    params: &[u32],
    args: &[u32],
) -> Result<Items<(u32, ItemColumn)>, NoMemory>
    ensures { IfOk result (λ list. spec.place_of list
        ≡ paired (spec.place_of pairs.now) spec.nowhere params.now args.now) }
{
    let places = places_of(alloc, pairs, args)?;
    keys_at(alloc, params, places.as_slice())
}

/// The parameters of a label's block at the columns of the row.
pub(crate) fn on_row(
    alloc: Global,
    carried: &[Ty],
    params: &[u32],
    columns: &[u32],
) -> Result<Items<(u32, ItemColumn)>, NoMemory>
    ensures { IfOk result (λ list. spec.place_of list
        ≡ paired (spec.carried_place carried.now) spec.nowhere params.now columns.now) }
{
    let places = row_places(alloc, carried, columns)?;
    keys_at(alloc, params, places.as_slice())
}

/// What stands beside the first key that is the number.
#[tactic(auto, using(crate::proofs::PlaceRules::beside_rules))]
pub(crate) fn beside(keys: &[u32], names: &[u32], number: u32) -> Option<u32>
    ensures { result ≡ spec.beside keys.now names.now number }
{
    for i in 0..keys.len() {
        if i >= names.len() {
            return None;
        }
        if keys[i] == number {
            return Some(names[i]);
        }
    }
    None
}
