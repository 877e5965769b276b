//! The rows that branches give.

ghost use Rattle.std.specs.Prelude.{◌≡◌, ◌++◌, ◌∷◌, [], false, pos, map, IfOk, OnOk};
ghost use Rattle.sql_meaning.specs.Trees as tree;
ghost use Rattle.cte_template.specs.Making.{making};
ghost use Rattle.cte_template.specs.Places.{place_of as standing};
ghost use Rattle.cte_template.specs.CarriedWalks as carrying;
ghost use Rattle.cte_template.specs.Written as spec;

use crate::places::{ItemColumn, beside, place_of, seen};
use crate::writer::{Writer, places_at, type_of};
use away_trees::{Expr, Item};
use away_values::{NoMemory, Ty};
use cte_parts::{add, after, col, null, number, only, small, sum, truth};
use sqlite_items::Items;
use std::alloc::Global;

/// Adds NULL of each type.
fn add_nulls(alloc: Global, list: &mut Items<Item>, types: &[Ty]) -> Result<(), NoMemory>
    ensures { OnOk result (list.new ≡ list.old ++ map tree.item (map tree.null_of types.now)) }
{
    for ty in types {
        add(list, null(alloc, *ty)?)?;
    }
    Ok(())
}

/// Adds a column of the working table for each type, behind the flag and the label.
fn add_carried(list: &mut Items<Item>, depth: usize, carried: &[Ty]) -> Result<(), NoMemory>
    ensures { OnOk result (list.new
        ≡ list.old ++ map tree.item (carrying.carried_at depth 2 carried.now)) }
{
    let level = small(depth)?;
    for i in 0..carried.len() {
        add(list, col(level, 0, sum(i, 2)?)?)?;
    }
    Ok(())
}

/// The first columns of a finished row.
fn finished(alloc: Global, w: &Writer<'_>, depth: usize) -> Result<Items<Item>, NoMemory>
    ensures { IfOk result (λ list. list ≡ map tree.item (tree.truth false ∷ tree.number (pos 0)
        ∷ (carrying.carried_at depth 2 w.now.carried.now
        ++ map tree.null_of w.now.tail.now.columns))) }
{
    let mut list = only(alloc, truth(alloc, false)?)?;
    add(&mut list, number(alloc, 0)?)?;
    add_carried(&mut list, depth, w.carried)?;
    add_nulls(alloc, &mut list, w.tail.columns.as_slice())?;
    Ok(list)
}

/// A finished row.
pub(crate) fn end_row(
    alloc: Global,
    w: &Writer<'_>,
    depth: usize,
    value: Expr,
    class: Expr,
) -> Result<Items<Item>, NoMemory>
    ensures { IfOk result (λ list. list ≡ map tree.item
        (carrying.end_row (making w.now) w.now.carried.now depth value class)) }
{
    let mut outcome = only(alloc, value)?;
    add(&mut outcome, class)?;
    let mut list = finished(alloc, w, depth)?;
    list.append(outcome)?;
    Ok(list)
}

/// The column of the name that stands beside a column's place, or NULL of the column's type.
fn cell(
    alloc: Global,
    depth: usize,
    pairs: &[(u32, ItemColumn)],
    passed: Option<u32>,
    ty: Ty,
) -> Result<Expr, NoMemory>
    ensures { IfOk result (λ e. e ≡ spec.cell depth (standing pairs.now) ty passed) }
{
    match passed {
        None => null(alloc, ty),
        Some(name) => Ok(Expr::Column(seen(place_of(pairs, name), depth)?)),
    }
}

/// Adds a cell for each column.
fn add_cells(
    alloc: Global,
    list: &mut Items<Item>,
    depth: usize,
    pairs: &[(u32, ItemColumn)],
    keys: &[u32],
    args: &[u32],
    columns: &[Ty],
) -> Result<(), NoMemory>
    ensures { OnOk result (list.new ≡ list.old ++ map tree.item
        (spec.cells_at 0 depth (standing pairs.now) keys.now args.now columns.now)) }
{
    for i in 0..columns.len() {
        let passed = beside(keys, args, small(i)?);
        add(list, cell(alloc, depth, pairs, passed, columns[i])?)?;
    }
    Ok(())
}

/// The row of a call to a label, counted from 0.
pub(crate) fn call_row(
    alloc: Global,
    w: &Writer<'_>,
    depth: usize,
    pairs: &[(u32, ItemColumn)],
    label: usize,
    args: &[u32],
) -> Result<Items<Item>, NoMemory>
    ensures { IfOk result (λ list. list ≡ map tree.item
        (carrying.call_row (making w.now) w.now.carried.now depth (standing pairs.now) label
        (spec.keys_of (making w.now) label) args.now)) }
{
    let mut list = only(alloc, truth(alloc, true)?)?;
    add(&mut list, number(alloc, after(label)?)?)?;
    add_carried(&mut list, depth, w.carried)?;
    let keys = places_at(w, label);
    let columns = w.tail.columns.as_slice();
    add_cells(alloc, &mut list, depth, pairs, keys, args, columns)?;
    add(&mut list, null(alloc, w.result)?)?;
    add(&mut list, null(alloc, Ty::Text)?)?;
    Ok(list)
}

/// All columns of an item.
#[tactic(auto, using(crate::proofs::CellRules::one_more_of))]
pub(crate) fn all_columns(
    alloc: Global,
    w: &Writer<'_>,
    item: usize,
) -> Result<Items<Item>, NoMemory>
    ensures { IfOk result (λ list. list
        ≡ map tree.item (carrying.all_columns (making w.now) w.now.carried.now item)) }
{
    let mut list = Items::new(alloc);
    let many = sum(sum(w.carried.len(), w.tail.columns.len())?, 4)?;
    for i in 0..many {
        add(&mut list, col(0, item, i)?)?;
    }
    Ok(list)
}

/// A parameter of the query, by the name that holds it, or NULL of the column's type.
fn argument(alloc: Global, w: &Writer<'_>, passed: Option<u32>, ty: Ty) -> Result<Expr, NoMemory>
    ensures { IfOk result (λ e. e ≡ spec.argument (making w.now) ty passed) }
{
    match passed {
        None => null(alloc, ty),
        Some(name) => match name.checked_add(1) {
            Some(place) => Ok(Expr::Param(place, type_of(w, name))),
            None => Err(NoMemory),
        },
    }
}

/// Adds the arguments in the places of the entry's parameters.
pub(crate) fn add_arguments(
    alloc: Global,
    w: &Writer<'_>,
    list: &mut Items<Item>,
    keys: &[u32],
    params: &[u32],
) -> Result<(), NoMemory>
    ensures { OnOk result (list.new ≡ list.old ++ map tree.item
        (spec.arguments_at (making w.now) 0 keys.now params.now w.now.tail.now.columns)) }
{
    let columns = w.tail.columns.as_slice();
    for i in 0..columns.len() {
        let passed = beside(keys, params, small(i)?);
        add(list, argument(alloc, w, passed, columns[i])?)?;
    }
    Ok(())
}
