//! The first rows of many calls, and what is told of their last ones.

ghost use Rattle.std.specs.Prelude.{◌≡◌, ◌++◌, ◌∷◌, [], false, map, IfOk, OnOk};
ghost use Rattle.away_trees.specs.declared.queries.Expr.TheViews.{roll-Key};
ghost use Rattle.away_trees.specs.declared.schemas.ColumnSchema.{ColumnSchema};
ghost use Rattle.cte_template.specs.Starts as spec;
ghost use Rattle.sql_meaning.specs.Trees as tree;

use crate::places::beside;
use crate::writer::{Writer, label_of, params_of, places_at};
use away_trees::{ColumnSchema, Expr, FromItem, Item, Key, Select, Source, TableSchema};
use away_types::CheckedFunction;
use away_values::{Name, NoMemory, Ty};
use block_forms::Goto;
use call_forms::{Anf, Tail};
use cte_parts::{
    add, after, col, digits, not, null, number, only, select, small, sum, truth, working_carrying,
};
use sqlite_items::Items;
use std::alloc::Global;

/// Adds the names of columns.
fn add_names(
    alloc: Global,
    list: &mut Items<Name>,
    columns: &[ColumnSchema],
) -> Result<(), NoMemory>
    ensures { OnOk result
        (list.new ≡ list.old ++ map (λ (c : ColumnSchema). c.name) columns.now) }
{
    for column in columns {
        list.push(column.name.copy(alloc)?)?;
    }
    Ok(())
}

/// A table of the schema, by its place there.
fn from_table(alloc: Global, place: usize, table: &TableSchema) -> Result<FromItem, NoMemory>
    ensures { IfOk result (λ i. i ≡ spec.from_table place table.now) }
{
    let mut columns = Items::new(alloc);
    columns.push(digits(alloc, place)?)?;
    add_names(alloc, &mut columns, table.columns.as_slice())?;
    Ok(FromItem {
        source: Source::Table(table.name.copy(alloc)?),
        alias: table.name.copy(alloc)?,
        columns,
    })
}

/// The column that holds a parameter, or NULL of the type.
fn parameter(alloc: Global, passed: Option<u32>, ty: Ty) -> Result<Expr, NoMemory>
    ensures { IfOk result (λ e. e ≡ spec.parameter ty passed) }
{
    match passed {
        None => null(alloc, ty),
        Some(name) => col(0, 0, after(name as usize)?),
    }
}

/// Adds the table's columns in the places of the entry's parameters.
fn add_parameters(
    alloc: Global,
    list: &mut Items<Item>,
    keys: &[u32],
    params: &[u32],
    columns: &[Ty],
) -> Result<(), NoMemory>
    ensures { OnOk result (list.new ≡ list.old ++ map tree.item
        (spec.parameters_at 0 keys.now params.now columns.now)) }
{
    for i in 0..columns.len() {
        let passed = beside(keys, params, small(i)?);
        add(list, parameter(alloc, passed, columns[i])?)?;
    }
    Ok(())
}

/// The row of a call: it goes on, at the entry's label, with the first column and the arguments, and without a result.
fn starting_row(alloc: Global, w: &Writer<'_>, entry: u32) -> Result<Items<Item>, NoMemory>
    ensures { IfOk result (λ list. list ≡ map tree.item
        (spec.starting_row w.now.result w.now.anf.now w.now.tail.now entry)) }
{
    let label = match label_of(w, entry) {
        Some(label) => label,
        None => w.tail.labels.len(),
    };
    let mut list = only(alloc, truth(alloc, true)?)?;
    add(&mut list, number(alloc, after(label)?)?)?;
    add(&mut list, col(0, 0, 0)?)?;
    let params = params_of(w, entry as usize);
    let columns = w.tail.columns.as_slice();
    add_parameters(alloc, &mut list, places_at(w, label), params, columns)?;
    add(&mut list, null(alloc, w.result)?)?;
    add(&mut list, null(alloc, Ty::Text)?)?;
    Ok(list)
}

/// The first rows of the calls that the rows of a table are: its first column is carried, the others are the arguments. The table stands at this
/// place of the schema.
pub fn calls_of_rows(
    alloc: Global,
    f: &CheckedFunction,
    goto: &Goto,
    anf: &Anf,
    tail: &Tail,
    place: usize,
    table: &TableSchema,
) -> Result<Select, NoMemory>
    ensures { IfOk result (λ s. s ≡ spec.calls_of_rows f.now.function.result anf.now tail.now
        goto.now.entry place table.now) }
{
    let w = Writer {
        table: &[],
        slots: &[],
        names: &[],
        result: f.function.result,
        anf,
        tail,
        carried: &[],
    };
    let list = starting_row(alloc, &w, goto.entry)?;
    let mut from = Items::new(alloc);
    from.push(from_table(alloc, place, table)?)?;
    Ok(select(alloc, list, from, None))
}

/// A key of ORDER BY, alone, in ascending order.
fn ascending(alloc: Global, expr: Expr) -> Result<Items<Key>, NoMemory>
    ensures { IfOk result (λ keys. keys ≡ roll-Key (record { expr = expr; descending = false })
        ∷ []) }
{
    let mut keys = Items::new(alloc);
    keys.push(Key {
        expr,
        descending: false,
    })?;
    Ok(keys)
}

/// The carried column, the result and the fault of each call that has ended, in the order of the carried column. The recursive table stands behind
/// so many tables, and so many of its columns hold values.
pub fn ended_calls(alloc: Global, tables: usize, columns: usize) -> Result<Select, NoMemory>
    ensures { IfOk result (λ s. s ≡ spec.ended_calls tables columns) }
{
    let mut list = only(alloc, col(0, 0, 2)?)?;
    add(&mut list, col(0, 0, sum(columns, 3)?)?)?;
    add(&mut list, col(0, 0, sum(columns, 4)?)?)?;
    let from = working_carrying(alloc, tables, 1, columns)?;
    let filter = Some(not(alloc, col(0, 0, 0)?)?);
    let order = ascending(alloc, col(0, 0, 2)?)?;
    Ok(Select {
        list,
        from,
        filter,
        order,
        limit: None,
    })
}
