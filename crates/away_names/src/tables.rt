//! The tables of a schema, by name.

ghost use Rattle.std.specs.Prelude.{◌≡◌, IfOk, List, ℕ, decimal, ◌++◌, map, bytes_eq, if◌then◌else◌};
ghost use Rattle.away_trees.specs.declared.schemas.ColumnSchema.{ColumnSchema};
ghost use Rattle.away_values.specs.Words.{IsName};
ghost use Rattle.indexmap.specs.IndexMap.{get_by_text};
ghost use Rattle.away_names.specs.Tables as spec;

use crate::scope::Listed;
use away_trees::{ColumnSchema, Schema, TableSchema};
use away_values::{Name, NoMemory, name};
use indexmap::IndexMap;
use itoa::Buffer;
use sqlite_items::Items;
use std::alloc::Global;

fn name_that_is(alloc: Global, text: &str) -> Result<Name, NoMemory>
    requires { IsName text.now }
    ensures { IfOk result (λ n. n ≡ text.now) }
{
    match name(alloc, text)? {
        Some(name) => Ok(name),
        None => unreachable!(),
    }
}

/// The digits of a place.
pub fn digits(alloc: Global, place: usize) -> Result<Name, NoMemory>
    ensures { IfOk result (λ n. n ≡ decimal place) }
{
    let mut buffer = Buffer::new();
    name_that_is(alloc, buffer.format(place))
}

fn with_columns(
    alloc: Global,
    columns: &[ColumnSchema],
    before: Items<Name>,
) -> Result<Items<Name>, NoMemory>
    ensures { IfOk result (λ all. all ≡ before ++ map (λ (c : ColumnSchema). c.name) columns.now) }
{
    let mut all = before;
    for c in columns {
        all.push(c.name.copy(alloc)?)?;
    }
    Ok(all)
}

fn listed(alloc: Global, place: usize, t: &TableSchema) -> Result<Listed, NoMemory>
    ensures { IfOk result (λ l. l ≡ spec.listed place t.now) }
{
    let mut written = Items::new(alloc);
    written.push(digits(alloc, place)?)?;
    Ok(Listed {
        written: with_columns(alloc, t.columns.as_slice(), written)?,
        recursive: false,
    })
}

/// One more table, in place of one of its name.
fn with_table(
    alloc: Global,
    tables: IndexMap<String, Listed>,
    place: usize,
    t: &TableSchema,
) -> Result<IndexMap<String, Listed>, NoMemory>
    ensures { IfOk result (λ m. (n : List ℕ) → get_by_text m n
        ≡ (if bytes_eq t.now.name n then Some
        (spec.listed place t.now) else get_by_text tables n)) }
{
    let name = String::from_str(alloc, t.name.text())?;
    let table = listed(alloc, place, t)?;
    let mut all = tables;
    match all.insert(name, table) {
        Ok(_) => Ok(all),
        Err(_) => Err(NoMemory),
    }
}

/// The tables of a schema by their names, so that a look-up doesn't walk the schema.
#[tactic(auto, unfolding(crate::specs::Tables::table_of))]
pub fn tables_of(alloc: Global, s: &Schema) -> Result<IndexMap<String, Listed>, NoMemory>
    ensures { IfOk result (λ m. (λ n. get_by_text m n) ≡ spec.table_of s.now) }
{
    let mut tables = IndexMap::new(alloc);
    let mut rest = s.tables.as_slice();
    let mut place = 0;
    while let [t, more @ ..] = rest {
        tables = with_table(alloc, tables, place, t)?;
        rest = more;
        place += 1;
    }
    Ok(tables)
}
