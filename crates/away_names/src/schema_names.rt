//! The names of a schema.

ghost use Rattle.std.specs.Prelude.{◌≡◌, ◌∷◌, ◌++◌, [], IfOk, false, map, string_bytes};
ghost use Rattle.away_trees.specs.declared.schemas.ColumnSchema.{ColumnSchema};
ghost use Rattle.away_trees.specs.declared.schemas.TableSchema.{TableSchema};
ghost use Rattle.away_names.specs.Lookups as lookups;
ghost use Rattle.away_names.specs.Notes.{all_notes};
ghost use Rattle.away_names.specs.Schemas as spec;

use crate::lookups::is_kept;
use crate::note::{Note, breaks, clean, joined};
use crate::rule::Rule;
use away_trees::{ColumnSchema, Schema, TableSchema};
use away_values::{Name, NoMemory};
use indexmap::IndexSet;
use std::alloc::Global;

fn kept(n: &Name) -> Note
    ensures { result ≡ spec.kept n.now }
{
    breaks(Rule::Reserved, is_kept(n))
}

/// Whether the name stands among those before.
fn stands_in(n: &Name, seen: &IndexSet<String>) -> bool
    ensures { result ≡ spec.stands_in n.now (map string_bytes seen.now.keys) }
{
    seen.contains(n.text())
}

/// One more name behind those before, among which it doesn't stand.
fn with_name(alloc: Global, seen: IndexSet<String>, n: &Name) -> Result<IndexSet<String>, NoMemory>
    requires { spec.stands_in n.now (map string_bytes seen.keys) ≡ false }
    ensures { IfOk result (λ s. map string_bytes s.keys ≡ map string_bytes seen.keys ++ n.now
        ∷ []) }
{
    let name = String::from_str(alloc, n.text())?;
    let mut all = seen;
    match all.insert(name) {
        Ok(_) => Ok(all),
        Err(_) => Err(NoMemory),
    }
}

#[tactic(auto, using(crate::proofs::Doubles::none_behind))]
fn columns_doubled(alloc: Global, columns: &[ColumnSchema]) -> Result<bool, NoMemory>
    ensures { IfOk result (λ b. b
        ≡ lookups.has_double (map (λ (c : ColumnSchema). c.name) columns.now)) }
{
    let mut seen = IndexSet::new(alloc);
    let mut rest = columns;
    while let [c, more @ ..] = rest {
        if stands_in(&c.name, &seen) {
            return Ok(true);
        }
        seen = with_name(alloc, seen, &c.name)?;
        rest = more;
    }
    Ok(false)
}

fn columns_note(columns: &[ColumnSchema]) -> Note
    ensures { result ≡ all_notes spec.kept (map (λ (c : ColumnSchema). c.name) columns.now) }
{
    let mut note = clean();
    for c in columns {
        note = joined(note, kept(&c.name));
    }
    note
}

fn table_note(alloc: Global, t: &TableSchema) -> Result<Note, NoMemory>
    ensures { IfOk result (λ n. n ≡ spec.table_note t.now) }
{
    let columns = t.columns.as_slice();
    let doubled = columns_doubled(alloc, columns)?;
    Ok(joined(
        joined(kept(&t.name), breaks(Rule::Duplicates, doubled)),
        columns_note(columns),
    ))
}

#[tactic(auto, using(crate::proofs::Doubles::none_behind))]
fn tables_doubled(alloc: Global, tables: &[TableSchema]) -> Result<bool, NoMemory>
    ensures { IfOk result (λ b. b
        ≡ lookups.has_double (map (λ (t : TableSchema). t.name) tables.now)) }
{
    let mut seen = IndexSet::new(alloc);
    let mut rest = tables;
    while let [t, more @ ..] = rest {
        if stands_in(&t.name, &seen) {
            return Ok(true);
        }
        seen = with_name(alloc, seen, &t.name)?;
        rest = more;
    }
    Ok(false)
}

fn tables_note(alloc: Global, tables: &[TableSchema]) -> Result<Note, NoMemory>
    ensures { IfOk result (λ n. n ≡ all_notes spec.table_note tables.now) }
{
    let mut note = clean();
    for t in tables {
        note = joined(note, table_note(alloc, t)?);
    }
    Ok(note)
}

/// The least rule that the names of a schema break.
pub fn schema_note(alloc: Global, s: &Schema) -> Result<Note, NoMemory>
    ensures { IfOk result (λ n. n ≡ spec.schema_note s.now) }
{
    let tables = s.tables.as_slice();
    let doubled = tables_doubled(alloc, tables)?;
    Ok(joined(
        breaks(Rule::Duplicates, doubled),
        tables_note(alloc, tables)?,
    ))
}
