//! The tables of a folder.

ghost use Rattle.std.specs.Prelude.{◌≡◌, ◌++◌, IfOk, OnOk, string_bytes};
ghost use Rattle.sql_meaning.specs.AtBound.{rows_of_tables};
ghost use Rattle.away_top.specs.Course.{RefusedBy};
ghost use Rattle.away_top.specs.Lines.{refusal};
ghost use Rattle.away_top.specs.Runs.{Follows};
ghost use Rattle.away_top.specs.Steps.{IsEnding, stretch_end};
ghost use Rattle.away_top.specs.TableFiles.{IsTableRule, counted, table_course, table_file as file_of_table, tables_course};

use crate::ending::{Ending, Halt, refused};
use crate::files::{MAX_FILE, bytes_of};
use crate::{Files, Status};
use away_trees::TableSchema;
use away_values::{Table, Tables};
use csv_tables::{TableRefusal, read_table};
use itoa::Buffer;
use sqlite_items::Items;
use std::alloc::{AllocError, Global};

/// The tables that the files of a folder hold, in the order of the schema.
pub fn tables_of<F: Files>(
    alloc: Global,
    dir: &str,
    tables: &[TableSchema],
    files: &mut F,
) -> Result<Tables, Halt>
    ensures { Follows F.Files files.old (tables_course dir.now tables.now) files.new
        (stretch_end (λ found. rows_of_tables found.list) result) }
{
    let mut list = Items::new(alloc);
    for i in 0..tables.len() {
        list.push(table_of(alloc, dir, &tables[i], files)?)?;
    }
    Ok(Tables { list })
}

/// The table that its file holds.
fn table_of<F: Files>(
    alloc: Global,
    dir: &str,
    table: &TableSchema,
    files: &mut F,
) -> Result<Table, Halt>
    ensures { Follows F.Files files.old (table_course dir.now table.now) files.new
        (stretch_end (λ found. found.rows) result) }
{
    let name = table_file(alloc, dir, table.name.text())?;
    let bytes = bytes_of(alloc, &name, MAX_FILE, files)?;
    match read_table(alloc, table, &bytes) {
        Ok(found) => Ok(found),
        Err(refusal) => Err(Halt::Ended(refuse(alloc, &name, refusal)?)),
    }
}

/// Where a table's file stands.
fn table_file(alloc: Global, dir: &str, name: &str) -> Result<String, AllocError>
    ensures { IfOk result (λ file. string_bytes file ≡ file_of_table dir.now name.now) }
{
    let mut file = String::from_str(alloc, dir)?;
    file.push_str("/")?;
    file.push_str(name)?;
    file.push_str(".csv")?;
    Ok(file)
}

/// How the run ends where a table's file is refused.
fn refuse(alloc: Global, name: &str, refusal: TableRefusal) -> Result<Ending, AllocError>
    ensures { IfOk result (λ ending. RefusedBy name.now
        (IsTableRule refusal) ending.status ending.output.items) }
{
    match refusal {
        TableRefusal::Header => refused(alloc, name, b"Z1"),
        TableRefusal::Count { row } => {
            let mut rule = b"Z2".to_vec(alloc)?;
            push_count(&mut rule, row)?;
            refused(alloc, name, &rule)
        }
        TableRefusal::Cell { row, column } => refused_field(alloc, name, b"Z3", row, column),
        TableRefusal::NullCell { row, column } => refused_field(alloc, name, b"Z4", row, column),
        TableRefusal::NoMemory => Err(AllocError),
    }
}

/// The file is refused for a field.
fn refused_field(
    alloc: Global,
    name: &str,
    rule: &[u8],
    row: u64,
    column: u64,
) -> Result<Ending, AllocError>
    ensures { IfOk result (λ ending. IsEnding ending Status.Refused
        (refusal name.now (rule.now ++ (counted row ++ counted column)))) }
{
    let mut rule = rule.to_vec(alloc)?;
    push_count(&mut rule, row)?;
    push_count(&mut rule, column)?;
    refused(alloc, name, &rule)
}

/// Adds a space and a number.
fn push_count(rule: &mut Vec<u8>, count: u64) -> Result<(), AllocError>
    ensures { OnOk result (rule.new.items ≡ rule.old.items ++ counted count) }
{
    let mut buffer = Buffer::new();
    rule.push(b' ')?;
    rule.extend_from_slice(buffer.format(count).as_bytes())?;
    Ok(())
}
