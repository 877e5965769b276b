//! The rows of a table's file.

ghost use Rattle.std.specs.Prelude.{◌≡◌, IfErr, IfOk, Ok};
ghost use Rattle.away_trees.specs.Fits.{FitsTable};
ghost use Rattle.csv_tables.specs.Files.{Refuses, rows_in, rows_of};
ghost use Rattle.csv_tables.specs.Unread.{IsBetween, records_left};

use crate::records::{next_record, reader_of};
use crate::refusal::TableRefusal;
use crate::rows::{is_header, row_values};
use away_trees::{ColumnSchema, TableSchema};
use away_values::{Table, Value};
use csv::{ByteRecord, Reader};
use sqlite_items::Items;
use std::alloc::Global;

/// The table that the bytes of a file hold. Its first record is the names of the columns, and each other one a row.
/// Nearest in the manual is COPY, CSV Format, with HEADER MATCH; how NULL is written is our own choice.
pub fn read_table(alloc: Global, t: &TableSchema, bytes: &[u8]) -> Result<Table, TableRefusal>
    ensures rows { IfOk result (λ table. rows_in t.now bytes.now ≡ Ok table.rows) }
    ensures fits { IfOk result (λ table. FitsTable t.now table.rows) }
    ensures refused { IfErr result (Refuses (rows_in t.now bytes.now)) }
{
    let columns = t.columns.as_slice();
    let mut reader = reader_of(alloc, bytes);
    let mut fields = ByteRecord::new(alloc);
    if !next_record(&mut reader, &mut fields)? {
        return Err(TableRefusal::Header);
    }
    if !is_header(columns, &fields) {
        return Err(TableRefusal::Header);
    }
    Ok(Table {
        rows: rows_below(alloc, columns, &mut reader, &mut fields)?,
    })
}

/// The rows that are left. More than 64 bits count don't fit memory.
fn rows_below(
    alloc: Global,
    columns: &[ColumnSchema],
    reader: &mut Reader<&[u8]>,
    fields: &mut ByteRecord,
) -> Result<Items<Items<Value>>, TableRefusal>
    requires { IsBetween reader.old }
    ensures rows { IfOk result (λ rows. rows_of 1 columns.now (records_left reader.old) ≡ Ok rows) }
    ensures refused { IfErr result (Refuses (rows_of 1 columns.now (records_left reader.old))) }
{
    let mut rows = Items::new(alloc);
    for row in 1..u64::MAX {
        if !next_record(reader, fields)? {
            return Ok(rows);
        }
        rows.push(row_values(alloc, columns, fields, row)?)?;
    }
    Err(TableRefusal::NoMemory)
}
