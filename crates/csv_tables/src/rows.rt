//! The values of a row.

ghost use Rattle.std.specs.Prelude.{◌≡◌, IfErr, IfOk, Ok, bytes_eq, ◌&&◌};
ghost use Rattle.csv.specs.Records.{fields_of};
ghost use Rattle.csv_tables.specs.Cells.{is_null_mark};
ghost use Rattle.csv_tables.specs.Files.{Refuses, cell_of, is_header as is_header_of, row_of};

use crate::cells::{is_null, read_value};
use crate::refusal::TableRefusal;
use away_trees::ColumnSchema;
use away_values::Value;
use csv::ByteRecord;
use sqlite_items::Items;
use std::alloc::Global;

/// Whether the fields are the names of the columns, in their order.
pub(crate) fn is_header(columns: &[ColumnSchema], fields: &ByteRecord) -> bool
    ensures { result ≡ is_header_of columns.now (fields_of fields.now) }
{
    if columns.len() != fields.len() {
        return false;
    }
    for i in 0..columns.len() {
        let Some(field) = fields.get(i) else {
            return false;
        };
        if !is_name_of(&columns[i], field) {
            return false;
        }
    }
    true
}

fn is_name_of(column: &ColumnSchema, field: &[u8]) -> bool
    ensures { result ≡ bytes_eq field.now column.now.name }
{
    field == column.name.text().as_bytes()
}

/// The values of a row's fields, one for each column. The row's number is told in a refusal.
pub(crate) fn row_values(
    alloc: Global,
    columns: &[ColumnSchema],
    fields: &ByteRecord,
    row: u64,
) -> Result<Items<Value>, TableRefusal>
    ensures values { IfOk result
        (λ values. row_of row columns.now (fields_of fields.now) ≡ Ok values) }
    ensures refused { IfErr result (Refuses (row_of row columns.now (fields_of fields.now))) }
{
    if fields.len() != columns.len() {
        return Err(TableRefusal::Count { row });
    }
    let mut values = Items::new(alloc);
    for i in 0..columns.len() {
        let Some(field) = fields.get(i) else {
            return Err(TableRefusal::Count { row });
        };
        values.push(cell(alloc, &columns[i], field, row, i as u64 + 1)?)?;
    }
    Ok(values)
}

/// Whether the field is NULL in a column that takes none.
fn is_missing(column: &ColumnSchema, field: &[u8]) -> bool
    ensures { result ≡ (column.now.not_null && is_null_mark field.now) }
{
    column.not_null && is_null(field)
}

/// The value of a field under its column. The number of the row and of the column are told in a refusal.
#[tactic(auto, using(crate::proofs::RowSteps::cell_cases))]
fn cell(
    alloc: Global,
    column: &ColumnSchema,
    field: &[u8],
    row: u64,
    place: u64,
) -> Result<Value, TableRefusal>
    ensures value { IfOk result (λ value. cell_of row place column.now field.now ≡ Ok value) }
    ensures refused { IfErr result (Refuses (cell_of row place column.now field.now)) }
{
    if is_missing(column, field) {
        return Err(TableRefusal::NullCell { row, column: place });
    }
    match read_value(alloc, column.ty, field)? {
        Some(value) => Ok(value),
        None => Err(TableRefusal::Cell { row, column: place }),
    }
}
