//! The records that tell the rows of a query.

ghost use Rattle.std.specs.Prelude.{◌≡◌, ◌∷◌, ◌++◌, [], IfOk, OnOk};
ghost use Rattle.csv.specs.Records.{fields_of, partial_of};
ghost use Rattle.away_top.specs.RowRecords.{field_of, fields_of_row, records_text, rows_end};
ghost use Rattle.away_top.specs.Steps.{IsEnding};

use crate::Status;
use crate::ending::Ending;
use crate::over_tables::answer_lines::{fault_ending, more_ending};
use away_values::Value;
use csv::{ByteRecord, WriterBuilder};
use itoa::Buffer;
use sql_eval::RowsAnswer;
use sqlite_items::Items;
use std::alloc::{AllocError, Global};

/// How a run ends that gives these rows.
pub fn rows_ending(alloc: Global, answer: &RowsAnswer) -> Result<Ending, AllocError>
    ensures { IfOk result (λ ending. IsEnding ending (rows_end answer.now).0
        (rows_end answer.now).1) }
{
    match answer {
        RowsAnswer::Rows(rows) => Ok(Ending {
            status: Status::Done,
            output: records_of(alloc, rows.as_slice())?,
        }),
        RowsAnswer::Fault(class) => fault_ending(alloc, class),
        RowsAnswer::More => more_ending(alloc),
    }
}

/// The records of rows. A writer over bytes fails only for want of memory.
fn records_of(alloc: Global, rows: &[Items<Value>]) -> Result<Vec<u8>, AllocError>
    ensures { IfOk result (λ text. text.items ≡ records_text rows.now) }
{
    let mut writer = WriterBuilder::new()
        .flexible(true)
        .from_writer(Vec::new(alloc));
    for row in rows {
        let fields = record_of(alloc, row.as_slice())?;
        if writer.write_byte_record(&fields).is_err() {
            return Err(AllocError);
        }
    }
    match writer.into_inner() {
        Ok(text) => Ok(text),
        Err(_) => Err(AllocError),
    }
}

/// The fields of a row.
fn record_of(alloc: Global, row: &[Value]) -> Result<ByteRecord, AllocError>
    ensures { IfOk result (λ fields. fields_of fields ≡ fields_of_row row.now) }
{
    let mut fields = ByteRecord::new(alloc);
    for value in row {
        push_value(&mut fields, value)?;
    }
    Ok(fields)
}

/// Adds the field of a value.
fn push_value(fields: &mut ByteRecord, value: &Value) -> Result<(), AllocError>
    requires { partial_of fields.old ≡ [] }
    ensures added { OnOk result
        (fields_of fields.new ≡ fields_of fields.old ++ field_of value.now ∷ []) }
    ensures partial { OnOk result (partial_of fields.new ≡ []) }
{
    match value {
        Value::Null => fields.push_field(b"\\N"),
        Value::Int(n) => {
            let mut buffer = Buffer::new();
            fields.push_field(buffer.format(*n).as_bytes())
        }
        Value::Bool(true) => fields.push_field(b"true"),
        Value::Bool(false) => fields.push_field(b"false"),
        Value::Text(word) => fields.push_field(word.text().as_bytes()),
    }
}
