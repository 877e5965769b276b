//! The records of bytes, one after the other.

ghost use Rattle.std.specs.Prelude.{◌≡◌, IfOk, List, ℕ, Some};
ghost use Rattle.csv.specs.Reading.{strip_bom};
ghost use Rattle.csv.specs.Records.{fields_of};
ghost use Rattle.csv_tables.specs.Files.{records_of};
ghost use Rattle.csv_tables.specs.Unread.{IsBetween, TakesNext, records_left};

use away_values::NoMemory;
use csv::{ByteRecord, Reader, ReaderBuilder};
use std::alloc::Global;

/// A reader of records that may have any number of fields, the first as the others.
pub(crate) fn reader_of(alloc: Global, bytes: &[u8]) -> Reader<&[u8]>
    ensures between { IsBetween result }
    ensures records { records_left result ≡ records_of bytes.now }
{
    ReaderBuilder::new()
        .has_headers(false)
        .flexible(true)
        .from_reader(alloc, bytes)
}

/// Reads the next record, and says whether there was one. A reader over bytes fails only for want of memory.
pub(crate) fn next_record(
    reader: &mut Reader<&[u8]>,
    fields: &mut ByteRecord,
) -> Result<bool, NoMemory>
    requires { IsBetween reader.old }
    ensures { IfOk result (λ found. TakesNext found reader.old reader.new (fields_of fields.new)) }
{
    let Ok(found) = reader.read_byte_record(fields) else {
        return Err(NoMemory);
    };
    Ok(found)
}
