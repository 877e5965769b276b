//! The value of one field.

ghost use Rattle.std.specs.Prelude.{◌≡◌, IfOk, option_map};
ghost use Rattle.csv_tables.specs.Cells.{is_null_mark, text_of, value_of};
ghost use Rattle.away_values.specs.declared.values.Value.TheVariants as val;

use crate::numbers::{bigint, integer, truth};
use away_values::{NoMemory, Ty, Value, word};
use std::alloc::Global;

/// The value of the type that the bytes write, or None where they write none. `\N` is NULL.
/// That it is so in quotes too is our own choice; in the manual (COPY, CSV Format) NULL is an empty field without quotes.
#[tactic(auto, using(crate::proofs::CellFacts::cell_facts))]
pub fn read_value(alloc: Global, ty: Ty, text: &[u8]) -> Result<Option<Value>, NoMemory>
    ensures { IfOk result (λ found. found ≡ value_of ty text.now) }
{
    if is_null(text) {
        return Ok(Some(Value::Null));
    }
    match ty {
        Ty::Bigint => Ok(bigint(text).map(Value::Int)),
        Ty::Integer => Ok(integer(text).map(Value::Int)),
        Ty::Boolean => Ok(truth(text).map(Value::Bool)),
        Ty::Text => text_value(alloc, text),
    }
}

pub(crate) fn is_null(field: &[u8]) -> bool
    ensures { result ≡ is_null_mark field.now }
{
    field == b"\\N".as_slice()
}

fn text_value(alloc: Global, field: &[u8]) -> Result<Option<Value>, NoMemory>
    ensures { IfOk result (λ found. found ≡ option_map val.Text (text_of field.now)) }
{
    let Ok(text) = str::from_utf8(field) else {
        return Ok(None);
    };
    Ok(word(alloc, text)?.map(Value::Text))
}
