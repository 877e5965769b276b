//! Numbers and truth values from bytes.

ghost use Rattle.std.specs.Prelude.{◌≡◌, option_map};
ghost use Rattle.away_values.specs.BigintSpellings.{bigint_of};
ghost use Rattle.away_values.specs.Operators.{fits_small};
ghost use Rattle.csv_tables.specs.Cells.{integer_of, truth_of};
ghost use Rattle.away_values.specs.declared.values.Value.TheVariants as val;

/// The number that an optional sign and digits write, where it has 64 bits.
pub(crate) fn bigint(field: &[u8]) -> Option<i64>
    ensures { result ≡ bigint_of field.now }
{
    match str::from_utf8(field) {
        Ok(text) => signed(text),
        Err(_) => None,
    }
}

fn signed(text: &str) -> Option<i64>
    ensures { result ≡ bigint_of text.now }
{
    i64::from_str_radix(text, 10).ok()
}

/// The same, where the number has 32 bits.
pub(crate) fn integer(field: &[u8]) -> Option<i64>
    ensures { option_map val.Int result ≡ integer_of field.now }
{
    let number = bigint(field)?;
    if is_small(number) { Some(number) } else { None }
}

fn is_small(number: i64) -> bool
    ensures { result ≡ fits_small number }
{
    number >= -2_147_483_648 && number <= 2_147_483_647
}

pub(crate) fn truth(field: &[u8]) -> Option<bool>
    ensures { result ≡ truth_of field.now }
{
    if field == b"t".as_slice() || field == b"true".as_slice() {
        Some(true)
    } else if field == b"f".as_slice() || field == b"false".as_slice() {
        Some(false)
    } else {
        None
    }
}
