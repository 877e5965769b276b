//! The rows of a table by its place.

ghost use Rattle.std.specs.Prelude.{◌≡◌, [], MatchOption, slice_index_or, ◌≤◌, ◌<◌, ◌^◌};
ghost use Rattle.std.specs.Str.Parse.{digits_value};
ghost use Rattle.std.specs.Char.{digit_value};
ghost use Rattle.sql_meaning.specs.Selects.{place_of};

use crate::scope::Outside;
use away_values::{Name, Value};
use sqlite_items::Items;

/// The rows of the table whose place stands first in the list of columns.
pub(crate) fn place_rows<'t>(outside: &Outside<'_, 't>, columns: &[Name]) -> &'t [Items<Value>]
    ensures { result.now ≡ slice_index_or outside.now.tables (place_of columns.now) [] }
{
    match place(columns) {
        Some(n) => outside.table(n),
        None => outside.no_table(),
    }
}

/// A table's place, where it is below 2^64.
pub(crate) fn place(columns: &[Name]) -> Option<usize>
    ensures { MatchOption result (2 ^ 64 ≤ place_of columns.now) (λ n. n ≡ place_of columns.now) }
{
    match columns {
        [] => Some(0),
        [name, ..] => number(name.text().as_bytes()),
    }
}

#[tactic(auto, using(crate::proofs::Digits::digit_rules))]
fn number(digits: &[u8]) -> Option<usize>
    ensures { MatchOption result (2 ^ 64 ≤ digits_value 10 digits.now)
        (λ n. n ≡ digits_value 10 digits.now) }
{
    let mut n: usize = 0;
    for d in digits {
        let wide = n as u128 * 10 + digit(*d) as u128;
        if wide > usize::MAX as u128 {
            return None;
        }
        n = wide as usize;
    }
    Some(n)
}

fn digit(c: u8) -> u8
    ensures value { result ≡ digit_value c }
    ensures small { result < 37 }
{
    if c < 48 {
        36
    } else if c < 58 {
        c - 48
    } else if c < 65 {
        36
    } else if c < 91 {
        c - 55
    } else if c < 97 {
        36
    } else if c < 123 {
        c - 87
    } else {
        36
    }
}
