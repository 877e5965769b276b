//! The greatest or the least of several values.

ghost use Rattle.std.specs.Prelude.{◌≡◌, fold};
ghost use Rattle.std.specs.Option.{option_copied};
ghost use Rattle.away_values.specs.Operators as op;
ghost use Rattle.away_values.specs.declared.values.Value.TheVariants as val;
ghost use Rattle.lateral_rows.specs.RowParts.{or_null};

use crate::truth::{is_null, is_true};
use away_values::{CmpOp, Value, compare};

/// GREATEST or LEAST of a value so far and another.
fn extreme<'a>(greatest: bool, a: Option<&'a Value>, b: &'a Value) -> Option<&'a Value>
    ensures { or_null (option_copied result)
        ≡ op.extreme greatest (or_null (option_copied a.entry)) b.entry.now }
{
    let Some(a) = a else {
        return Some(b);
    };
    if is_null(a) {
        return Some(b);
    }
    let later = if greatest {
        compare(CmpOp::Lt, a, b)
    } else {
        compare(CmpOp::Gt, a, b)
    };
    if is_true(&later) { Some(b) } else { Some(a) }
}

/// The greatest or the least of the values that aren't NULL, lent; the first of equal ones.
pub fn most_extreme<'a>(greatest: bool, list: &'a [Value]) -> Option<&'a Value>
    ensures { or_null (option_copied result) ≡ fold (op.extreme greatest) val.Null list.entry.now }
{
    let mut best = None;
    for i in 0..list.len() {
        best = extreme(greatest, best, &list[i]);
    }
    best
}
