//! The total order of values.

ghost use Rattle.std.specs.Prelude.{◌≡◌};
ghost use Rattle.std.specs.Option.{option_copied};
ghost use Rattle.std.specs.Ordering.{nat_cmp};
ghost use Rattle.std.specs.Cmp.Lexicographic.{slice_cmp};
ghost use Rattle.sql_meaning.specs.KeyOrder.{value_cmp};
ghost use Rattle.lateral_rows.specs.RowParts.{or_null};
ghost use Rattle.away_values.specs.declared.values.Value.TheVariants as val;

use away_values::{Value, Word};
use std::cmp::Ordering;

/// The order of two values, NULL where one is missing.
pub(crate) fn compare_held(a: Option<&Value>, b: Option<&Value>) -> Ordering
    ensures { result ≡ value_cmp (or_null (option_copied a.entry))
        (or_null (option_copied b.entry)) }
{
    let null = Value::Null;
    let a = match a {
        Some(a) => a,
        None => &null,
    };
    let b = match b {
        Some(b) => b,
        None => &null,
    };
    compare_values(a, b)
}

/// The total order of values: numbers, truth values, texts, NULL.
#[tactic(auto, using(crate::proofs::ValueOrders::value_rules))]
fn compare_values(a: &Value, b: &Value) -> Ordering
    ensures { result ≡ value_cmp a.now b.now }
{
    match a {
        Value::Int(x) => match b {
            Value::Int(y) => x.cmp(y),
            _ => Ordering::Less,
        },
        Value::Bool(x) => match b {
            Value::Int(_) => Ordering::Greater,
            Value::Bool(y) => compare_bools(*x, *y),
            _ => Ordering::Less,
        },
        Value::Text(x) => match b {
            Value::Text(y) => compare_texts(x, y),
            Value::Null => Ordering::Less,
            _ => Ordering::Greater,
        },
        Value::Null => match b {
            Value::Null => Ordering::Equal,
            _ => Ordering::Greater,
        },
    }
}

fn compare_bools(x: bool, y: bool) -> Ordering
    ensures { result ≡ value_cmp (val.Bool x) (val.Bool y) }
{
    if x == y {
        Ordering::Equal
    } else if y {
        Ordering::Less
    } else {
        Ordering::Greater
    }
}

fn compare_texts(x: &Word, y: &Word) -> Ordering
    ensures { result ≡ slice_cmp nat_cmp x.now y.now }
{
    x.text().chars().cmp(y.text().chars())
}
