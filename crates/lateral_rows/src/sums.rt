//! The sum of a column.

ghost use Rattle.std.specs.Prelude.{◌≡◌, if◌then◌else◌};
ghost use Rattle.sql_meaning.specs.Functions.{in_range};
ghost use Rattle.sql_meaning.specs.KeyOrder.{number as number_of};
ghost use Rattle.away_values.specs.Results.{Answers};
ghost use Rattle.away_values.specs.declared.values.Value.TheVariants as val;
ghost use Rattle.lateral_rows.specs.Aggregates.{has_int, whole_sum, is_int as is_integer};

use away_values::{OpError, Value, sqlstate};

/// The sum of the integers of a column, NULL over none. Its range is tested once, at the end.
pub(crate) fn sum(column: &[Value]) -> Result<Value, OpError>
    ensures { Answers (in_range
        (if has_int column.now then val.Int (whole_sum column.now) else val.Null)) result }
{
    if !any_int(column) {
        return Ok(Value::Null);
    }
    match i64::try_from(total(column)) {
        Ok(n) => Ok(Value::Int(n)),
        Err(_) => Err(OpError::Class(sqlstate::NUMERIC_VALUE_OUT_OF_RANGE)),
    }
}

/// The sum in 128 bits, which no column leaves.
#[tactic(auto, using(crate::proofs::SumRules::sum_rules))]
fn total(column: &[Value]) -> i128
    ensures { result ≡ whole_sum column.now }
{
    let mut total: i128 = 0;
    for v in column {
        total += number(v) as i128;
    }
    total
}

#[tactic(auto, using(crate::proofs::SumRules::sum_rules))]
fn any_int(column: &[Value]) -> bool
    ensures { result ≡ has_int column.now }
{
    for v in column {
        if is_int(v) {
            return true;
        }
    }
    false
}

fn number(v: &Value) -> i64
    ensures { result ≡ number_of v.now }
{
    match v {
        Value::Int(n) => *n,
        _ => 0,
    }
}

fn is_int(v: &Value) -> bool
    ensures { result ≡ is_integer v.now }
{
    match v {
        Value::Int(_) => true,
        _ => false,
    }
}
