//! Arithmetic on integers.

ghost use Rattle.std.specs.Prelude.{◌≡◌};
ghost use Rattle.away_values.specs.Operators.{int_op as int_value, int_result as int_answer, literal_type as type_of_literal, small as small_value};

use crate::operators::IntOp;
use crate::sqlstate;
use crate::types::Ty;
use crate::values::{Class, Value};

/// Applies the operator to two bigints; NULL where an operand is NULL (PostgreSQL manual, 9.3, Mathematical Functions and
/// Operators). 22003 is a result out of range, 22012 a zero divisor.
pub fn int_op(op: IntOp, a: &Value, b: &Value) -> Result<Value, Class>
    ensures { result ≡ int_value op a.now b.now }
{
    match a {
        Value::Int(x) => match b {
            Value::Int(y) => int_result(op, *x, *y),
            _ => Ok(Value::Null),
        },
        _ => Ok(Value::Null),
    }
}

fn int_result(op: IntOp, a: i64, b: i64) -> Result<Value, Class>
    ensures { result ≡ int_answer op a b }
{
    let exact = match op {
        IntOp::Add => a.checked_add(b),
        IntOp::Sub => a.checked_sub(b),
        IntOp::Mul => a.checked_mul(b),
        IntOp::Div => {
            if b == 0 {
                return Err(sqlstate::DIVISION_BY_ZERO);
            }
            a.checked_div(b)
        }
        IntOp::Rem => {
            if b == 0 {
                return Err(sqlstate::DIVISION_BY_ZERO);
            }
            if b == -1 { Some(0) } else { a.checked_rem(b) }
        }
    };
    match exact {
        Some(n) => Ok(Value::Int(n)),
        None => Err(sqlstate::NUMERIC_VALUE_OUT_OF_RANGE),
    }
}

/// The type of a literal: integer where 32 bits hold it. The manual: 4.1.2.6, Numeric Constants.
#[tactic(auto, unfolding(crate::specs::Operators::literal_type))]
pub fn literal_type(n: i64) -> Ty
    ensures { result ≡ type_of_literal n }
{
    if n >= 0 && n < 2147483648 {
        Ty::Integer
    } else {
        Ty::Bigint
    }
}

/// The value as an integer of 32 bits: itself, or 22003 where it is a number outside -2147483648 to 2147483647.
/// The manual: 8.1.1, Integer Types. 22003 is numeric_value_out_of_range; NULL stays NULL.
pub fn small(v: &Value) -> Result<Value, Class>
    ensures { result ≡ small_value v.now }
{
    match v {
        Value::Int(n) => match i32::try_from(*n) {
            Ok(_) => Ok(Value::Int(*n)),
            Err(_) => Err(sqlstate::NUMERIC_VALUE_OUT_OF_RANGE),
        },
        _ => Ok(Value::Null),
    }
}
