//! Comparison of values.

ghost use Rattle.std.specs.Prelude.{◌≡◌};
ghost use Rattle.away_values.specs.Operators.{compare as compare_value, compared, less as is_before, text_less as is_text_before};

use crate::operators::CmpOp;
use crate::values::Value;
use crate::words::Word;
use std::cmp::Ordering;

/// Compares two values of one type; NULL where one of them is NULL (PostgreSQL manual, 9.2, Comparison Functions and Operators).
/// Texts compare by code point, which is our own choice. The manual leaves the order of texts to collations (24.2).
pub fn compare(op: CmpOp, a: &Value, b: &Value) -> Value
    ensures { result ≡ compare_value op a.now b.now }
{
    match a {
        Value::Null => Value::Null,
        _ => match b {
            Value::Null => Value::Null,
            _ => Value::Bool(holds(op, a, b)),
        },
    }
}

fn holds(op: CmpOp, a: &Value, b: &Value) -> bool
    ensures { result ≡ compared op a.now b.now }
{
    match op {
        CmpOp::Eq => !less(a, b) && !less(b, a),
        CmpOp::Ne => less(a, b) || less(b, a),
        CmpOp::Lt => less(a, b),
        CmpOp::Le => !less(b, a),
        CmpOp::Gt => less(b, a),
        CmpOp::Ge => !less(a, b),
    }
}

fn less(a: &Value, b: &Value) -> bool
    ensures { result ≡ is_before a.now b.now }
{
    match a {
        Value::Null => false,
        Value::Int(x) => match b {
            Value::Int(y) => *x < *y,
            _ => false,
        },
        Value::Bool(x) => match b {
            Value::Bool(y) => !*x && *y,
            _ => false,
        },
        Value::Text(x) => match b {
            Value::Text(y) => text_less(x, y),
            _ => false,
        },
    }
}

fn text_less(a: &Word, b: &Word) -> bool
    ensures { result ≡ is_text_before a.now b.now }
{
    a.text().chars().cmp(b.text().chars()) == Ordering::Less
}
