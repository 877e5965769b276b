//! What a value is, as a truth value.

ghost use Rattle.std.specs.Prelude.{◌≡◌};
ghost use Rattle.away_values.specs.Operators as op;

use away_values::Value;

/// Whether a condition holds: NULL isn't true (the manual: 7.2.2, The WHERE Clause).
pub fn is_true(v: &Value) -> bool
    ensures { result ≡ op.is_true v.now }
{
    match v {
        Value::Bool(b) => *b,
        _ => false,
    }
}

pub fn is_null(v: &Value) -> bool
    ensures { result ≡ op.is_null v.now }
{
    match v {
        Value::Null => true,
        _ => false,
    }
}
