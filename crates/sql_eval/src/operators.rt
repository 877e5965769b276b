//! The operators of a node, on values that are there.

ghost use Rattle.std.specs.Prelude.{◌≡◌, ◌||◌, []};
ghost use Rattle.away_values.specs.Operators as op;
ghost use Rattle.sql_meaning.specs.Gives.{Gives};
ghost use Rattle.sql_meaning.specs.Gives.{decided_by};
ghost use Rattle.sql_meaning.specs.Parts as part;
ghost use Rattle.away_values.specs.Results.{and_then};
ghost use Rattle.std.specs.Prelude.{Ok};
ghost use Rattle.std.specs.Option.{option_copied};
ghost use Rattle.lateral_rows.specs.RowParts.{or_null};
ghost use Rattle.away_values.specs.declared.operators.CmpOp.TheVariants as cmp;
ghost use Rattle.away_values.specs.declared.values.Value.TheVariants as val;

use away_values::{
    ChainOp, Class, CmpOp, IsTest, OpError, TextOp, Ty, Value, compare, int_op, small, sqlstate,
    text_op,
};
use lateral_rows::{copied, is_null, is_true};
use sqlite_items::{Items, at as item_at};
use std::alloc::Global;

#[tactic(auto, using(sql_meaning::proofs::GivesRules::gives_rules))]
pub(crate) fn of_class(answer: Result<Value, Class>) -> Result<Value, OpError>
    ensures { Gives answer result }
{
    match answer {
        Ok(v) => Ok(v),
        Err(class) => Err(OpError::Class(class)),
    }
}

/// Unary minus.
#[tactic(auto, using(sql_meaning::proofs::GivesRules::gives_rules))]
pub(crate) fn negated(v: &Value) -> Result<Value, OpError>
    ensures { Gives (op.negated v.now) result }
{
    match v {
        Value::Int(n) => match n.checked_neg() {
            Some(m) => Ok(Value::Int(m)),
            None => Err(OpError::Class(sqlstate::NUMERIC_VALUE_OUT_OF_RANGE)),
        },
        _ => Ok(Value::Null),
    }
}

#[tactic(auto, using(sql_meaning::proofs::GivesRules::gives_rules))]
pub(crate) fn negated_small(v: &Value) -> Result<Value, OpError>
    ensures { Gives (and_then (op.negated v.now) op.small) result }
{
    let m = negated(v)?;
    of_class(small(&m))
}

pub(crate) fn negation(v: &Value) -> Value
    ensures { result ≡ op.negation v.now }
{
    match v {
        Value::Bool(b) => Value::Bool(!*b),
        _ => Value::Null,
    }
}

pub(crate) fn negation_if(negative: bool, v: Value) -> Value
    ensures { result ≡ op.negation_if negative v }
{
    if negative { negation(&v) } else { v }
}

pub(crate) fn is_false(v: &Value) -> bool
    ensures { result ≡ op.is_false v.now }
{
    match v {
        Value::Bool(b) => !*b,
        _ => false,
    }
}

pub(crate) fn passes(test: IsTest, v: &Value) -> bool
    ensures { result ≡ op.passes test v.now }
{
    match test {
        IsTest::Null => is_null(v),
        IsTest::True => is_true(v),
        IsTest::False => is_false(v),
    }
}

pub(crate) fn conjunction(a: &Value, b: &Value) -> Value
    ensures { result ≡ op.conjunction a.now b.now }
{
    if is_false(a) || is_false(b) {
        Value::Bool(false)
    } else if is_true(a) && is_true(b) {
        Value::Bool(true)
    } else {
        Value::Null
    }
}

pub(crate) fn disjunction(a: &Value, b: &Value) -> Value
    ensures { result ≡ op.disjunction a.now b.now }
{
    if is_true(a) || is_true(b) {
        Value::Bool(true)
    } else if is_false(a) && is_false(b) {
        Value::Bool(false)
    } else {
        Value::Null
    }
}

#[tactic(auto, using(sql_meaning::proofs::GivesRules::gives_rules))]
pub(crate) fn cast(alloc: Global, v: Value, ty: Ty) -> Result<Value, OpError>
    ensures { Gives (op.cast ty v) result }
{
    match ty {
        Ty::Bigint | Ty::Boolean => Ok(v),
        Ty::Integer => of_class(small(&v)),
        Ty::Text => text_op(alloc, TextOp::ToText, &[v]),
    }
}

/// Whether the left operand decides, so that the right one isn't looked at.
pub(crate) fn decides(op: ChainOp, a: &Value) -> bool
    ensures { result ≡ decided_by op a.now }
{
    match op {
        ChainOp::And => is_false(a),
        ChainOp::Or => is_true(a),
        _ => false,
    }
}

/// Applies an operator of a chain to two operands.
#[tactic(auto, using(sql_meaning::proofs::GivesRules::gives_rules))]
pub(crate) fn pair(alloc: Global, op: ChainOp, a: Value, b: Value) -> Result<Value, OpError>
    ensures { Gives (part.pair op a (Ok b)) result }
{
    match op {
        ChainOp::And => Ok(conjunction(&a, &b)),
        ChainOp::Or => Ok(disjunction(&a, &b)),
        ChainOp::Concat => text_op(alloc, TextOp::Concat, &[a, b]),
        ChainOp::Int(op) => of_class(int_op(op, &a, &b)),
        ChainOp::Small(op) => {
            let v = of_class(int_op(op, &a, &b))?;
            of_class(small(&v))
        }
    }
}

/// Whether a value is within its bounds, by its comparison with the lower one.
pub(crate) fn within(from_low: &Value, v: &Value, high: &Value) -> Value
    ensures { result ≡ op.conjunction from_low.now (op.compare cmp.Le v.now high.now) }
{
    conjunction(from_low, &compare(CmpOp::Le, v, high))
}

pub(crate) fn exists(rows: &Items<Items<Value>>) -> Value
    ensures { result ≡ val.Bool (part.has_row rows.now) }
{
    Value::Bool(!rows.is_empty())
}

/// The value of a scalar subquery with these rows.
#[tactic(auto, using(sql_meaning::proofs::GivesRules::gives_rules))]
pub(crate) fn only(alloc: Global, rows: &Items<Items<Value>>) -> Result<Value, OpError>
    ensures { Gives (part.only rows.now) result }
{
    match rows.as_slice() {
        [] => Ok(Value::Null),
        [row] => held(alloc, item_at(row.as_slice(), 0)),
        _ => Err(OpError::Class(sqlstate::CARDINALITY_VIOLATION)),
    }
}

/// A copy of a value that is lent, or NULL where there is none.
#[tactic(auto, using(sql_meaning::proofs::GivesRules::gives_rules))]
pub(crate) fn held(alloc: Global, v: Option<&Value>) -> Result<Value, OpError>
    ensures { Gives (Ok (or_null (option_copied v.entry))) result }
{
    Ok(copied(alloc, v)?)
}
