//! The functions and the aggregates that a call may name.

ghost use Rattle.std.specs.Prelude.{◌≡◌, bytes_eq};
ghost use Rattle.sql_meaning.specs.Equations.{known};
ghost use Rattle.sql_meaning.specs.Functions as meant;
ghost use Rattle.sql_eval.specs.Called.{meant_by};
ghost use Rattle.sql_meaning.specs.Gives.{Gives};

use crate::operators::held;
use away_values::{Name, OpError, TextOp, Value, text_op};
use lateral_rows::{Aggregate, aggregate, most_extreme};
use std::alloc::Global;

#[derive(Clone, Copy)]
pub(crate) enum Function {
    Length,
    Substr,
    Coalesce,
    Greatest,
    Least,
    Count,
    Min,
    Max,
    Sum,
    BoolAnd,
    BoolOr,
    Unknown,
}

fn is_named(name: &Name, text: &str) -> bool
    ensures { result ≡ bytes_eq text.now name.now }
{
    text == name.text()
}

pub(crate) fn function_of(name: &Name) -> Function
    ensures { meant_by result ≡ meant.function name.now }
{
    if is_named(name, "length") {
        return Function::Length;
    }
    if is_named(name, "substr") {
        return Function::Substr;
    }
    if is_named(name, "coalesce") {
        return Function::Coalesce;
    }
    if is_named(name, "greatest") {
        return Function::Greatest;
    }
    if is_named(name, "least") {
        return Function::Least;
    }
    if is_named(name, "count") {
        return Function::Count;
    }
    if is_named(name, "min") {
        return Function::Min;
    }
    if is_named(name, "max") {
        return Function::Max;
    }
    if is_named(name, "sum") {
        return Function::Sum;
    }
    if is_named(name, "bool_and") {
        return Function::BoolAnd;
    }
    if is_named(name, "bool_or") {
        return Function::BoolOr;
    }
    Function::Unknown
}

pub(crate) fn is_aggregate(function: Function) -> bool
    ensures { result ≡ meant.is_aggregate (meant_by function) }
{
    matches!(
        function,
        Function::Count
            | Function::Min
            | Function::Max
            | Function::Sum
            | Function::BoolAnd
            | Function::BoolOr
    )
}

/// A function of values that are all there.
#[tactic(auto, using(sql_meaning::proofs::GivesRules::gives_rules))]
pub(crate) fn scalar(alloc: Global, function: Function, list: &[Value]) -> Result<Value, OpError>
    ensures { Gives (meant.scalar (meant_by function) list.now) result }
{
    match function {
        Function::Length => match list {
            [_, ..] => text_op(alloc, TextOp::Length, &list[..1]),
            [] => Ok(Value::Null),
        },
        Function::Substr => match list {
            [_, _, _, ..] => text_op(alloc, TextOp::Substr, &list[..3]),
            _ => Ok(Value::Null),
        },
        Function::Greatest => held(alloc, most_extreme(true, list)),
        Function::Least => held(alloc, most_extreme(false, list)),
        _ => Ok(Value::Null),
    }
}

/// An aggregate over the values of a group, of which it skips NULL.
#[tactic(auto, using(sql_meaning::proofs::GivesRules::gives_rules), unfolding(lateral_rows::specs::Aggregates::aggregated),)]
pub(crate) fn aggregate_of(
    alloc: Global,
    function: Function,
    list: &[Value],
) -> Result<Value, OpError>
    ensures { Gives (meant.aggregate (meant_by function) (known list.now)) result }
{
    match function {
        Function::Count => aggregate(alloc, Aggregate::Count, list),
        Function::Min => aggregate(alloc, Aggregate::Min, list),
        Function::Max => aggregate(alloc, Aggregate::Max, list),
        Function::Sum => aggregate(alloc, Aggregate::Sum, list),
        Function::BoolAnd => aggregate(alloc, Aggregate::BoolAnd, list),
        Function::BoolOr => aggregate(alloc, Aggregate::BoolOr, list),
        _ => Ok(Value::Null),
    }
}
