//! What the rows of a query say.

ghost use Rattle.std.specs.Prelude.{◌≡◌, [], ◌∷◌, IfOk};
ghost use Rattle.away_values.specs.declared.values.Value.TheVariants as val;
ghost use Rattle.away_values.specs.Results.{Answers};
ghost use Rattle.sql_meaning.specs.AtBound.{rows_of_tables, turned};
ghost use Rattle.sql_meaning.specs.Working.{answer_of_rows, sql, rows as rows_of_query_at};

use crate::classes::class_of;
use crate::working::rows_at;
use away_trees::Query;
use away_values::{Answer, NoMemory, OpError, Tables, Value, Word};
use sqlite_items::Items;
use std::alloc::Global;

/// The rows of a query at a bound, before an answer is read from them; None where the bound doesn't suffice.
/// The bound is in iterations of the recursive table (the manual: 7.8.2, Recursive Queries).
#[tactic(auto, using(crate::proofs::PublicRules::rows_rules))]
pub fn rows(
    alloc: Global,
    q: &Query,
    tables: &Tables,
    args: &[Value],
    bound: u64,
) -> Result<Option<Items<Items<Value>>>, OpError>
    ensures { Answers (turned
        (rows_of_query_at q.now (rows_of_tables tables.now.list) args.now bound)) result }
{
    rows_at(alloc, q, tables, args, bound)
}

/// The answer of a query at a bound. It is that of the definition for every tree and all tables, so nothing is asked of them; a query that was
/// checked never meets what the definition says of names and of values of a wrong type.
/// That there is a bound, in iterations of the recursive table (the manual: 7.8.2, Recursive Queries), is our own choice.
#[tactic(auto, using(crate::proofs::PublicRules::answer_rules))]
pub fn run_query(
    alloc: Global,
    q: &Query,
    tables: &Tables,
    args: &[Value],
    bound: u64,
) -> Result<Answer, NoMemory>
    ensures { IfOk result (λ a. a ≡ sql q.now (rows_of_tables tables.now.list) args.now bound) }
{
    match rows_at(alloc, q, tables, args, bound) {
        Ok(None) => Ok(Answer::More),
        Ok(Some(rows)) => answer_of(alloc, rows.as_slice()),
        Err(OpError::Class(class)) => Ok(Answer::Fault(class)),
        Err(OpError::NoMemory) => Err(NoMemory),
    }
}

fn answer_of(alloc: Global, rows: &[Items<Value>]) -> Result<Answer, NoMemory>
    ensures { IfOk result (λ a. a ≡ answer_of_rows rows.now) }
{
    match rows {
        [row] => match row.as_slice() {
            [v, fault] => answer_of_pair(alloc, v, fault),
            _ => Ok(Answer::Shape(1)),
        },
        _ => Ok(Answer::Shape(rows.len() as u64)),
    }
}

fn answer_of_pair(alloc: Global, v: &Value, fault: &Value) -> Result<Answer, NoMemory>
    ensures { IfOk result (λ a. a ≡ answer_of_rows ((v.now ∷ fault.now ∷ []) ∷ [])) }
{
    match fault {
        Value::Null => Ok(Answer::Value(v.copy(alloc)?)),
        Value::Text(code) => match v {
            Value::Null => fault_or_shape(alloc, code),
            _ => Ok(Answer::Shape(1)),
        },
        _ => Ok(Answer::Shape(1)),
    }
}

#[tactic(auto, using(crate::proofs::ClassRules::fault_rules))]
fn fault_or_shape(alloc: Global, code: &Word) -> Result<Answer, NoMemory>
    ensures { IfOk result (λ a. a ≡ answer_of_rows ((val.Null ∷ val.Text code.now ∷ []) ∷ [])) }
{
    let found = class_of(alloc, code)?;
    match found {
        Some(class) => Ok(Answer::Fault(class)),
        None => Ok(Answer::Shape(1)),
    }
}
