//! All rows of a query.

ghost use Rattle.std.specs.Prelude.{◌≡◌, IfOk};
ghost use Rattle.sql_meaning.specs.AtBound.{rows_of_tables};
ghost use Rattle.sql_meaning.specs.Working.{rows as rows_of_query_at};
ghost use Rattle.sql_eval.specs.RowsAnswers.{rows_answered};

use crate::working::rows_at;
use away_trees::Query;
use away_values::{Class, NoMemory, OpError, Tables, Value};
use sqlite_items::Items;
use std::alloc::Global;

/// The rows of a query at a bound, the class of its fault, or that the bound doesn't suffice.
#[derive(Drop)]
pub enum RowsAnswer {
    Rows(Items<Items<Value>>),
    Fault(Class),
    More,
}

/// The rows of a query at a bound. They are those of the definition for every tree and all tables, so nothing is asked of them.
#[tactic(auto, using(crate::proofs::RowsAnswerRules::rows_answer_rules))]
pub fn run_rows(
    alloc: Global,
    q: &Query,
    tables: &Tables,
    args: &[Value],
    bound: u64,
) -> Result<RowsAnswer, NoMemory>
    ensures { IfOk result (λ a. a ≡ rows_answered
        (rows_of_query_at q.now (rows_of_tables tables.now.list) args.now bound)) }
{
    match rows_at(alloc, q, tables, args, bound) {
        Ok(None) => Ok(RowsAnswer::More),
        Ok(Some(rows)) => Ok(RowsAnswer::Rows(rows)),
        Err(OpError::Class(class)) => Ok(RowsAnswer::Fault(class)),
        Err(OpError::NoMemory) => Err(NoMemory),
    }
}
