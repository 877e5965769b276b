//! Expressions and selects in the body of a function, where its variables and the tables are seen.

ghost use Rattle.away_values.specs.Results.{Answers};
ghost use Rattle.sql_meaning.specs.AtBound.{rows_of_tables};
ghost use Rattle.sql_meaning.specs.Meaning.{rows_of_select, value};
ghost use Rattle.sql_meaning.specs.OneReturn.{body};

use crate::eval::eval;
use crate::scope::Scope;
use crate::selects::select;
use away_trees::{Expr, Select};
use away_values::{OpError, Tables, Value};
use sqlite_items::Items;
use std::alloc::Global;

/// The value of an expression of a function, by the function's variables. The manual: 43.11.1, Variable Substitution.
#[tactic(auto, using(crate::proofs::PublicRules::public_rules))]
pub fn value_in_body(
    alloc: Global,
    e: &Expr,
    env: &[Value],
    tables: &Tables,
) -> Result<Value, OpError>
    ensures { Answers (value e.now (body (rows_of_tables tables.now.list) env.now)) result }
{
    let scope = Scope::at(env, &[], &[], tables.list.as_slice());
    eval(alloc, e, &scope)
}

/// The rows of a select of a function, by the function's variables.
#[tactic(auto, using(crate::proofs::PublicRules::select_rules))]
pub fn rows_in_body(
    alloc: Global,
    s: &Select,
    env: &[Value],
    tables: &Tables,
) -> Result<Items<Items<Value>>, OpError>
    ensures { Answers (rows_of_select s.now
        (body (rows_of_tables tables.now.list) env.now)) result }
{
    let scope = Scope::at(env, &[], &[], tables.list.as_slice());
    select(alloc, s, &scope)
}
