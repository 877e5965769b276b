//! The value of an expression where it stands.

ghost use Rattle.away_values.specs.Results.{Answers};
ghost use Rattle.sql_meaning.specs.Meaning.{value};
ghost use Rattle.sql_eval.specs.Scopes.{context, context_at};

use crate::eval::eval;
use crate::frames::{lend_frames, lend_levels};
use crate::scope::{Frame, Scope};
use crate::shared_rows::SharedRow;
use away_trees::Expr;
use away_values::{OpError, Table, Tables, Value};
use sqlite_items::Items;
use std::alloc::Global;

/// Rows of FROM of enclosing selects: a level is a list of item rows, and the last level is the innermost.
#[derive(Drop)]
pub struct Frames {
    pub levels: Items<Items<Items<Value>>>,
}

/// The value of an expression at variables, parameters, enclosing rows and tables.
/// The manual: 4.2.14, Expression Evaluation Rules, leaves the order open: from left to right is our own choice.
#[tactic(auto, using(crate::proofs::PublicRules::public_rules))]
pub fn eval_expr(
    alloc: Global,
    e: &Expr,
    env: &[Value],
    args: &[Value],
    frames: &Frames,
    tables: &Tables,
) -> Result<Value, OpError>
    ensures { Answers (value e.now
        (context env.now args.now frames.now.levels tables.now.list)) result }
{
    let levels = lend_levels(alloc, frames.levels.as_slice())?;
    eval_levels(alloc, e, env, args, levels, tables.list.as_slice())
}

#[tactic(auto, using(crate::proofs::PublicRules::public_rules))]
fn eval_levels<'a>(
    alloc: Global,
    e: &Expr,
    env: &'a [Value],
    args: &'a [Value],
    levels: Items<Items<SharedRow<'a>>>,
    tables: &'a [Table],
) -> Result<Value, OpError>
    ensures { Answers (value e.now (context_at env.now args.now levels.entry tables.now)) result }
{
    eval_at(alloc, e, env, args, levels.as_slice(), tables)
}

#[tactic(auto, using(crate::proofs::PublicRules::public_rules))]
fn eval_at<'a>(
    alloc: Global,
    e: &Expr,
    env: &'a [Value],
    args: &'a [Value],
    levels: &'a [Items<SharedRow<'a>>],
    tables: &'a [Table],
) -> Result<Value, OpError>
    ensures { Answers (value e.now (context_at env.now args.now levels.now tables.now)) result }
{
    let frames = lend_frames(alloc, levels)?;
    eval_in(alloc, e, env, args, frames.as_slice(), tables)
}

#[tactic(auto, using(crate::proofs::PublicRules::public_rules))]
fn eval_in<'a>(
    alloc: Global,
    e: &Expr,
    env: &'a [Value],
    args: &'a [Value],
    frames: &'a [Frame<'a>],
    tables: &'a [Table],
) -> Result<Value, OpError>
    ensures { Answers (value e.now (context_at env.now args.now frames.now tables.now)) result }
{
    let scope = Scope::at(env, args, frames, tables);
    eval(alloc, e, &scope)
}
