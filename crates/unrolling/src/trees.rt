//! The builders one behind the other.

ghost use Rattle.std.specs.Prelude.{◌<◌, IfOk, IfSome};
ghost use Rattle.unrolling.specs.InTurns.{IsInTurns};

use anf_build::to_calls;
use away_trees::Query;
use away_types::{CheckedFunction, CheckedSchema};
use away_values::NoMemory;
use block_forms::expr_table;
use compiling::normal_forms_are_short;
use goto_lower::lower;
use sqlite_items::Boxed;
use ssa_build::build_ssa;
use std::alloc::Global;
use turn_bodies::unfold;
use turn_query::{queries_of_turns_stand_in_turns, turns_query};

/// The tree of the query with up to so many turns in an iteration, whose columns stand by their places; none where a turn is too large for one.
pub(crate) fn tree_in_turns(
    alloc: Global,
    s: &CheckedSchema,
    f: &CheckedFunction,
    turns: usize,
) -> Result<Option<Boxed<Query>>, NoMemory>
    requires { 0 < turns }
    ensures { IfOk result (λ found. IfSome found
        (IsInTurns s.now.schema f.now.function f.now.slots turns)) }
{
    normal_forms_are_short(f);
    queries_of_turns_stand_in_turns();
    let goto = lower(alloc, f)?;
    let ssa = build_ssa(alloc, f, &goto)?;
    let anf = to_calls(alloc, &goto, &ssa)?;
    let labels = unfold(alloc, f, &goto, &ssa, &anf)?;
    let table = expr_table(alloc, f)?;
    let tables = s.schema.tables.len();
    turns_query(alloc, f, &goto, &ssa, &anf, &labels, &table, tables, turns)
}
