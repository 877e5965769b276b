//! What is told of the case of a number.

ghost use Rattle.std.specs.Prelude.{◌≡◌, ◌≤◌, ◌+◌, ◌*◌, IfOk, List, ℕ};
ghost use Rattle.demonstration.specs.Summary.{AreRuns, IsOver, IsSummary, iterations_for};
ghost use Rattle.cte_prints.specs.Texts.{IsOfTexts};
ghost use Rattle.sql_meaning.specs.AtBound.{rows_of_tables};

use crate::compiled::compiled_query;
use crate::trial::{Trial, trial_of};
use away_gen::make_case;
use away_trees::Query;
use away_values::{Answer, NoMemory, Value};
use plsql_run::run_function;
use sql_eval::{query_length, run_query};
use std::alloc::Global;

/// The most turns of the function's loops.
const TURNS: u64 = 1_000_000;

/// What is told of a case.
#[derive(Drop)]
pub struct Summary {
    pub number: u64,
    /// How many nodes its function has.
    pub nodes: u64,
    /// The length of the text that the function is compiled to.
    pub bytes: u64,
    pub runs: Runs,
}

/// What a function and its query answer.
#[derive(Drop)]
pub struct Runs {
    pub function: Answer,
    pub query: Answer,
    /// The least bound at which the query has an answer. None where that exceeds its bound.
    pub iterations: Option<u64>,
}

/// What is told of the case of the number. Its function runs within 1,000,000 turns, and its query within as many iterations as an
/// answer within those needs.
pub fn summary_of(alloc: Global, number: u64) -> Result<Summary, NoMemory>
    ensures { IfOk result (λ summary. (text : List ℕ) × IsSummary number text summary) }
{
    let case = make_case(alloc, number)?;
    let trial = trial_of(alloc, &case)?;
    over_case(alloc, number, &trial, case.args.as_slice())
}

/// Compiles the function of a case, and runs it and its query.
fn over_case(alloc: Global, number: u64, trial: &Trial, args: &[Value]) -> Result<Summary, NoMemory>
    requires few { trial.now.counted.nodes ≤ 500 }
    requires texts { IsOfTexts trial.now.schema.schema trial.now.counted.function.function trial.now.counted.function.slots }
    ensures { IfOk result (λ summary. (text : List ℕ)
        × IsOver number text trial.now args.now summary) }
{
    let told = compiled_query(alloc, trial.schema.get(), trial.counted.function.get())?;
    let most = most_iterations(trial.counted.nodes);
    Ok(Summary {
        number,
        nodes: trial.counted.nodes,
        bytes: told.bytes,
        runs: runs_of(alloc, trial, &told.query.get().query, args, most)?,
    })
}

/// The most iterations of the query of a function with so many nodes.
fn most_iterations(nodes: u64) -> u64
    requires { nodes ≤ 500 }
    ensures { result ≡ iterations_for (16 * (nodes + 1)) }
{
    (TURNS + 1) * (16 * (nodes + 1)) + 1
}

/// What the function and the query answer.
fn runs_of(
    alloc: Global,
    trial: &Trial,
    query: &Query,
    args: &[Value],
    most: u64,
) -> Result<Runs, NoMemory>
    ensures { IfOk result (AreRuns trial.now.counted.function.function trial.now.counted.function.slots query.now
        (rows_of_tables trial.now.tables.list) args.now most) }
{
    let function = trial.counted.function.get();
    Ok(Runs {
        function: run_function(alloc, function, &trial.tables, args, TURNS)?,
        query: run_query(alloc, query, &trial.tables, args, most)?,
        iterations: query_length(alloc, query, &trial.tables, args, most)?,
    })
}
