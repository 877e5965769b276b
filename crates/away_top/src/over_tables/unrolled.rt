//! `unrolled BOUND K SCHEMA FUNC DIR ARG..`.

ghost use Rattle.std.specs.Prelude.{◌<◌, List, ℕ, map, string_bytes};
ghost use Rattle.sql_meaning.specs.AtBound.{rows_of_tables};
ghost use Rattle.cte_prints.specs.Texts.{IsOfTexts};
ghost use Rattle.away_top.specs.Files.{as_callable};
ghost use Rattle.away_top.specs.Runs.{IsEnd, Runs};
ghost use Rattle.away_top.specs.Steps.{run_end};
ghost use Rattle.away_top.specs.UnrolledCourse as spec;

use crate::Files;
use crate::ending::{Ending, Halt};
use crate::files::{function_of, schema_of};
use crate::over_tables::answer_lines::answer_ending;
use crate::over_tables::arguments::{bound_of, values_for};
use crate::over_tables::run::spelled;
use crate::over_tables::tables::tables_of;
use crate::unroll::turns_of;
use away_types::{CheckedFunction, CheckedSchema};
use away_values::{Tables, Value};
use sql_eval::run_query;
use sql_meaning::names_mean_nothing;
use std::alloc::Global;
use unrolling::unroll;

/// Reads the schema and the function, judges the arguments, reads the tables, and tells what the query gives over them within the
/// bound in which one iteration runs several turns of the function.
pub fn run_unrolled<F: Files>(
    alloc: Global,
    bound: &str,
    turns: &str,
    schema: &str,
    func: &str,
    dir: &str,
    args: &[String],
    files: &mut F,
) -> Result<Ending, Halt>
    ensures { Runs F.Files files.old (spec.unrolled_course bound.now turns.now schema.now func.now
        dir.now (map string_bytes args.now)) files.new (run_end result) }
{
    let bound = spelled(alloc, bound_of(bound))?;
    with_bound(alloc, bound, turns, schema, func, dir, args, files)
}

fn with_bound<F: Files>(
    alloc: Global,
    bound: u64,
    turns: &str,
    schema: &str,
    func: &str,
    dir: &str,
    args: &[String],
    files: &mut F,
) -> Result<Ending, Halt>
    ensures { Runs F.Files files.old (λ text. spec.with_bound turns.now schema.now func.now dir.now
        (map string_bytes args.now) text bound) files.new (run_end result) }
{
    let most = spelled(alloc, turns_of(turns))?;
    with_turns(alloc, bound, most, schema, func, dir, args, files)
}

fn with_turns<F: Files>(
    alloc: Global,
    bound: u64,
    most: usize,
    schema: &str,
    func: &str,
    dir: &str,
    args: &[String],
    files: &mut F,
) -> Result<Ending, Halt>
    requires { 0 < most }
    ensures { Runs F.Files files.old (λ text. spec.with_turns bound schema.now func.now dir.now
        (map string_bytes args.now) text most) files.new (run_end result) }
{
    let tables = schema_of(alloc, schema, files)?;
    with_schema(alloc, bound, most, &tables, func, dir, args, files)
}

fn with_schema<F: Files>(
    alloc: Global,
    bound: u64,
    most: usize,
    tables: &CheckedSchema,
    func: &str,
    dir: &str,
    args: &[String],
    files: &mut F,
) -> Result<Ending, Halt>
    requires { 0 < most }
    ensures { Runs F.Files files.old (λ text. spec.with_schema bound most func.now dir.now
        (map string_bytes args.now) text tables.now.schema) files.new (run_end result) }
{
    let function = function_of(alloc, tables, func, files)?;
    with_function(alloc, bound, most, tables, function.get(), dir, args, files)
}

/// The arguments are judged before any table is read.
fn with_function<F: Files>(
    alloc: Global,
    bound: u64,
    most: usize,
    tables: &CheckedSchema,
    function: &CheckedFunction,
    dir: &str,
    args: &[String],
    files: &mut F,
) -> Result<Ending, Halt>
    requires some { 0 < most }
    requires texts { IsOfTexts tables.now.schema function.now.function function.now.slots }
    ensures { Runs F.Files files.old (λ text. spec.with_function bound most dir.now
        (map string_bytes args.now) text tables.now.schema (as_callable function.now)) files.new
        (run_end result) }
{
    let found = values_for(alloc, function.function.params.as_slice(), args)?;
    let values = spelled(alloc, found)?;
    with_values(
        alloc,
        bound,
        most,
        tables,
        function,
        dir,
        values.as_slice(),
        files,
    )
}

fn with_values<F: Files>(
    alloc: Global,
    bound: u64,
    most: usize,
    tables: &CheckedSchema,
    function: &CheckedFunction,
    dir: &str,
    values: &[Value],
    files: &mut F,
) -> Result<Ending, Halt>
    requires some { 0 < most }
    requires texts { IsOfTexts tables.now.schema function.now.function function.now.slots }
    ensures { Runs F.Files files.old (λ text. spec.with_values bound most dir.now text
        tables.now.schema (as_callable function.now) values.now) files.new (run_end result) }
{
    let rows = tables_of(alloc, dir, tables.schema.tables.as_slice(), files)?;
    answered(alloc, tables, function, most, &rows, values, bound)
}

/// How a run ends that tells what the query of the function gives.
fn answered(
    alloc: Global,
    s: &CheckedSchema,
    f: &CheckedFunction,
    most: usize,
    tables: &Tables,
    values: &[Value],
    bound: u64,
) -> Result<Ending, Halt>
    requires some { 0 < most }
    requires texts { IsOfTexts s.now.schema f.now.function f.now.slots }
    ensures { (text : List ℕ) × IsEnd (spec.TellsUnrolled bound most text s.now.schema
        (as_callable f.now) values.now (rows_of_tables tables.now.list)) (run_end result) }
{
    names_mean_nothing();
    let made = unroll(alloc, s, f, most)?;
    let answer = run_query(alloc, made.tree.get(), tables, values, bound)?;
    Ok(answer_ending(alloc, &answer)?)
}
