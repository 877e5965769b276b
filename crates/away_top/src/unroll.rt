//! `unroll K SCHEMA FUNC`.

ghost use Rattle.std.specs.Prelude.{◌≡◌, ◌<◌, IfSome, List, ℕ};
ghost use Rattle.cte_prints.specs.Texts.{IsOfTexts};
ghost use Rattle.away_top.specs.Files.{as_callable, over_function};
ghost use Rattle.away_top.specs.Runs.{IsEnd, Runs};
ghost use Rattle.away_top.specs.Steps.{run_end};
ghost use Rattle.away_top.specs.UnrollCourse as spec;

use crate::ending::{Ending, Halt};
use crate::files::{function_of, schema_of};
use crate::over_tables::arguments::bound_of;
use crate::over_tables::run::spelled;
use crate::{Files, Status};
use away_types::{CheckedFunction, CheckedSchema};
use std::alloc::Global;
use unrolling::unroll as unrolled;

/// The most turns of an iteration.
const MOST_TURNS: u64 = 64;

/// Reads the files, and writes a query in which one iteration runs several turns.
pub fn unroll<F: Files>(
    alloc: Global,
    turns: &str,
    schema: &str,
    func: &str,
    files: &mut F,
) -> Result<Ending, Halt>
    ensures { Runs F.Files files.old (spec.unroll_course turns.now schema.now func.now) files.new
        (run_end result) }
{
    let most = spelled(alloc, turns_of(turns))?;
    of_files(alloc, most, schema, func, files)
}

/// The number of turns that a word of digits is, from 1 to 64.
#[tactic(auto, unfolding(crate::specs::UnrollCourse::turns_of))]
pub(crate) fn turns_of(word: &str) -> Option<usize>
    ensures is { result ≡ spec.turns_of word.now }
    ensures some { IfSome result (λ n. 0 < n) }
{
    match bound_of(word) {
        None => None,
        Some(n) => as_turns(n),
    }
}

/// The number, where it is from 1 to 64.
fn as_turns(n: u64) -> Option<usize>
    ensures is { result ≡ spec.turns_in n }
    ensures some { IfSome result (λ n. 0 < n) }
{
    if 1 <= n && n <= MOST_TURNS {
        Some(n as usize)
    } else {
        None
    }
}

/// The run over the files, with up to so many turns in an iteration.
fn of_files<F: Files>(
    alloc: Global,
    most: usize,
    schema: &str,
    func: &str,
    files: &mut F,
) -> Result<Ending, Halt>
    requires { 0 < most }
    ensures { Runs F.Files files.old
        (λ text. over_function schema.now func.now (spec.Unrolls most text)) files.new
        (run_end result) }
{
    let tables = schema_of(alloc, schema, files)?;
    let function = function_of(alloc, &tables, func, files)?;
    written(alloc, &tables, function.get(), most)
}

/// How a run ends that writes the query of the function.
fn written(
    alloc: Global,
    s: &CheckedSchema,
    f: &CheckedFunction,
    most: usize,
) -> Result<Ending, Halt>
    requires some { 0 < most }
    requires texts { IsOfTexts s.now.schema f.now.function f.now.slots }
    ensures { (text : List ℕ) × IsEnd (spec.Unrolls most text s.now.schema (as_callable f.now))
        (run_end result) }
{
    let made = unrolled(alloc, s, f, most)?;
    Ok(Ending {
        status: Status::Done,
        output: made.text.into_bytes(),
    })
}
