//! `expand SCHEMA MAIN FUNC..`.

ghost use Rattle.std.specs.Prelude.{◌≡◌, ◌∷◌, IfOk, List, map, string_bytes, ℕ};
ghost use Rattle.away_top.specs.Course.{RefusedBy};
ghost use Rattle.away_top.specs.ExpandCourse as spec;
ghost use Rattle.away_top.specs.FormatCourse.{IsReadable};
ghost use Rattle.away_top.specs.Refusals.{RefusesRead};
ghost use Rattle.away_top.specs.Runs.{Follows, IsEnd, Runs};
ghost use Rattle.away_top.specs.Steps.{IsJudged, run_end, stretch_end};
ghost use Rattle.away_trees.specs.Limits.{KeepsLimits};
ghost use Rattle.plsql_parse.specs.Refusals as functions;
ghost use Rattle.program_check.specs.Refusing.{IsProgram};

use crate::ending::{Ending, Halt, refused, refused_growth, refused_rule, usage};
use crate::files::{MAX_FUNCTION, bytes_of, refuse, schema_of};
use crate::{Files, Status};
use away_trees::Function;
use away_types::CheckedSchema;
use plsql_parse::read_function;
use program_check::{ProgramRefusal, check_program};
use sqlite_items::{Boxed, Items};
use std::alloc::Global;
use tail_calls::WriteRefusal;

/// So many files behind the main one are no form.
const TOO_MANY: usize = 4_294_967_295;

/// Reads the files, and writes the main function with its calls of the others expanded.
pub fn expand<F: Files>(
    alloc: Global,
    schema: &str,
    main: &str,
    others: &[String],
    files: &mut F,
) -> Result<Ending, Halt>
    ensures { Runs F.Files files.old
        (spec.expand_course schema.now main.now (map string_bytes others.now)) files.new
        (run_end result) }
{
    if others.len() >= TOO_MANY {
        return Ok(usage(alloc)?);
    }
    let tables = schema_of(alloc, schema, files)?;
    let list = functions_of(alloc, main, others, files)?;
    judged_and_written(alloc, main, others, &tables, list.as_slice())
}

/// The functions that the files read as.
fn functions_of<F: Files>(
    alloc: Global,
    main: &str,
    others: &[String],
    files: &mut F,
) -> Result<Items<Function>, Halt>
    ensures follows { Follows F.Files files.old
        (spec.functions_course (main.now ∷ map string_bytes others.now)) files.new
        (stretch_end (λ fs. fs) result) }
    ensures limits { IfOk result spec.KeepLimits }
{
    let mut list = Items::new(alloc);
    list.push(function_read(alloc, main, files)?.into_inner())?;
    for i in 0..others.len() {
        list.push(function_read(alloc, others[i].as_str(), files)?.into_inner())?;
    }
    Ok(list)
}

/// The function that a file reads as.
fn function_read<F: Files>(
    alloc: Global,
    name: &str,
    files: &mut F,
) -> Result<Boxed<Function>, Halt>
    ensures follows { Follows F.Files files.old (spec.reading_course name.now) files.new
        (stretch_end (λ f. f) result) }
    ensures limits { IfOk result KeepsLimits }
{
    let bytes = bytes_of(alloc, name, MAX_FUNCTION, files)?;
    function_in_bytes(alloc, name, &bytes)
}

fn function_in_bytes(alloc: Global, name: &str, bytes: &[u8]) -> Result<Boxed<Function>, Halt>
    ensures judged { IsJudged (RefusedBy name.now (RefusesRead (functions.Refuses bytes.now)))
        (λ f. (r : IsReadable bytes.now) × (f ≡ r.written)) result }
    ensures limits { IfOk result KeepsLimits }
{
    match read_function(alloc, bytes) {
        Ok(function) => Ok(Boxed::new(alloc, function)?),
        Err(error) => Err(Halt::Ended(refuse(alloc, name, error)?)),
    }
}

/// The name of a file by its number.
fn file_at<'a>(main: &'a str, others: &'a [String], k: u32) -> &'a str
    ensures { result.now ≡ spec.file_at main.now (map string_bytes others.now) k }
{
    if k == 0 {
        return main;
    }
    match others.get(k as usize - 1) {
        None => main,
        Some(name) => name.as_str(),
    }
}

/// How the run ends where the functions are no program.
fn refused_program(
    alloc: Global,
    main: &str,
    others: &[String],
    error: ProgramRefusal,
) -> Result<Ending, Halt>
    ensures { IsEnd (spec.ToldAs main.now (map string_bytes others.now) error) (run_end result) }
{
    match error {
        ProgramRefusal::Names(k) => Ok(refused(alloc, file_at(main, others, k), b"E1")?),
        ProgramRefusal::Place(k) => Ok(refused(alloc, file_at(main, others, k), b"E2")?),
        ProgramRefusal::Recursion(k) => Ok(refused(alloc, file_at(main, others, k), b"E3")?),
        ProgramRefusal::Rule(k, rule) => {
            Ok(refused_rule(alloc, file_at(main, others, k), rule)?)
        }
        ProgramRefusal::NoMemory => Err(Halt::NoMemory),
    }
}

/// What is written of the functions, where they are a program.
fn judged_and_written(
    alloc: Global,
    main: &str,
    others: &[String],
    tables: &CheckedSchema,
    fs: &[Function],
) -> Result<Ending, Halt>
    requires { spec.KeepLimits fs.now }
    ensures { (text : List ℕ) × IsEnd (spec.EndsOnProgram main.now (map string_bytes others.now)
        text tables.now.schema fs.now) (run_end result) }
{
    match check_program(alloc, tables, fs) {
        Ok(()) => written(alloc, main, tables, fs),
        Err(error) => refused_program(alloc, main, others, error),
    }
}

/// What is written of a program.
fn written(
    alloc: Global,
    main: &str,
    tables: &CheckedSchema,
    fs: &[Function],
) -> Result<Ending, Halt>
    ensures { (text : List ℕ) × IsEnd
        (spec.EndsWith main.now tables.now.schema fs.now text) (run_end result) }
{
    match expanding::expand(alloc, tables, fs) {
        Ok(expanded) => Ok(Ending {
            status: Status::Done,
            output: expanded.text.into_bytes(),
        }),
        Err(WriteRefusal::Limit { which, found }) => {
            Ok(refused_growth(alloc, main, which, found)?)
        }
        Err(WriteRefusal::NoMemory) => Err(Halt::NoMemory),
    }
}
