//! `sql BOUND SCHEMA QUERY DIR ARG..`, `rows BOUND SCHEMA QUERY DIR ARG..` and `fn BOUND SCHEMA FUNC DIR ARG..`.

ghost use Rattle.std.specs.Prelude.{IfOk, map, string_bytes};
ghost use Rattle.away_top.specs.Replies.{reply_end};
ghost use Rattle.away_top.specs.RunCourse.{run_course};
ghost use Rattle.away_top.specs.Runs.{Follows};
ghost use Rattle.away_top.specs.Steps.{IsEnding, IsSpelled, run_end};

use crate::Files;
use crate::ending::{Ending, Halt, usage};
use crate::files::schema_of;
use crate::over_tables::answer_lines::answer_ending;
use crate::over_tables::arguments::bound_of;
use crate::over_tables::program::{Program, Reply, Runnable};
use crate::over_tables::row_records::rows_ending;
use crate::over_tables::tables::tables_of;
use std::alloc::{AllocError, Global};

/// Reads the schema and the program, judges the arguments, reads the tables, and tells what the program gives over them within
/// the bound.
pub fn run_over_tables<F: Files>(
    alloc: Global,
    what: Runnable,
    bound: &str,
    schema: &str,
    file: &str,
    dir: &str,
    args: &[String],
    files: &mut F,
) -> Result<Ending, Halt>
    ensures { Follows F.Files files.old (run_course what bound.now schema.now file.now dir.now
        (map string_bytes args.now)) files.new (run_end result) }
{
    let bound = spelled(alloc, bound_of(bound))?;
    let tables = schema_of(alloc, schema, files)?;
    let program = Program::read(alloc, what, &tables, file, files)?;
    let values = spelled(alloc, program.arguments(alloc, args)?)?;
    let rows = tables_of(alloc, dir, tables.schema.tables.as_slice(), files)?;
    let reply = program.reply(alloc, &rows, values.as_slice(), bound)?;
    Ok(reply_ending(alloc, &reply)?)
}

/// How a run ends that gives this.
fn reply_ending(alloc: Global, reply: &Reply) -> Result<Ending, AllocError>
    ensures { IfOk result (λ ending. IsEnding ending (reply_end reply.now).0
        (reply_end reply.now).1) }
{
    match reply {
        Reply::Answer(answer) => answer_ending(alloc, answer),
        Reply::Rows(rows) => rows_ending(alloc, rows),
    }
}

/// What words spell, if they spell one.
pub(crate) fn spelled<T>(alloc: Global, value: Option<T>) -> Result<T, Halt>
    ensures { IsSpelled value result }
{
    match value {
        Some(value) => Ok(value),
        None => Err(Halt::Ended(usage(alloc)?)),
    }
}
