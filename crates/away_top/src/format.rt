//! `format FUNC`.

ghost use Rattle.away_top.specs.FormatCourse.{EndsOn, Prints, format_course};
ghost use Rattle.away_top.specs.Runs.{Follows, IsEnd};
ghost use Rattle.away_top.specs.Steps.{run_end};

use crate::ending::{Ending, Halt};
use crate::files::{MAX_FUNCTION, bytes_of, refuse};
use crate::{Files, Status};
use away_trees::Function;
use function_printer::print_function;
use plsql_parse::read_function;
use std::alloc::Global;

/// Reads the file, and writes the function that it reads as.
pub fn format<F: Files>(alloc: Global, func: &str, files: &mut F) -> Result<Ending, Halt>
    ensures { Follows F.Files files.old (format_course func.now) files.new (run_end result) }
{
    let bytes = bytes_of(alloc, func, MAX_FUNCTION, files)?;
    format_bytes(alloc, func, &bytes)
}

/// What is written of the bytes of the file.
fn format_bytes(alloc: Global, func: &str, bytes: &[u8]) -> Result<Ending, Halt>
    ensures { IsEnd (EndsOn func.now bytes.now) (run_end result) }
{
    match read_function(alloc, bytes) {
        Ok(function) => printed(alloc, function),
        Err(error) => Ok(refuse(alloc, func, error)?),
    }
}

/// The text of a function.
fn printed(alloc: Global, function: Function) -> Result<Ending, Halt>
    ensures { IsEnd (Prints function) (run_end result) }
{
    let text = print_function(alloc, &function)?;
    Ok(Ending {
        status: Status::Done,
        output: text.into_bytes(),
    })
}
