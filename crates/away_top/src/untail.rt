//! `untail SCHEMA FUNC`.

ghost use Rattle.std.specs.Prelude.{◌≡◌, List, ℕ};
ghost use Rattle.away_top.specs.Runs.{IsEnd, Runs};
ghost use Rattle.away_top.specs.Steps.{run_end};
ghost use Rattle.away_top.specs.UntailCourse.{EndsWith, untail_course};

use crate::ending::{Ending, Halt, refused_growth};
use crate::files::{schema_of, self_caller_of};
use crate::{Files, Status};
use away_trees::Function;
use away_types::CheckedSchema;
use std::alloc::Global;
use tail_calls::WriteRefusal;

/// Reads the two files, and writes the function with its self calls as turns of a loop.
pub fn untail<F: Files>(
    alloc: Global,
    schema: &str,
    func: &str,
    files: &mut F,
) -> Result<Ending, Halt>
    ensures { Runs F.Files files.old (untail_course schema.now func.now) files.new
        (run_end result) }
{
    let tables = schema_of(alloc, schema, files)?;
    let function = self_caller_of(alloc, &tables, func, files)?;
    written(alloc, func, &tables, function.get())
}

/// What is written of a function that calls itself.
fn written(
    alloc: Global,
    func: &str,
    tables: &CheckedSchema,
    function: &Function,
) -> Result<Ending, Halt>
    ensures { (text : List ℕ) × IsEnd
        (EndsWith func.now tables.now.schema function.now text) (run_end result) }
{
    match tail_calls::untail(alloc, tables, function) {
        Ok(untailed) => Ok(Ending {
            status: Status::Done,
            output: untailed.text.into_bytes(),
        }),
        Err(WriteRefusal::Limit { which, found }) => {
            Ok(refused_growth(alloc, func, which, found)?)
        }
        Err(WriteRefusal::NoMemory) => Err(Halt::NoMemory),
    }
}
