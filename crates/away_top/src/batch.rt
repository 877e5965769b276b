//! `batch SCHEMA FUNC TABLE`.

ghost use Rattle.std.specs.Prelude.{◌≡◌, List, ℕ};
ghost use Rattle.away_top.specs.BatchCourse.{EndsAt, EndsWith, batch_course, place_of as table_place};
ghost use Rattle.away_top.specs.Files.{as_callable};
ghost use Rattle.away_top.specs.Runs.{IsEnd, Runs};
ghost use Rattle.away_top.specs.Steps.{run_end};
ghost use Rattle.cte_prints.specs.Texts.{IsOfTexts};

use crate::ending::{Ending, Halt, refused, refused_rule};
use crate::files::{function_of, schema_of};
use crate::{Files, Status};
use away_names::lookups::narrow;
use away_names::rule::Rule;
use away_trees::TableSchema;
use away_types::{CheckedFunction, CheckedSchema};
use batch_calls::BatchRefusal;
use std::alloc::Global;

/// Reads the two files, and writes one query in which each row of the table is a call of the function.
pub fn batch<F: Files>(
    alloc: Global,
    schema: &str,
    func: &str,
    table: &str,
    files: &mut F,
) -> Result<Ending, Halt>
    ensures { Runs F.Files files.old (batch_course schema.now func.now table.now) files.new
        (run_end result) }
{
    let tables = schema_of(alloc, schema, files)?;
    let function = function_of(alloc, &tables, func, files)?;
    over_table(alloc, schema, &tables, function.get(), table)
}

/// What is written of a function and the table of this name.
fn over_table(
    alloc: Global,
    schema: &str,
    tables: &CheckedSchema,
    function: &CheckedFunction,
    table: &str,
) -> Result<Ending, Halt>
    requires texts { IsOfTexts tables.now.schema function.now.function function.now.slots }
    ensures { (text : List ℕ) × IsEnd (EndsWith schema.now tables.now.schema
        (as_callable function.now) (table_place table.now tables.now.schema.tables) text)
        (run_end result) }
{
    match place_of(table, tables.schema.tables.as_slice()) {
        Some(place) => over_place(alloc, schema, tables, function, narrow(place)?),
        None => Ok(refused_rule(alloc, schema, Rule::Tables)?),
    }
}

/// The place of the table of this name.
#[tactic(auto, unfolding(crate::specs::BatchCourse::place_of))]
fn place_of(name: &str, tables: &[TableSchema]) -> Option<usize>
    ensures { result ≡ table_place name.now tables.now }
{
    let mut i = 0;
    for table in tables {
        if table.name.text() == name {
            return Some(i);
        }
        i += 1;
    }
    None
}

/// What is written of a function and the table at this place.
fn over_place(
    alloc: Global,
    schema: &str,
    tables: &CheckedSchema,
    function: &CheckedFunction,
    place: u32,
) -> Result<Ending, Halt>
    requires texts { IsOfTexts tables.now.schema function.now.function function.now.slots }
    ensures { (text : List ℕ) × IsEnd (EndsAt schema.now tables.now.schema
        (as_callable function.now) place text) (run_end result) }
{
    let compiled = compiling::compile(alloc, tables, function)?;
    match batch_calls::batch(alloc, tables, function, &compiled.cert, place) {
        Ok(batch) => Ok(Ending {
            status: Status::Done,
            output: batch.text.into_bytes(),
        }),
        Err(BatchRefusal::Shape) => Ok(refused(alloc, schema, b"B1")?),
        Err(BatchRefusal::NoMemory) => Err(Halt::NoMemory),
    }
}
