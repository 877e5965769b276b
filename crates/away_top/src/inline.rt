//! `inline SCHEMA QUERY FUNC`.

ghost use Rattle.std.specs.Prelude.{◌≡◌, IfOk, List, ℕ};
ghost use Rattle.away_grammar.specs.Texts.{ReadsQuery};
ghost use Rattle.away_top.specs.Course.{RefusedBy};
ghost use Rattle.away_top.specs.Files.{as_callable};
ghost use Rattle.away_top.specs.InlineCourse as spec;
ghost use Rattle.away_top.specs.Runs.{Follows, IsEnd, Runs};
ghost use Rattle.away_top.specs.Steps.{IsJudged, run_end, stretch_end};
ghost use Rattle.cte_prints.specs.Texts.{IsOfTexts};

use crate::ending::{Ending, Halt, refused, refused_nesting, refused_rule};
use crate::files::{MAX_FILE, bytes_of, function_of, refuse, schema_of};
use crate::{Files, Status};
use away_trees::Query;
use away_types::{CheckedFunction, CheckedSchema};
use inline_answers::inlined_queries_answer;
use inline_calls::InlineRefusal;
use sql_text::read_query;
use sqlite_items::Boxed;
use std::alloc::Global;

/// Reads the three files, and writes the query with its calls of the function as subqueries over one recursive table.
pub fn inline<F: Files>(
    alloc: Global,
    schema: &str,
    query: &str,
    func: &str,
    files: &mut F,
) -> Result<Ending, Halt>
    ensures { Runs F.Files files.old (spec.inline_course schema.now query.now func.now) files.new
        (run_end result) }
{
    let tables = schema_of(alloc, schema, files)?;
    let calling = query_read(alloc, query, files)?;
    let function = function_of(alloc, &tables, func, files)?;
    written(alloc, query, func, &tables, calling.get(), function.get())
}

/// The query that a file reads as.
fn query_read<F: Files>(alloc: Global, name: &str, files: &mut F) -> Result<Boxed<Query>, Halt>
    ensures follows { Follows F.Files files.old (spec.reading_course name.now) files.new
        (stretch_end (λ q. q) result) }
    ensures text { IfOk result spec.HasText }
{
    let bytes = bytes_of(alloc, name, MAX_FILE, files)?;
    query_in_bytes(alloc, name, &bytes)
}

fn query_in_bytes(alloc: Global, name: &str, bytes: &[u8]) -> Result<Boxed<Query>, Halt>
    ensures judged { IsJudged (RefusedBy name.now (spec.RefusesText bytes.now))
        (λ q. (r : spec.IsReadableQuery bytes.now) × (q ≡ r.written)) result }
    ensures text { IfOk result (ReadsQuery bytes.now) }
{
    match read_query(alloc, bytes) {
        Ok(query) => Ok(Boxed::new(alloc, query)?),
        Err(error) => Err(Halt::Ended(refuse(alloc, name, error)?)),
    }
}

/// What is written of a query and the function that it calls.
fn written(
    alloc: Global,
    query: &str,
    func: &str,
    tables: &CheckedSchema,
    calling: &Query,
    function: &CheckedFunction,
) -> Result<Ending, Halt>
    requires texts { IsOfTexts tables.now.schema function.now.function function.now.slots }
    requires has_text { spec.HasText calling.now }
    ensures { (text : List ℕ) × IsEnd (spec.EndsWith query.now func.now tables.now.schema
        calling.now (as_callable function.now) text) (run_end result) }
{
    inlined_queries_answer(function);
    let _count = tables.schema.tables.len();
    let compiled = compiling::compile(alloc, tables, function)?;
    match inline_calls::inline(alloc, tables, calling, function, &compiled.cert) {
        Ok(inlined) => Ok(Ending {
            status: Status::Done,
            output: inlined.text.into_bytes(),
        }),
        Err(error) => refused_calls(alloc, query, func, error),
    }
}

/// How the run ends where the calls aren't replaced.
fn refused_calls(
    alloc: Global,
    query: &str,
    func: &str,
    error: InlineRefusal,
) -> Result<Ending, Halt>
    ensures { IsEnd (spec.ToldAs query.now func.now error) (run_end result) }
{
    match error {
        InlineRefusal::Form => Ok(refused(alloc, query, b"I1")?),
        InlineRefusal::Place => Ok(refused(alloc, query, b"I2")?),
        InlineRefusal::Rule(rule) => Ok(refused_rule(alloc, query, rule)?),
        InlineRefusal::Faults => Ok(refused(alloc, func, b"I3")?),
        InlineRefusal::Nesting(found) => Ok(refused_nesting(alloc, query, found)?),
        InlineRefusal::NoMemory => Err(Halt::NoMemory),
    }
}
