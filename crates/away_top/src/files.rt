//! The files of a run: each is read and judged.

ghost use Rattle.std.specs.Prelude.{◌≡◌, IfErr, IfOk};
ghost use Rattle.away_trees.specs.Limits.{KeepsLimits};
ghost use Rattle.away_types.specs.CheckedFunctions.{IsChecked};
ghost use Rattle.away_types.specs.CheckedQueries.{IsCheckedQuery, query_note};
ghost use Rattle.away_types.specs.CheckedRows.{IsCheckedRows, rows_note};
ghost use Rattle.away_types.specs.FunctionChecks.{function_note};
ghost use Rattle.away_names.specs.Schemas.{schema_note};
ghost use Rattle.away_top.specs.Files.{as_asked, as_callable, as_row_query, asked_of, callable_of, row_query_of as row_query_written};
ghost use Rattle.away_top.specs.Files.{function_course, query_course, row_query_course, schema_course};
ghost use Rattle.away_top.specs.UntailCourse.{BreaksSelfRule, IsSelfCallerFile, RefusesSelfCaller, self_caller_course};
ghost use Rattle.tail_calls.specs.SelfCalls.{IsSelfCaller};
ghost use Rattle.away_top.specs.Course.{RefusedBy};
ghost use Rattle.away_top.specs.Refusals.{BreaksRule, HasFinding, IsFunction, IsKept, IsQuery, IsRowQuery, IsSchema};
ghost use Rattle.away_top.specs.Refusals.{RefusesFunction, RefusesQuery, RefusesRowQuery, RefusesSchema};
ghost use Rattle.away_top.specs.Runs.{Follows, Holds, IsRead, StopsAt};
ghost use Rattle.away_top.specs.Steps.{IsHalt, IsJudged, ReadRefused, stretch_end};

use crate::ending::{Ending, Halt, read_text, refused, refused_rule, unreadable};
use crate::{Files, ReadError};
use away_lex::ReadRefusal;
use away_trees::{Function, Query, Schema};
use away_types::{
    CheckedFunction, CheckedQuery, CheckedRows, CheckedSchema, FunctionRefusal, RuleRefusal,
    check_function, check_query, check_rows, check_schema,
};
use plsql_parse::read_function;
use sql_text::{read_query, read_schema};
use sqlite_items::Boxed;
use std::alloc::{AllocError, Global};
use tail_calls::{SelfRefusal, check_self};

/// The most bytes of a file that is no function's.
pub(crate) const MAX_FILE: u64 = 67_108_864;

/// The most bytes of a function's file.
pub(crate) const MAX_FUNCTION: u64 = 1_048_576;

/// The schema that a file reads as, judged.
pub fn schema_of<F: Files>(alloc: Global, name: &str, files: &mut F) -> Result<CheckedSchema, Halt>
    ensures { Follows F.Files files.old (schema_course name.now) files.new
        (stretch_end (λ c. c.schema) result) }
{
    let bytes = bytes_of(alloc, name, MAX_FILE, files)?;
    schema_in(alloc, name, &bytes)
}

/// The function that a file reads as, judged over the tables of the schema.
pub fn function_of<F: Files>(
    alloc: Global,
    tables: &CheckedSchema,
    name: &str,
    files: &mut F,
) -> Result<Boxed<CheckedFunction>, Halt>
    ensures { Follows F.Files files.old (function_course tables.now.schema name.now) files.new
        (stretch_end as_callable result) }
{
    let bytes = bytes_of(alloc, name, MAX_FUNCTION, files)?;
    function_in(alloc, tables, name, &bytes)
}

/// The function that a file reads as, which may call itself, judged over the tables of the schema.
pub fn self_caller_of<F: Files>(
    alloc: Global,
    tables: &CheckedSchema,
    name: &str,
    files: &mut F,
) -> Result<Boxed<Function>, Halt>
    ensures { Follows F.Files files.old (self_caller_course tables.now.schema name.now) files.new
        (stretch_end (λ f. f) result) }
{
    let bytes = bytes_of(alloc, name, MAX_FUNCTION, files)?;
    self_caller_in(alloc, tables, name, &bytes)
}

/// The query that a file reads as, judged over the tables of the schema.
pub fn query_of<F: Files>(
    alloc: Global,
    tables: &CheckedSchema,
    name: &str,
    files: &mut F,
) -> Result<Boxed<CheckedQuery>, Halt>
    ensures { Follows F.Files files.old (query_course tables.now.schema name.now) files.new
        (stretch_end as_asked result) }
{
    let bytes = bytes_of(alloc, name, MAX_FILE, files)?;
    query_in(alloc, tables, name, &bytes)
}

/// The query that a file reads as, judged over the tables of the schema for all of its rows.
pub fn row_query_of<F: Files>(
    alloc: Global,
    tables: &CheckedSchema,
    name: &str,
    files: &mut F,
) -> Result<Boxed<CheckedRows>, Halt>
    ensures { Follows F.Files files.old (row_query_course tables.now.schema name.now) files.new
        (stretch_end as_row_query result) }
{
    let bytes = bytes_of(alloc, name, MAX_FILE, files)?;
    row_query_in(alloc, tables, name, &bytes)
}

fn schema_in(alloc: Global, name: &str, bytes: &[u8]) -> Result<CheckedSchema, Halt>
    ensures { IsJudged (RefusedBy name.now (RefusesSchema bytes.now))
        (λ c. (s : IsSchema bytes.now) × (c.schema ≡ s.schema)) result }
{
    match read_schema(alloc, bytes) {
        Ok(schema) => checked_schema(alloc, name, schema),
        Err(error) => Err(Halt::Ended(refuse(alloc, name, error)?)),
    }
}

fn checked_schema(alloc: Global, name: &str, schema: Schema) -> Result<CheckedSchema, Halt>
    ensures { IsJudged (RefusedBy name.now (BreaksRule (schema_note schema)))
        (λ c. IsKept schema c.schema) result }
{
    match check_schema(alloc, schema) {
        Ok(checked) => Ok(checked),
        Err(RuleRefusal::Broken(rule)) => Err(Halt::Ended(refused_rule(alloc, name, rule)?)),
        Err(RuleRefusal::NoMemory) => Err(Halt::NoMemory),
    }
}

fn function_in(
    alloc: Global,
    tables: &CheckedSchema,
    name: &str,
    bytes: &[u8],
) -> Result<Boxed<CheckedFunction>, Halt>
    ensures { IsJudged (RefusedBy name.now (RefusesFunction tables.now.schema bytes.now))
        (λ c. (f : IsFunction tables.now.schema bytes.now)
        × (as_callable c ≡ callable_of tables.now.schema f.written)) result }
{
    match read_function(alloc, bytes) {
        Ok(function) => checked_function(alloc, tables, name, function),
        Err(error) => Err(Halt::Ended(refuse(alloc, name, error)?)),
    }
}

fn checked_function(
    alloc: Global,
    tables: &CheckedSchema,
    name: &str,
    function: Function,
) -> Result<Boxed<CheckedFunction>, Halt>
    requires { KeepsLimits function }
    ensures { IsJudged (RefusedBy name.now (HasFinding (function_note tables.now.schema function)))
        (λ c. IsChecked tables.now.schema function c.function c.slots) result }
{
    match check_function(alloc, tables, function) {
        Ok(checked) => Ok(Boxed::new(alloc, checked)?),
        Err(FunctionRefusal::Broken(finding)) => {
            Err(Halt::Ended(refused_rule(alloc, name, finding.rule)?))
        }
        Err(FunctionRefusal::NoMemory) => Err(Halt::NoMemory),
    }
}

fn self_caller_in(
    alloc: Global,
    tables: &CheckedSchema,
    name: &str,
    bytes: &[u8],
) -> Result<Boxed<Function>, Halt>
    ensures { IsJudged (RefusedBy name.now (RefusesSelfCaller tables.now.schema bytes.now))
        (λ c. (f : IsSelfCallerFile tables.now.schema bytes.now) × (c ≡ f.written)) result }
{
    match read_function(alloc, bytes) {
        Ok(function) => kept_self_caller(alloc, tables, name, function),
        Err(error) => Err(Halt::Ended(refuse(alloc, name, error)?)),
    }
}

fn kept_self_caller(
    alloc: Global,
    tables: &CheckedSchema,
    name: &str,
    function: Function,
) -> Result<Boxed<Function>, Halt>
    requires { KeepsLimits function }
    ensures { IsJudged (RefusedBy name.now (BreaksSelfRule tables.now.schema function))
        (λ f. (f ≡ function) × IsSelfCaller tables.now.schema function) result }
{
    match check_self(alloc, tables, &function) {
        Ok(()) => Ok(Boxed::new(alloc, function)?),
        Err(SelfRefusal::Place) => Err(Halt::Ended(refused(alloc, name, b"E5")?)),
        Err(SelfRefusal::Rule(rule)) => Err(Halt::Ended(refused_rule(alloc, name, rule)?)),
        Err(SelfRefusal::NoMemory) => Err(Halt::NoMemory),
    }
}

fn query_in(
    alloc: Global,
    tables: &CheckedSchema,
    name: &str,
    bytes: &[u8],
) -> Result<Boxed<CheckedQuery>, Halt>
    ensures { IsJudged (RefusedBy name.now (RefusesQuery tables.now.schema bytes.now))
        (λ c. (q : IsQuery tables.now.schema bytes.now)
        × (as_asked c ≡ asked_of tables.now.schema q.written)) result }
{
    match read_query(alloc, bytes) {
        Ok(query) => checked_query(alloc, tables, name, query),
        Err(error) => Err(Halt::Ended(refuse(alloc, name, error)?)),
    }
}

fn checked_query(
    alloc: Global,
    tables: &CheckedSchema,
    name: &str,
    query: Query,
) -> Result<Boxed<CheckedQuery>, Halt>
    ensures { IsJudged (RefusedBy name.now (BreaksRule (query_note tables.now.schema query)))
        (λ c. IsCheckedQuery tables.now.schema query c.query c.params c.result) result }
{
    match check_query(alloc, tables, query) {
        Ok(checked) => Ok(Boxed::new(alloc, checked)?),
        Err(RuleRefusal::Broken(rule)) => Err(Halt::Ended(refused_rule(alloc, name, rule)?)),
        Err(RuleRefusal::NoMemory) => Err(Halt::NoMemory),
    }
}

fn row_query_in(
    alloc: Global,
    tables: &CheckedSchema,
    name: &str,
    bytes: &[u8],
) -> Result<Boxed<CheckedRows>, Halt>
    ensures { IsJudged (RefusedBy name.now (RefusesRowQuery tables.now.schema bytes.now))
        (λ c. (q : IsRowQuery tables.now.schema bytes.now)
        × (as_row_query c ≡ row_query_written tables.now.schema q.written)) result }
{
    match read_query(alloc, bytes) {
        Ok(query) => checked_rows(alloc, tables, name, query),
        Err(error) => Err(Halt::Ended(refuse(alloc, name, error)?)),
    }
}

fn checked_rows(
    alloc: Global,
    tables: &CheckedSchema,
    name: &str,
    query: Query,
) -> Result<Boxed<CheckedRows>, Halt>
    ensures { IsJudged (RefusedBy name.now (BreaksRule (rows_note tables.now.schema query)))
        (λ c. IsCheckedRows tables.now.schema query c.query c.params c.columns) result }
{
    match check_rows(alloc, tables, query) {
        Ok(checked) => Ok(Boxed::new(alloc, checked)?),
        Err(RuleRefusal::Broken(rule)) => Err(Halt::Ended(refused_rule(alloc, name, rule)?)),
        Err(RuleRefusal::NoMemory) => Err(Halt::NoMemory),
    }
}

/// The bytes of a file that has at most so many.
pub(crate) fn bytes_of<F: Files>(
    alloc: Global,
    name: &str,
    limit: u64,
    files: &mut F,
) -> Result<Vec<u8>, Halt>
    ensures read { IsRead F.Files files.old name.now files.new }
    ensures bytes { IfOk result (λ bytes. Holds F.Files files.old name.now limit bytes.items) }
    ensures stops { IfErr result (IsHalt (StopsAt F.Files files.old name.now limit files.new)) }
{
    match files.read(alloc, name, limit) {
        Ok(bytes) => Ok(bytes),
        Err(ReadError::Long(_)) => Err(Halt::Ended(refused(alloc, name, b"LONG")?)),
        Err(ReadError::Failed) => Err(Halt::Ended(unreadable(alloc, name)?)),
        Err(ReadError::NoMemory) => Err(Halt::NoMemory),
    }
}

/// How the run ends where a reader refuses a file.
pub(crate) fn refuse(alloc: Global, name: &str, error: ReadRefusal) -> Result<Ending, AllocError>
    ensures { IfOk result (ReadRefused name.now error) }
{
    let rule = read_text(alloc, &error)?;
    refused(alloc, name, &rule)
}
