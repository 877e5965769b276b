//! `explain` of a file that begins a query.

ghost use Rattle.std.specs.Prelude.{◌≡◌, IfOk, IfSome, length};
ghost use Rattle.query_places.specs.QueryPlaces.{IsQueryDeep};
ghost use Rattle.away_top.specs.Course.{Exactly};
ghost use Rattle.away_top.specs.ExplainCourse.{count_lines};
ghost use Rattle.away_top.specs.QueryExplainCourse.{EndsOnQuery, query_counts};
ghost use Rattle.away_top.specs.QueryExplanations.{IsQueryReadTold, IsRuleTold, QueryRefusedAt};
ghost use Rattle.away_top.specs.Refusals.{ReadsAsQuery};
ghost use Rattle.away_top.specs.Runs.{IsEnd};
ghost use Rattle.away_top.specs.Steps.{run_end};

use crate::Status;
use crate::ending::{Ending, Halt, read_text, rule_text};
use crate::explain::{count_lines_of, told};
use away_lex::ReadRefusal;
use away_names::rule::Rule;
use away_trees::Query;
use away_types::{CheckedRows, CheckedSchema, RuleRefusal, check_rows};
use away_values::NoMemory;
use query_places::{Stop, first_token_place, query_nesting_place, query_stop};
use refusal_reasons::{query_reason, rule_reason};
use sql_text::read_query;
use std::alloc::Global;

/// What is told of the bytes of a file that begins a query.
pub(crate) fn explained_query(
    alloc: Global,
    name: &str,
    tables: &CheckedSchema,
    bytes: &[u8],
) -> Result<Ending, Halt>
    ensures { IsEnd (EndsOnQuery name.now tables.now.schema bytes.now) (run_end result) }
{
    match read_query(alloc, bytes) {
        Ok(query) => judged(alloc, name, tables, bytes, query),
        Err(error) => unread(alloc, name, bytes, &error),
    }
}

// ---- a query that is read

/// What is told of a query that the bytes read as.
fn judged(
    alloc: Global,
    name: &str,
    tables: &CheckedSchema,
    bytes: &[u8],
    query: Query,
) -> Result<Ending, Halt>
    requires { ReadsAsQuery bytes.now query }
    ensures { IsEnd (EndsOnQuery name.now tables.now.schema bytes.now) (run_end result) }
{
    match check_rows(alloc, tables, query) {
        Ok(checked) => counted(alloc, &checked),
        Err(RuleRefusal::Broken(rule)) => broken(alloc, name, bytes, rule),
        Err(RuleRefusal::NoMemory) => Err(Halt::NoMemory),
    }
}

/// The counts of a query that breaks no rule.
fn counted(alloc: Global, checked: &CheckedRows) -> Result<Ending, Halt>
    ensures { IsEnd (Exactly Status.Done (count_lines (query_counts (length checked.now.params)
        (length checked.now.columns)))) (run_end result) }
{
    Ok(Ending {
        status: Status::Done,
        output: count_lines_of(
            alloc,
            &[
                ("parameters", checked.params.len() as u64),
                ("columns", checked.columns.len() as u64),
            ],
        )?,
    })
}

/// What is told of a query that breaks a rule.
fn broken(alloc: Global, name: &str, bytes: &[u8], rule: Rule) -> Result<Ending, Halt>
    ensures { IsEnd (λ status output. IsRuleTold name.now bytes.now rule output
        × (status ≡ Status.Refused)) (run_end result) }
{
    let Some(offset) = first_token_place(alloc, bytes)? else {
        return Err(Halt::NoMemory);
    };
    let text = rule_text(alloc, rule)?;
    told(alloc, name, bytes, offset, &text, rule_reason(rule))
}

// ---- a file that isn't read

/// What is told of a file that isn't read.
fn unread(alloc: Global, name: &str, bytes: &[u8], error: &ReadRefusal) -> Result<Ending, Halt>
    ensures { IsEnd (λ status output. IsQueryReadTold name.now bytes.now error.now output
        × (status ≡ Status.Refused)) (run_end result) }
{
    let Some(found) = refusal_place(alloc, bytes, error)? else {
        return Err(Halt::NoMemory);
    };
    let rule = read_text(alloc, error)?;
    told(
        alloc,
        name,
        bytes,
        found.offset,
        &rule,
        query_reason(error, found.ended),
    )
}

/// Where a file that begins a query isn't read. It is a text without a bad token, and for words outside the language none is refused.
fn refusal_place(alloc: Global, bytes: &[u8], error: &ReadRefusal) -> Result<Option<Stop>, NoMemory>
    ensures { IfOk result (λ found. IfSome found (QueryRefusedAt bytes.now error.now)) }
{
    match error {
        ReadRefusal::NoTree => query_stop(alloc, bytes),
        ReadRefusal::Limit { which: _, found: _ } => at_nesting(alloc, bytes),
        ReadRefusal::NotText => Ok(None),
        ReadRefusal::Token { offset: _ } => Ok(None),
        ReadRefusal::Outside { word: _ } => Ok(None),
        ReadRefusal::NoMemory => Ok(None),
    }
}

/// Where the file first nests too deep.
fn at_nesting(alloc: Global, bytes: &[u8]) -> Result<Option<Stop>, NoMemory>
    ensures { IfOk result (λ found. IfSome found (λ at. IsQueryDeep bytes.now at.offset)) }
{
    match query_nesting_place(alloc, bytes)? {
        Some(offset) => Ok(Some(Stop {
            offset,
            ended: false,
        })),
        None => Ok(None),
    }
}
