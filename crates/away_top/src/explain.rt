//! `explain SCHEMA FUNC`, where the file may be a query's too.

ghost use Rattle.std.specs.Prelude.{◌≡◌, ◌++◌, IfOk, IfSome, List, codes, length, map, string_bytes, ℕ};
ghost use Rattle.std.specs.Fmt.{decimal};
ghost use Rattle.away_trees.specs.Limits.{KeepsLimits};
ghost use Rattle.away_types.specs.FunctionChecks.{function_note};
ghost use Rattle.away_types.specs.Refusals.{RefusesFunction};
ghost use Rattle.away_lex.specs.declared.refusals.ReadRefusal.TheVariants as refusal;
ghost use Rattle.cte_prints.specs.Texts.{IsOfTexts};
ghost use Rattle.function_places.specs.LimitPlaces.{IsLimitPlace};
ghost use Rattle.function_places.specs.TokenPlaces.{IsWordPlace};
ghost use Rattle.away_top.specs.ExplainCourse.{EndsOn, Tells, count_lines, counts as counted_of, explained_lines};
ghost use Rattle.away_top.specs.Explaining.{IsHead, as_count, own};
ghost use Rattle.away_top.specs.Explanations.{IsHinted, IsReadTold, IsReason, IsTold, RefusedAt};
ghost use Rattle.away_top.specs.Files.{as_callable};
ghost use Rattle.away_top.specs.Lines.{line};
ghost use Rattle.away_top.specs.QueryExplainCourse.{EndsOnFile, explain_course};
ghost use Rattle.away_top.specs.Refusals.{ReadsAsFunction};
ghost use Rattle.away_top.specs.Runs.{IsEnd, Runs};
ghost use Rattle.away_top.specs.Steps.{run_end};

use crate::ending::{Ending, Halt, read_text, refused};
use crate::explain_query::explained_query;
use crate::explanation::explanation;
use crate::fault_lines::put_faults;
use crate::files::{MAX_FILE, MAX_FUNCTION, bytes_of, schema_of};
use crate::findings::broken;
use crate::{Files, Status};
use away_core::Copied;
use away_lex::{LimitKind, ReadRefusal};
use away_trees::{Function, nodes};
use away_types::{CheckedFunction, CheckedSchema, FunctionRefusal, check_function};
use away_values::{Class, NoMemory};
use compiling::Compiled;
use function_places::{Stuck, could_stand, limit_place, stuck_place, word_place};
use inline_calls::faults_of;
use itoa::Buffer;
use plsql_parse::counts::counts_of;
use plsql_parse::read_function;
use query_places::begins_query;
use refusal_reasons::read_reason;
use std::alloc::{AllocError, Global};
use text_places::text_end;

/// What is counted of a function that is judged.
#[derive(Clone, Copy)]
struct Head {
    nodes: u64,
    variables: u64,
    loops: u64,
    params: u64,
}

/// Reads the two files, and tells where and why the second one is refused, or what its function or its query counts.
pub fn explain<F: Files>(
    alloc: Global,
    schema: &str,
    func: &str,
    files: &mut F,
) -> Result<Ending, Halt>
    ensures { Runs F.Files files.old (explain_course schema.now func.now) files.new
        (run_end result) }
{
    let tables = schema_of(alloc, schema, files)?;
    let bytes = bytes_of(alloc, func, MAX_FILE, files)?;
    explained(alloc, func, &tables, &bytes)
}

/// What is told of the bytes of a file, which say whether it is a query's.
fn explained(
    alloc: Global,
    name: &str,
    tables: &CheckedSchema,
    bytes: &[u8],
) -> Result<Ending, Halt>
    ensures { (text : List ℕ)
        × IsEnd (EndsOnFile name.now tables.now.schema bytes.now text) (run_end result) }
{
    if begins_query(alloc, bytes)? {
        return explained_query(alloc, name, tables, bytes);
    }
    if bytes.len() as u64 > MAX_FUNCTION {
        return Ok(refused(alloc, name, b"LONG")?);
    }
    explained_function(alloc, name, tables, bytes)
}

/// What is told of the bytes of a function's file.
fn explained_function(
    alloc: Global,
    func: &str,
    tables: &CheckedSchema,
    bytes: &[u8],
) -> Result<Ending, Halt>
    ensures { (text : List ℕ)
        × IsEnd (EndsOn func.now tables.now.schema bytes.now text) (run_end result) }
{
    match read_function(alloc, bytes) {
        Ok(function) => judged(alloc, func, tables, bytes, function),
        Err(error) => unread(alloc, func, bytes, &error),
    }
}

// ---- a function that is read

/// What is told of a function that the bytes read as.
fn judged(
    alloc: Global,
    func: &str,
    tables: &CheckedSchema,
    bytes: &[u8],
    function: Function,
) -> Result<Ending, Halt>
    requires limits { KeepsLimits function }
    requires reads { ReadsAsFunction bytes.now function }
    ensures { (text : List ℕ)
        × IsEnd (EndsOn func.now tables.now.schema bytes.now text) (run_end result) }
{
    let head = head_of(&function)?;
    let written = function.copy(alloc)?;
    match check_function(alloc, tables, function) {
        Ok(checked) => counted(alloc, head, tables, &checked),
        Err(refusal) => refused_by(alloc, func, tables, bytes, &written, refusal),
    }
}

/// What is told of a function that is refused.
fn refused_by(
    alloc: Global,
    func: &str,
    tables: &CheckedSchema,
    bytes: &[u8],
    function: &Function,
    refusal: FunctionRefusal,
) -> Result<Ending, Halt>
    requires reads { ReadsAsFunction bytes.now function.now }
    requires refuses { RefusesFunction (function_note tables.now.schema function.now) refusal }
    ensures { (text : List ℕ)
        × IsEnd (EndsOn func.now tables.now.schema bytes.now text) (run_end result) }
{
    match refusal {
        FunctionRefusal::Broken(finding) => broken(alloc, func, tables, bytes, function, finding),
        FunctionRefusal::NoMemory => Err(Halt::NoMemory),
    }
}

/// What is kept of a function.
fn head_of(function: &Function) -> Result<Head, NoMemory>
    requires { KeepsLimits function.now }
    ensures { IfOk result (IsHead function.now) }
{
    let Some(counts) = counts_of(function) else {
        return Err(NoMemory);
    };
    Ok(Head {
        nodes: nodes(function),
        variables: counts.variables,
        loops: counts.loops,
        params: function.params.len() as u64,
    })
}

/// What is told of a function that breaks no rule.
fn counted(
    alloc: Global,
    head: Head,
    tables: &CheckedSchema,
    checked: &CheckedFunction,
) -> Result<Ending, Halt>
    requires texts { IsOfTexts tables.now.schema checked.now.function checked.now.slots }
    ensures { (text : List ℕ) × IsEnd (Tells tables.now.schema (as_callable checked.now)
        (own head) text) (run_end result) }
{
    let compiled = compiling::compile(alloc, tables, checked)?;
    let faults = faults_of(alloc, &compiled.cert.goto)?;
    Ok(Ending {
        status: Status::Done,
        output: lines_of(alloc, head, &compiled, &faults)?,
    })
}

/// The counts of a function and of its query, a line each, and one of the SQLSTATEs of its own faults.
fn lines_of(
    alloc: Global,
    head: Head,
    compiled: &Compiled,
    faults: &[Class],
) -> Result<Vec<u8>, AllocError>
    ensures { IfOk result (λ output. output.items ≡ explained_lines (own head) compiled.now.cert
        (length (string_bytes compiled.now.text)) faults.now) }
{
    let mut output = own_lines(alloc, head, compiled)?;
    put_faults(&mut output, faults)?;
    Ok(output)
}

/// The counts of a function and of its query, a line each.
fn own_lines(alloc: Global, head: Head, compiled: &Compiled) -> Result<Vec<u8>, AllocError>
    ensures { IfOk result (λ output. output.items ≡ count_lines
        (counted_of (own head) compiled.now.cert (length (string_bytes compiled.now.text)))) }
{
    count_lines_of(
        alloc,
        &[
            ("nodes", head.nodes),
            ("variables", head.variables),
            ("loops", head.loops),
            ("parameters", head.params),
            ("labels", compiled.cert.tail.labels.len() as u64),
            ("columns", compiled.cert.tail.columns.len() as u64),
            ("bytes", compiled.text.as_str().len() as u64),
        ],
    )
}

/// A line for each count.
pub(crate) fn count_lines_of(alloc: Global, counts: &[(&str, u64)]) -> Result<Vec<u8>, AllocError>
    ensures { IfOk result (λ output. output.items ≡ count_lines (map as_count counts.now)) }
{
    let mut output = Vec::new(alloc);
    for (what, found) in counts {
        put_count(&mut output, what, *found)?;
    }
    Ok(output)
}

/// What is counted, a blank, the number and LF.
fn put_count(output: &mut Vec<u8>, what: &str, found: u64) -> Result<(), AllocError>
    ensures { IfOk result (λ _. output.new.items ≡ output.old.items
        ++ line (what.now ++ (codes " " ++ decimal found))) }
{
    let mut buffer = Buffer::new();
    output.extend_from_slice(what.as_bytes())?;
    output.push(b' ')?;
    output.extend_from_slice(buffer.format(found).as_bytes())?;
    output.push(b'\n')?;
    Ok(())
}

// ---- a file that isn't read

/// What is told of a file that isn't read.
fn unread(alloc: Global, func: &str, bytes: &[u8], error: &ReadRefusal) -> Result<Ending, Halt>
    ensures { IsEnd (λ status output. IsReadTold func.now bytes.now error.now output
        × (status ≡ Status.Refused)) (run_end result) }
{
    let Some(found) = refusal_place(alloc, bytes, error)? else {
        return Err(Halt::NoMemory);
    };
    let rule = read_text(alloc, error)?;
    let reason = reason_of(alloc, bytes, error, found)?;
    told(alloc, func, bytes, found.offset, &rule, &reason)
}

/// Why a file isn't read, and what could stand at the place.
fn reason_of(
    alloc: Global,
    bytes: &[u8],
    error: &ReadRefusal,
    found: Stuck,
) -> Result<String, NoMemory>
    ensures { IfOk result (λ text. IsReason error.now found.ended (string_bytes text)) }
{
    let mut text = String::from_str(alloc, read_reason(error, found.ended))?;
    let hint = hint_of(alloc, bytes, error, found)?;
    text.push_str(&hint)?;
    Ok(text)
}

/// What could stand at the place of an X3.
fn hint_of(
    alloc: Global,
    bytes: &[u8],
    error: &ReadRefusal,
    found: Stuck,
) -> Result<String, NoMemory>
    ensures { IfOk result (λ text. IsHinted error.now found.ended (string_bytes text)) }
{
    match error {
        ReadRefusal::NoTree => could_stand(alloc, bytes, found),
        ReadRefusal::NotText => Ok(String::new(alloc)),
        ReadRefusal::Token { offset: _ } => Ok(String::new(alloc)),
        ReadRefusal::Outside { word: _ } => Ok(String::new(alloc)),
        ReadRefusal::Limit { which: _, found: _ } => Ok(String::new(alloc)),
        ReadRefusal::NoMemory => Ok(String::new(alloc)),
    }
}

/// Where a file that isn't read is refused.
fn refusal_place(
    alloc: Global,
    bytes: &[u8],
    error: &ReadRefusal,
) -> Result<Option<Stuck>, NoMemory>
    ensures { IfOk result (λ found. IfSome found (RefusedAt bytes.now error.now)) }
{
    match error {
        ReadRefusal::NotText => Ok(Some(at_byte(text_end(bytes) as u64))),
        ReadRefusal::Token { offset } => Ok(Some(at_byte(*offset))),
        ReadRefusal::NoTree => stuck_or_end(alloc, bytes),
        ReadRefusal::Outside { word: _ } => at_word(alloc, bytes),
        ReadRefusal::Limit { which, found: _ } => at_limit(alloc, bytes, *which),
        ReadRefusal::NoMemory => Ok(None),
    }
}

/// A byte behind which there is more.
fn at_byte(offset: u64) -> Stuck
    ensures { result.offset ≡ offset }
{
    Stuck {
        offset,
        ended: false,
    }
}

/// Where no function goes on, or the end of a text without tokens.
fn stuck_or_end(alloc: Global, bytes: &[u8]) -> Result<Option<Stuck>, NoMemory>
    ensures { IfOk result (λ found. IfSome found (RefusedAt bytes.now refusal.NoTree)) }
{
    match stuck_place(alloc, bytes)? {
        Some(found) => Ok(Some(found)),
        None => Ok(Some(Stuck {
            offset: text_end(bytes) as u64,
            ended: true,
        })),
    }
}

/// Where the first word outside the language begins.
fn at_word(alloc: Global, bytes: &[u8]) -> Result<Option<Stuck>, NoMemory>
    ensures { IfOk result (λ found. IfSome found (λ at. IsWordPlace bytes.now at.offset)) }
{
    match word_place(alloc, bytes)? {
        Some(offset) => Ok(Some(at_byte(offset))),
        None => Ok(None),
    }
}

/// Where a limit is exceeded.
fn at_limit(alloc: Global, bytes: &[u8], which: LimitKind) -> Result<Option<Stuck>, NoMemory>
    ensures { IfOk result (λ found. IfSome found (λ at. IsLimitPlace bytes.now which at.offset)) }
{
    match limit_place(alloc, bytes, which)? {
        Some(offset) => Ok(Some(at_byte(offset))),
        None => Ok(None),
    }
}

/// A refusal with its place, which is in the file.
pub(crate) fn told(
    alloc: Global,
    func: &str,
    bytes: &[u8],
    offset: u64,
    rule: &[u8],
    reason: &str,
) -> Result<Ending, Halt>
    ensures { IsEnd (λ status output. IsTold func.now bytes.now offset rule.now reason.now output
        × (status ≡ Status.Refused)) (run_end result) }
{
    let at = offset as usize;
    if at > bytes.len() {
        return Err(Halt::NoMemory);
    }
    Ok(Ending {
        status: Status::Refused,
        output: explanation(alloc, func, bytes, at, rule, reason)?,
    })
}
