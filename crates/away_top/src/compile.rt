//! `compile SCHEMA FUNC` and `certify SCHEMA FUNC`.

ghost use Rattle.std.specs.Prelude.{◌≡◌, ◌++◌, ◌∷◌, IfOk, List, string_bytes, ℕ};
ghost use Rattle.away_top.specs.CompileCourse.{compile_course, Compiles, IsOutput};
ghost use Rattle.away_top.specs.declared.compile.Wanted.TheVariants as made;
ghost use Rattle.away_top.specs.Files.{as_callable};
ghost use Rattle.away_top.specs.Runs.{IsEnd, Runs};
ghost use Rattle.away_top.specs.Steps.{run_end};
ghost use Rattle.call_forms.specs.Writable.{HasSpelling};
ghost use Rattle.cte_prints.specs.Texts.{IsOfTexts};

use crate::ending::{Ending, Halt};
use crate::files::{function_of, schema_of};
use crate::{Files, Status};
use away_types::{CheckedFunction, CheckedSchema};
use away_values::NoMemory;
use cert_json::write_cert;
use compiling::Compiled;
use std::alloc::{AllocError, Global};

/// What is to be written of a compiled function.
#[derive(Clone, Copy)]
pub(crate) enum Wanted {
    /// Its query.
    Query,
    /// Its certificate, a line, and behind it the query.
    Certificate,
}

/// Reads the two files, and writes what is wanted of the function's query over the tables of the schema.
pub fn compile<F: Files>(
    alloc: Global,
    wanted: Wanted,
    schema: &str,
    func: &str,
    files: &mut F,
) -> Result<Ending, Halt>
    ensures { Runs F.Files files.old (compile_course wanted schema.now func.now) files.new
        (run_end result) }
{
    let tables = schema_of(alloc, schema, files)?;
    let function = function_of(alloc, &tables, func, files)?;
    written(alloc, wanted, &tables, function.get())
}

/// What is written of a function.
fn written(
    alloc: Global,
    wanted: Wanted,
    tables: &CheckedSchema,
    function: &CheckedFunction,
) -> Result<Ending, Halt>
    requires texts { IsOfTexts tables.now.schema function.now.function function.now.slots }
    ensures { (text : List ℕ) × IsEnd
        (Compiles wanted tables.now.schema (as_callable function.now) text) (run_end result) }
{
    let compiled = compiling::compile(alloc, tables, function)?;
    Ok(Ending {
        status: Status::Done,
        output: output_of(alloc, wanted, compiled)?,
    })
}

/// What is written of a compiled function.
fn output_of(alloc: Global, wanted: Wanted, compiled: Compiled) -> Result<Vec<u8>, NoMemory>
    ensures { IfOk result (λ output. HasSpelling compiled.cert
        → IsOutput wanted compiled.cert (string_bytes compiled.text) output.items) }
{
    match wanted {
        Wanted::Query => Ok(compiled.text.into_bytes()),
        Wanted::Certificate => certified(alloc, &compiled),
    }
}

/// The certificate of a compiled function, a line, and behind it the query.
fn certified(alloc: Global, compiled: &Compiled) -> Result<Vec<u8>, NoMemory>
    ensures { IfOk result (λ output. HasSpelling compiled.now.cert
        → IsOutput made.Certificate compiled.now.cert
        (string_bytes compiled.now.text) output.items) }
{
    let cert = write_cert(alloc, &compiled.cert)?;
    Ok(line_before(cert, compiled.text.as_str())?)
}

/// A line, and a text behind it.
fn line_before(line: Vec<u8>, text: &str) -> Result<Vec<u8>, AllocError>
    ensures { IfOk result (λ output. output.items ≡ line.items ++ (10 ∷ text.now)) }
{
    let mut output = line;
    output.push(b'\n')?;
    output.extend_from_slice(text.as_bytes())?;
    Ok(output)
}
