//! `check SCHEMA FUNC QUERY CERT`.

ghost use Rattle.std.specs.Prelude.{◌≡◌, ◌++◌, IfOk, codes};
ghost use Rattle.std.specs.Fmt.{decimal};
ghost use Rattle.away_top.specs.Certificates.{IsCert, RefusesCert, cert_course, field_name};
ghost use Rattle.away_top.specs.CheckCourse.{IsJudgedSo, TellsVerdict, check_course, stage_number};
ghost use Rattle.away_top.specs.Course.{RefusedBy};
ghost use Rattle.away_top.specs.Files.{as_asked, as_callable};
ghost use Rattle.away_top.specs.Lines.{line, refusal};
ghost use Rattle.away_top.specs.Runs.{Follows, IsEnd};
ghost use Rattle.away_top.specs.Steps.{IsEnding, IsJudged, run_end, stretch_end};

use crate::ending::{Ending, Halt, refused, with_output};
use crate::files::{MAX_FILE, bytes_of, function_of, query_of, schema_of};
use crate::{Files, Status};
use away_types::{CheckedFunction, CheckedQuery, CheckedSchema};
use cert_json::{Cert, CertField, CertRefusal, read_cert};
use itoa::Buffer;
use stage_check::{Relation, Verdict, check_all};
use std::alloc::{AllocError, Global};

/// Reads the four files, and tells whether the certificate's forms stand between the function and the query.
pub fn check<F: Files>(
    alloc: Global,
    schema: &str,
    func: &str,
    query: &str,
    cert: &str,
    files: &mut F,
) -> Result<Ending, Halt>
    ensures { Follows F.Files files.old
        (check_course schema.now func.now query.now cert.now) files.new (run_end result) }
{
    let tables = schema_of(alloc, schema, files)?;
    let function = function_of(alloc, &tables, func, files)?;
    let query = query_of(alloc, &tables, query, files)?;
    let forms = cert_of(alloc, cert, files)?;
    verdict_on(alloc, &tables, function.get(), query.get(), &forms)
}

/// The verdict on the forms.
fn verdict_on(
    alloc: Global,
    tables: &CheckedSchema,
    function: &CheckedFunction,
    query: &CheckedQuery,
    forms: &Cert,
) -> Result<Ending, Halt>
    ensures { IsEnd (IsJudgedSo tables.now.schema (as_callable function.now)
        (as_asked query.now) forms.now) (run_end result) }
{
    let verdict = check_all(alloc, tables, function, query, forms)?;
    Ok(verdict_line(alloc, verdict)?)
}

/// The line of a verdict.
fn verdict_line(alloc: Global, verdict: Verdict) -> Result<Ending, AllocError>
    ensures { IfOk result (λ ending. TellsVerdict verdict ending.status ending.output.items) }
{
    match verdict {
        Verdict::Accepted => with_output(alloc, Status::Done, b"accepted\n"),
        Verdict::Fails(relation) => not_accepted(alloc, stage(relation)),
    }
}

/// The stage of a relation.
fn stage(relation: Relation) -> u8
    ensures { result ≡ stage_number relation }
{
    match relation {
        Relation::Lowered => 2,
        Relation::Named => 3,
        Relation::Called => 4,
        Relation::Merged => 5,
        Relation::Columned => 6,
        Relation::Templated => 7,
    }
}

/// The forms aren't accepted by a stage.
fn not_accepted(alloc: Global, number: u8) -> Result<Ending, AllocError>
    ensures { IfOk result (λ ending. IsEnding ending Status.NotAccepted
        (line (codes "not accepted S" ++ decimal number))) }
{
    let mut buffer = Buffer::new();
    let mut output = b"not accepted S".to_vec(alloc)?;
    output.extend_from_slice(buffer.format(number).as_bytes())?;
    output.push(b'\n')?;
    Ok(Ending {
        status: Status::NotAccepted,
        output,
    })
}

/// The certificate that a file reads as.
fn cert_of<F: Files>(alloc: Global, name: &str, files: &mut F) -> Result<Cert, Halt>
    ensures { Follows F.Files files.old (cert_course name.now) files.new
        (stretch_end (λ c. c) result) }
{
    let bytes = bytes_of(alloc, name, MAX_FILE, files)?;
    cert_in(alloc, name, &bytes)
}

fn cert_in(alloc: Global, name: &str, bytes: &[u8]) -> Result<Cert, Halt>
    ensures { IsJudged (RefusedBy name.now (RefusesCert bytes.now))
        (λ c. (is : IsCert bytes.now) × (c ≡ is.cert)) result }
{
    match read_cert(alloc, bytes) {
        Ok(cert) => Ok(cert),
        Err(CertRefusal::NotJson) => Err(Halt::Ended(refused(alloc, name, b"C1")?)),
        Err(CertRefusal::Field(field)) => Err(Halt::Ended(refused_field(alloc, name, field)?)),
        Err(CertRefusal::NoMemory) => Err(Halt::NoMemory),
    }
}

/// The file is refused for a field of the certificate.
fn refused_field(alloc: Global, name: &str, field: CertField) -> Result<Ending, AllocError>
    ensures { IfOk result (λ ending. IsEnding ending Status.Refused
        (refusal name.now (codes "C2 " ++ field_name field))) }
{
    let mut rule = b"C2 ".to_vec(alloc)?;
    rule.extend_from_slice(field_text(field))?;
    refused(alloc, name, &rule)
}

fn field_text(field: CertField) -> &'static [u8]
    ensures { result.now ≡ field_name field }
{
    match field {
        CertField::GotoEntry => b"goto.entry",
        CertField::GotoEnd => b"goto.end",
        CertField::GotoNodes => b"goto.nodes",
        CertField::GotoBlocks => b"goto.blocks",
        CertField::SsaNames => b"ssa.names",
        CertField::SsaBlocks => b"ssa.blocks",
        CertField::AnfBlocks => b"anf.blocks",
        CertField::Labels => b"labels",
        CertField::Columns => b"columns",
        CertField::Places => b"places",
    }
}
