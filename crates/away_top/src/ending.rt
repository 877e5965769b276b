//! How a run ends: a status and all that it writes.

ghost use Rattle.std.specs.Prelude.{◌≡◌, IfOk, codes};
ghost use Rattle.away_names.specs.Rules.{number};
ghost use Rattle.away_top.specs.Lines.{bad_token, growth_name, growth_rule, limit_rule, limit_name, line, nesting_rule, numbered_rule, outside_word, read_fault, refusal};
ghost use Rattle.away_top.specs.Help.{help_text, version_text};
ghost use Rattle.away_top.specs.Refusals.{IsRule};
ghost use Rattle.away_top.specs.Steps.{IsEnding};

use crate::Status;
use away_lex::{LimitKind, ReadRefusal};
use away_names::rule::Rule;
use away_values::{Name, NoMemory};
use itoa::Buffer;
use std::alloc::{AllocError, Global};
use tail_calls::Grown;

const HELP: &[u8] =
    b"away compile SCHEMA FUNC                 write the query that the function in FUNC becomes, over the tables of SCHEMA\naway certify SCHEMA FUNC                 write a certificate of that query, a line, and behind it the query\naway batch SCHEMA FUNC TABLE             write one query in which each row of the table TABLE of SCHEMA is a call of the function in FUNC\naway untail SCHEMA FUNC                  write the function in FUNC with its calls of itself as turns of a loop\naway expand SCHEMA MAIN FUNC..           write the function in MAIN with its calls of those in FUNC.. expanded\naway inline SCHEMA QUERY FUNC            write the query in QUERY with its calls of the function in FUNC as subqueries over one recursive part\naway explain SCHEMA FUNC                 write where and why the function or the query in FUNC is refused, or its counts, with those of the query that a function becomes\naway unroll K SCHEMA FUNC                write a query that the function in FUNC becomes, in which one iteration runs up to K turns, from 1 to 64\naway unrolled BOUND K SCHEMA FUNC DIR ARG..  write what that query answers over the tables in DIR, within BOUND iterations\naway check SCHEMA FUNC QUERY CERT         write whether the certificate in CERT shows that the query in QUERY answers as the function in FUNC\naway format FUNC                         write the function in FUNC as the one text that it prints as\naway sql BOUND SCHEMA QUERY DIR ARG..    write what the query in QUERY answers over the tables in DIR, within BOUND iterations\naway rows BOUND SCHEMA QUERY DIR ARG..   write the rows that the query in QUERY gives over the tables in DIR, within BOUND iterations\naway fn BOUND SCHEMA FUNC DIR ARG..      write what the function in FUNC answers over the tables in DIR, within BOUND turns\naway demo N                              make the case of the number N, and write how long its function and its query are and what they answer\naway --help                              write these lines\naway --version                           write the program's name and version\n";

/// A status with the whole output of the run.
#[derive(Drop)]
pub struct Ending {
    pub status: Status,
    pub output: Vec<u8>,
}

/// Why a run goes on no further.
#[derive(Drop)]
pub enum Halt {
    /// It has ended.
    Ended(Ending),
    NoMemory,
}

impl From<NoMemory> for Halt {
    ghost use Rattle.std.specs.Prelude.{◌≡◌};
    ghost use Rattle.away_top.specs.declared.ending.Halt.TheVariants.{NoMemory};

    ghost from_gives = { λ _ e. e ≡ NoMemory };

    fn from(_error: NoMemory) -> Halt {
        Halt::NoMemory
    }
}

impl From<AllocError> for Halt {
    ghost use Rattle.std.specs.Prelude.{◌≡◌};
    ghost use Rattle.away_top.specs.declared.ending.Halt.TheVariants.{NoMemory};

    ghost from_gives = { λ _ e. e ≡ NoMemory };

    fn from(_error: AllocError) -> Halt {
        Halt::NoMemory
    }
}

/// A status with this output.
pub(crate) fn with_output(
    alloc: Global,
    status: Status,
    output: &[u8],
) -> Result<Ending, AllocError>
    ensures { IfOk result (λ ending. IsEnding ending status output.now) }
{
    Ok(Ending {
        status,
        output: output.to_vec(alloc)?,
    })
}

/// The words are no form.
pub fn usage(alloc: Global) -> Result<Ending, AllocError>
    ensures { IfOk result (λ ending. IsEnding ending Status.Usage (line (codes "usage"))) }
{
    with_output(alloc, Status::Usage, b"usage\n")
}

/// The forms of the words, a line each.
pub fn help(alloc: Global) -> Result<Ending, AllocError>
    ensures { IfOk result (λ ending. IsEnding ending Status.Done help_text) }
{
    with_output(alloc, Status::Done, HELP)
}

/// The program's name and version.
pub fn version(alloc: Global) -> Result<Ending, AllocError>
    ensures { IfOk result (λ ending. IsEnding ending Status.Done version_text) }
{
    with_output(alloc, Status::Done, b"away 0.1.0\n")
}

/// The file can't be read.
pub fn unreadable(alloc: Global, name: &str) -> Result<Ending, AllocError>
    ensures { IfOk result (λ ending. IsEnding ending Status.ReadFault (read_fault name.now)) }
{
    let mut output = b"read fault ".to_vec(alloc)?;
    output.extend_from_slice(name.as_bytes())?;
    output.push(b'\n')?;
    Ok(Ending {
        status: Status::ReadFault,
        output,
    })
}

/// The file is refused by a rule.
pub fn refused(alloc: Global, name: &str, rule: &[u8]) -> Result<Ending, AllocError>
    ensures { IfOk result (λ ending. IsEnding ending Status.Refused (refusal name.now rule.now)) }
{
    let mut output = b"refused ".to_vec(alloc)?;
    output.extend_from_slice(name.as_bytes())?;
    output.push(b' ')?;
    output.extend_from_slice(rule)?;
    output.push(b'\n')?;
    Ok(Ending {
        status: Status::Refused,
        output,
    })
}

/// The file is refused for a rule of names, scopes or types.
pub fn refused_rule(alloc: Global, name: &str, rule: Rule) -> Result<Ending, AllocError>
    ensures { IfOk result (λ ending. IsEnding ending Status.Refused
        (refusal name.now (numbered_rule (number rule)))) }
{
    let word = rule_text(alloc, rule)?;
    refused(alloc, name, &word)
}

/// The rule of a bad token.
fn token_text(alloc: Global, offset: u64) -> Result<Vec<u8>, AllocError>
    ensures { IfOk result (λ text. text.items ≡ bad_token offset) }
{
    let mut buffer = Buffer::new();
    let mut rule = b"X2 ".to_vec(alloc)?;
    rule.extend_from_slice(buffer.format(offset).as_bytes())?;
    Ok(rule)
}

/// The rule of a word that isn't read.
fn word_text(alloc: Global, word: &Name) -> Result<Vec<u8>, AllocError>
    ensures { IfOk result (λ text. text.items ≡ outside_word word.now) }
{
    let mut rule = b"X4 ".to_vec(alloc)?;
    rule.extend_from_slice(word.text().as_bytes())?;
    Ok(rule)
}

/// A rule of names, scopes or types.
pub(crate) fn rule_text(alloc: Global, rule: Rule) -> Result<Vec<u8>, AllocError>
    ensures { IfOk result (λ text. text.items ≡ numbered_rule (number rule)) }
{
    let mut buffer = Buffer::new();
    let mut word = b"X".to_vec(alloc)?;
    word.extend_from_slice(buffer.format(rule.number()).as_bytes())?;
    Ok(word)
}

/// The rule of a limit.
fn limit_text(alloc: Global, which: LimitKind, found: u64) -> Result<Vec<u8>, AllocError>
    ensures { IfOk result (λ text. text.items ≡ limit_rule which found) }
{
    let mut buffer = Buffer::new();
    let mut rule = b"X5 ".to_vec(alloc)?;
    rule.extend_from_slice(limit_word(which))?;
    rule.push(b' ')?;
    rule.extend_from_slice(buffer.format(found).as_bytes())?;
    Ok(rule)
}

/// The rule by which a reader refuses a file.
pub(crate) fn read_text(alloc: Global, error: &ReadRefusal) -> Result<Vec<u8>, AllocError>
    ensures { IfOk result (λ text. IsRule error.now text.items) }
{
    match error {
        ReadRefusal::NotText => b"X1".to_vec(alloc),
        ReadRefusal::Token { offset } => token_text(alloc, *offset),
        ReadRefusal::NoTree => b"X3".to_vec(alloc),
        ReadRefusal::Outside { word } => word_text(alloc, word),
        ReadRefusal::Limit { which, found } => limit_text(alloc, *which, *found),
        ReadRefusal::NoMemory => Err(AllocError),
    }
}

/// The file is refused for what the function that would be written exceeds.
pub fn refused_growth(
    alloc: Global,
    name: &str,
    which: Grown,
    found: u64,
) -> Result<Ending, AllocError>
    ensures { IfOk result (λ ending. IsEnding ending Status.Refused
        (refusal name.now (growth_rule which found))) }
{
    let mut buffer = Buffer::new();
    let mut rule = b"E4 ".to_vec(alloc)?;
    rule.extend_from_slice(growth_text(which))?;
    rule.push(b' ')?;
    rule.extend_from_slice(buffer.format(found).as_bytes())?;
    refused(alloc, name, &rule)
}

/// The file is refused for the nesting of the query that would be written.
pub fn refused_nesting(alloc: Global, name: &str, found: u64) -> Result<Ending, AllocError>
    ensures { IfOk result (λ ending. IsEnding ending Status.Refused
        (refusal name.now (nesting_rule found))) }
{
    let mut buffer = Buffer::new();
    let mut rule = b"I4 ".to_vec(alloc)?;
    rule.extend_from_slice(buffer.format(found).as_bytes())?;
    refused(alloc, name, &rule)
}

fn growth_text(which: Grown) -> &'static [u8]
    ensures { result.now ≡ growth_name which }
{
    match which {
        Grown::Nesting => b"nesting",
        Grown::Nodes => b"nodes",
        Grown::Variables => b"variables",
        Grown::Loops => b"loops",
        Grown::Bytes => b"bytes",
    }
}

fn limit_word(which: LimitKind) -> &'static [u8]
    ensures { result.now ≡ limit_name which }
{
    match which {
        LimitKind::Nesting => b"nesting",
        LimitKind::Nodes => b"nodes",
        LimitKind::Variables => b"variables",
        LimitKind::Loops => b"loops",
    }
}
