//! The line that tells an answer.

ghost use Rattle.std.specs.Prelude.{◌≡◌, ◌++◌, IfOk, codes};
ghost use Rattle.away_top.specs.AnswerLines.{answer_end, value_line};
ghost use Rattle.away_top.specs.Lines.{line};
ghost use Rattle.away_top.specs.Steps.{IsEnding};

use crate::Status;
use crate::ending::{Ending, with_output};
use away_values::{Answer, Class, Value};
use itoa::Buffer;
use std::alloc::{AllocError, Global};

/// How a run ends that has this answer.
pub fn answer_ending(alloc: Global, answer: &Answer) -> Result<Ending, AllocError>
    ensures { IfOk result (λ ending. IsEnding ending (answer_end answer.now).0
        (answer_end answer.now).1) }
{
    match answer {
        Answer::Value(v) => value_ending(alloc, v),
        Answer::Fault(class) => fault_ending(alloc, class),
        Answer::More => more_ending(alloc),
        Answer::Shape(rows) => {
            let mut buffer = Buffer::new();
            let count = buffer.format(*rows).as_bytes();
            with_details(alloc, Status::Shape, b"shape ", count)
        }
    }
}

/// How a run ends that meets a fault of this class.
pub fn fault_ending(alloc: Global, class: &Class) -> Result<Ending, AllocError>
    ensures { IfOk result (λ ending. IsEnding ending Status.Fault
        (line (codes "fault " ++ class.now.code))) }
{
    with_details(alloc, Status::Fault, b"fault ", &class.code)
}

/// How a run ends whose bound doesn't suffice.
pub fn more_ending(alloc: Global) -> Result<Ending, AllocError>
    ensures { IfOk result (λ ending. IsEnding ending Status.More (line (codes "more"))) }
{
    with_output(alloc, Status::More, b"more\n")
}

fn value_ending(alloc: Global, v: &Value) -> Result<Ending, AllocError>
    ensures { IfOk result (λ ending. IsEnding ending Status.Done (value_line v.now)) }
{
    match v {
        Value::Null => with_output(alloc, Status::Done, b"null\n"),
        Value::Int(n) => {
            let mut buffer = Buffer::new();
            let digits = buffer.format(*n).as_bytes();
            with_details(alloc, Status::Done, b"value ", digits)
        }
        Value::Bool(true) => with_output(alloc, Status::Done, b"value true\n"),
        Value::Bool(false) => with_output(alloc, Status::Done, b"value false\n"),
        Value::Text(word) => {
            with_details(alloc, Status::Done, b"value ", word.text().as_bytes())
        }
    }
}

/// A line of a word and its details.
fn with_details(
    alloc: Global,
    status: Status,
    word: &[u8],
    details: &[u8],
) -> Result<Ending, AllocError>
    ensures { IfOk result (λ ending. IsEnding ending status (line (word.now ++ details.now))) }
{
    let mut output = word.to_vec(alloc)?;
    output.extend_from_slice(details)?;
    output.push(b'\n')?;
    Ok(Ending { status, output })
}
