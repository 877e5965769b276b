//! `demo N`: the case of a number is compiled, and its function and its query are both run.

ghost use Rattle.std.specs.Prelude.{◌≡◌, ◌++◌, IfOk, List, OnOk, ℕ};
ghost use Rattle.away_top.specs.AnswerLines.{answer_end};
ghost use Rattle.away_top.specs.Arguments.{bound_of as bound_by};
ghost use Rattle.away_top.specs.DemoCourse.{Shows, ShowsWord, count_line, iterations_line, summary_lines};
ghost use Rattle.away_top.specs.Runs.{IsEnd};
ghost use Rattle.away_top.specs.Steps.{run_end};

use crate::Status;
use crate::ending::{Ending, Halt, usage};
use crate::over_tables::answer_lines::answer_ending;
use crate::over_tables::arguments::bound_of;
use away_values::Answer;
use demonstration::{Summary, summary_of};
use itoa::Buffer;
use std::alloc::{AllocError, Global};

/// Tells of the case of the number that the word spells.
pub fn demo(alloc: Global, number: &str) -> Result<Ending, Halt>
    ensures { (text : List ℕ) × IsEnd (ShowsWord (bound_by number.now) text) (run_end result) }
{
    match bound_of(number) {
        Some(number) => shown(alloc, number),
        None => Ok(usage(alloc)?),
    }
}

/// Tells of the case of a number.
fn shown(alloc: Global, number: u64) -> Result<Ending, Halt>
    ensures { (text : List ℕ) × IsEnd (Shows number text) (run_end result) }
{
    let summary = summary_of(alloc, number)?;
    Ok(Ending {
        status: Status::Done,
        output: lines_of(alloc, &summary)?,
    })
}

/// A line for each thing that is told.
fn lines_of(alloc: Global, summary: &Summary) -> Result<Vec<u8>, AllocError>
    ensures { IfOk result (λ output. output.items ≡ summary_lines summary.now) }
{
    let mut output = Vec::new(alloc);
    push_count(&mut output, b"demo ", summary.number)?;
    push_count(&mut output, b"nodes ", summary.nodes)?;
    push_count(&mut output, b"bytes ", summary.bytes)?;
    push_answer(alloc, &mut output, b"function ", &summary.runs.function)?;
    push_answer(alloc, &mut output, b"query ", &summary.runs.query)?;
    push_iterations(&mut output, summary.runs.iterations)?;
    Ok(output)
}

/// Adds a word and the line of an answer.
fn push_answer(
    alloc: Global,
    output: &mut Vec<u8>,
    word: &[u8],
    answer: &Answer,
) -> Result<(), AllocError>
    ensures { OnOk result (output.new.items ≡ output.old.items
        ++ (word.now ++ (answer_end answer.now).1)) }
{
    let ending = answer_ending(alloc, answer)?;
    push_both(output, word, &ending.output)
}

/// Adds the line of the iterations.
fn push_iterations(output: &mut Vec<u8>, iterations: Option<u64>) -> Result<(), AllocError>
    ensures { OnOk result (output.new.items ≡ output.old.items ++ iterations_line iterations) }
{
    match iterations {
        Some(least) => push_count(output, b"iterations ", least),
        None => push_both(output, b"iterations ", b"more\n"),
    }
}

/// Adds a line of a word and a number.
fn push_count(output: &mut Vec<u8>, word: &[u8], count: u64) -> Result<(), AllocError>
    ensures { OnOk result (output.new.items ≡ output.old.items ++ count_line word.now count) }
{
    let mut buffer = Buffer::new();
    push_both(output, word, buffer.format(count).as_bytes())?;
    output.push(b'\n')?;
    Ok(())
}

/// Adds two stretches of bytes.
fn push_both(output: &mut Vec<u8>, first: &[u8], second: &[u8]) -> Result<(), AllocError>
    ensures { OnOk result (output.new.items ≡ output.old.items ++ (first.now ++ second.now)) }
{
    output.extend_from_slice(first)?;
    output.extend_from_slice(second)?;
    Ok(())
}
