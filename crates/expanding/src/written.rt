//! The text of the function in which calls are expanded.

ghost use Rattle.std.specs.Prelude.{◌≡◌, IfErr, IfOk, List, string_bytes, ℕ};
ghost use Rattle.away_trees.specs.Limits.{KeepsLimits};
ghost use Rattle.call_answers.specs.Laws.{AnswersLikeProgram};
ghost use Rattle.expanded_sizes.specs.Told.{IsTooLarge};
ghost use Rattle.expanding.specs.Expanded as spec;
ghost use Rattle.tail_calls.specs.Untailed.{IsFileOf, RefusesText};

use away_lex::LimitKind;
use away_trees::{Function, Schema};
use away_types::{CheckedFunction, CheckedSchema};
use away_values::NoMemory;
use call_answers::answering_as_program;
use call_expand::expanded;
use expanded_sizes::size_told;
use function_printer::print_function;
use sqlite_items::Boxed;
use std::alloc::Global;
use tail_calls::{Grown, WriteRefusal, read_back};

/// A text, and the function that it reads as, as it is checked.
#[derive(Drop)]
pub struct Expanded {
    pub text: String,
    pub checked: Boxed<CheckedFunction>,
}

/// A size that is too large.
fn too_large(which: LimitKind, found: u64) -> WriteRefusal
    ensures { (fs : List Function) → IsTooLarge fs which found → spec.RefusesSizes fs result }
{
    match which {
        LimitKind::Nesting => WriteRefusal::Limit {
            which: Grown::Nesting,
            found,
        },
        LimitKind::Nodes => WriteRefusal::Limit {
            which: Grown::Nodes,
            found,
        },
        LimitKind::Variables => WriteRefusal::Limit {
            which: Grown::Variables,
            found,
        },
        LimitKind::Loops => WriteRefusal::Limit {
            which: Grown::Loops,
            found,
        },
    }
}

/// Whether what is counted of the function that is made is within its limits.
fn keeps_sizes(alloc: Global, fs: &[Function]) -> Result<(), WriteRefusal>
    ensures ok { IfOk result (λ x. spec.AllFit fs.now) }
    ensures err { IfErr result (λ e. spec.RefusesSizes fs.now e) }
{
    match size_told(alloc, fs) {
        Err(NoMemory) => Err(WriteRefusal::NoMemory),
        Ok(None) => Ok(()),
        Ok(Some((which, found))) => Err(too_large(which, found)),
    }
}

/// The text of the first function with the calls of the others expanded.
fn expanded_text(alloc: Global, s: &Schema, fs: &[Function]) -> Result<String, NoMemory>
    ensures { IfOk result (λ text. spec.IsExpandedText s.now fs.now (string_bytes text)) }
{
    let tree = Boxed::new(alloc, expanded(alloc, s, fs)?)?;
    print_function(alloc, tree.get())
}

/// Why a text isn't written whose sizes are within their limits: it is too long.
fn too_long(error: WriteRefusal) -> WriteRefusal
    ensures { (text : List ℕ) → RefusesText text error → spec.RefusesLength text result }
{
    match error {
        WriteRefusal::Limit {
            which: Grown::Bytes,
            ..
        } => error,
        _ => WriteRefusal::NoMemory,
    }
}

/// The function that a text reads as whose sizes are within their limits.
fn read(alloc: Global, text: &str) -> Result<Boxed<Function>, WriteRefusal>
    ensures ok { IfOk result (λ f. IsFileOf text.now f) }
    ensures err { IfErr result (λ e. spec.RefusesLength text.now e) }
{
    match read_back(alloc, text) {
        Ok(f) => Ok(f),
        Err(error) => Err(too_long(error)),
    }
}

/// The function that was read, as it is checked.
fn answering(
    alloc: Global,
    s: &CheckedSchema,
    fs: &[Function],
    written: Boxed<Function>,
) -> Result<Boxed<CheckedFunction>, NoMemory>
    requires { KeepsLimits written }
    ensures { IfOk result (λ c.
        AnswersLikeProgram s.now.schema fs.now written c.function c.slots) }
{
    Ok(Boxed::new(
        alloc,
        answering_as_program(alloc, s, fs, written.into_inner())?,
    )?)
}

/// The text of the first function with the calls of the others expanded. Its sizes are told before it is built. What is written is
/// read again, judged, and compared with the functions: a text that doesn't answer as they do is never given. That none is such is
/// shown by tests alone, and would be answered as want of memory.
pub fn expand(alloc: Global, s: &CheckedSchema, fs: &[Function]) -> Result<Expanded, WriteRefusal>
    ensures ok { IfOk result (λ x. spec.IsExpanded s.now.schema fs.now (string_bytes x.text)
        x.checked.function x.checked.slots) }
    ensures err { IfErr result (λ e. spec.Refuses s.now.schema fs.now e) }
{
    keeps_sizes(alloc, fs)?;
    let text = expanded_text(alloc, &s.schema, fs)?;
    let written = read(alloc, text.as_str())?;
    let checked = answering(alloc, s, fs, written)?;
    Ok(Expanded { text, checked })
}
