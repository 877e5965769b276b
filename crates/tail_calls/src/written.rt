//! The text of the function in which self calls are turns of a loop.

ghost use Rattle.std.specs.Prelude.{◌≡◌, ◌≤◌, IfErr, IfOk, List, length, string_bytes, ℕ};
ghost use Rattle.away_trees.specs.Limits.{KeepsLimits};
ghost use Rattle.call_answers.specs.Laws.{AnswersLikeSelfCaller};
ghost use Rattle.tail_calls.specs.declared.refusals.WriteRefusal.TheVariants.{Limit};
ghost use Rattle.plsql_parse.specs.Refusals.{Refuses};
ghost use Rattle.tail_calls.specs.Untailed as spec;

use crate::refusals::{Grown, WriteRefusal};
use away_lex::{LimitKind, ReadRefusal};
use away_trees::{Function, Schema};
use away_types::{CheckedFunction, CheckedSchema};
use away_values::NoMemory;
use call_answers::answering_as_self_caller;
use call_expand::untailed;
use function_printer::print_function;
use plsql_parse::read_function;
use sqlite_items::Boxed;
use std::alloc::Global;

/// The most bytes of a function's file.
const MOST_BYTES: usize = 1_048_576;

/// A text, and the function that it reads as, as it is checked.
#[derive(Drop)]
pub struct Untailed {
    pub text: String,
    pub checked: Boxed<CheckedFunction>,
}

/// The text of the function with its self calls as turns.
fn untailed_text(alloc: Global, s: &Schema, f: &Function) -> Result<String, NoMemory>
    ensures { IfOk result (λ text. spec.IsUntailedText s.now f.now (string_bytes text)) }
{
    let tree = Boxed::new(alloc, untailed(alloc, s, f)?)?;
    print_function(alloc, tree.get())
}

/// A limit of what is read as one of what is written.
fn grown(which: LimitKind) -> Grown
    ensures { result ≡ spec.grown_by which }
{
    match which {
        LimitKind::Nesting => Grown::Nesting,
        LimitKind::Nodes => Grown::Nodes,
        LimitKind::Variables => Grown::Variables,
        LimitKind::Loops => Grown::Loops,
    }
}

fn limit(which: Grown, found: u64) -> WriteRefusal
    ensures { result ≡ Limit which found }
{
    WriteRefusal::Limit { which, found }
}

/// Why a text that isn't read isn't written.
fn outgrown(error: ReadRefusal) -> WriteRefusal
    ensures { (text : List ℕ) → Refuses text error → spec.RefusesText text result }
{
    match error {
        ReadRefusal::Limit { which, found } => limit(grown(which), found),
        _ => WriteRefusal::NoMemory,
    }
}

fn boxed(alloc: Global, f: Function) -> Result<Boxed<Function>, NoMemory>
    ensures { IfOk result (λ b. b ≡ f) }
{
    Ok(Boxed::new(alloc, f)?)
}

/// The function that a text reads as.
fn read_again(alloc: Global, text: &str) -> Result<Boxed<Function>, WriteRefusal>
    ensures ok { IfOk result (λ f. spec.ReadsWithin text.now f) }
    ensures err { IfErr result (λ e. spec.RefusesText text.now e) }
{
    match read_function(alloc, text.as_bytes()) {
        Ok(f) => Ok(boxed(alloc, f)?),
        Err(error) => Err(outgrown(error)),
    }
}

/// Whether a text that reads as a function has no more bytes than a file of one.
fn fits(text: &str, f: &Function) -> Result<(), WriteRefusal>
    requires { spec.ReadsWithin text.now f.now }
    ensures ok { IfOk result (λ x. length text.now ≤ spec.most_bytes) }
    ensures err { IfErr result (λ e. spec.RefusesText text.now e) }
{
    if text.len() > MOST_BYTES {
        Err(limit(Grown::Bytes, text.len() as u64))
    } else {
        Ok(())
    }
}

/// The function that a text reads as, where the text may be the file of a function.
pub fn read_back(alloc: Global, text: &str) -> Result<Boxed<Function>, WriteRefusal>
    ensures ok { IfOk result (λ f. spec.IsFileOf text.now f) }
    ensures err { IfErr result (λ e. spec.RefusesText text.now e) }
{
    let f = read_again(alloc, text)?;
    fits(text, f.get())?;
    Ok(f)
}

/// The function that was read, as it is checked.
fn answering(
    alloc: Global,
    s: &CheckedSchema,
    f: &Function,
    written: Boxed<Function>,
) -> Result<Boxed<CheckedFunction>, NoMemory>
    requires { KeepsLimits written }
    ensures { IfOk result (λ c.
        AnswersLikeSelfCaller s.now.schema f.now written c.function c.slots) }
{
    Ok(Boxed::new(
        alloc,
        answering_as_self_caller(alloc, s, f, written.into_inner())?,
    )?)
}

/// The text of the function with its self calls as turns of a loop. What is written is read again, judged, and compared with the
/// function: a text that doesn't answer as the function does is never given. That none is such is shown by tests alone, and would
/// be answered as want of memory.
pub fn untail(alloc: Global, s: &CheckedSchema, f: &Function) -> Result<Untailed, WriteRefusal>
    ensures ok { IfOk result (λ u. spec.IsUntailed s.now.schema f.now (string_bytes u.text)
        u.checked.function u.checked.slots) }
    ensures err { IfErr result (λ e. spec.Refuses s.now.schema f.now e) }
{
    let text = untailed_text(alloc, &s.schema, f)?;
    let written = read_back(alloc, text.as_str())?;
    let checked = answering(alloc, s, f, written)?;
    Ok(Untailed { text, checked })
}
