//! The check of a program.

ghost use Rattle.std.specs.Prelude.{◌<◌, ◌≡◌, IfErr, IfOk, length, ℕ};
ghost use Rattle.away_trees.specs.Limits.{KeepsLimits};
ghost use Rattle.away_types.specs.FunctionChecks.{function_note};
ghost use Rattle.call_expand.specs.Expanding.{function_at};
ghost use Rattle.program_check.specs.Firsts.{Nowhere};
ghost use Rattle.program_check.specs.Refusing as spec;

use crate::names::{first_misplaced, first_taken, names_of};
use crate::reaching::first_recursive;
use crate::refusals::ProgramRefusal;
use away_names::lookups::narrow;
use away_names::rule::Rule;
use away_trees::Function;
use away_types::{CheckedFunction, CheckedSchema, FunctionRefusal, check_function};
use away_values::NoMemory;
use call_expand::judged::{Callees, judged};
use sqlite_items::Boxed;
use std::alloc::Global;

fn boxed(alloc: Global, f: CheckedFunction) -> Result<Boxed<CheckedFunction>, NoMemory>
    ensures { IfOk result (λ b. b ≡ f) }
{
    Ok(Boxed::new(alloc, f)?)
}

/// The rule that a function breaks as it is judged, if any.
fn broken_by(alloc: Global, s: &CheckedSchema, f: Function) -> Result<Option<Rule>, NoMemory>
    requires { KeepsLimits f }
    ensures { IfOk result (spec.TellsRule (function_note s.now.schema f)) }
{
    match check_function(alloc, s, f) {
        Ok(checked) => {
            let _checked = boxed(alloc, checked)?;
            Ok(None)
        }
        Err(FunctionRefusal::NoMemory) => Err(NoMemory),
        Err(FunctionRefusal::Broken(finding)) => Ok(Some(finding.rule)),
    }
}

/// The rule that a function of the program breaks, if any.
fn broken_rule(
    alloc: Global,
    s: &CheckedSchema,
    fs: &[Function],
    f: &Function,
) -> Result<Option<Rule>, NoMemory>
    requires { KeepsLimits f.now }
    ensures { IfOk result (spec.TellsRule (spec.note fs.now s.now.schema f.now)) }
{
    let written = judged(alloc, Callees::All(fs), f)?;
    broken_by(alloc, s, written)
}

/// The functions' names and the places of their calls.
fn check_calls(alloc: Global, fs: &[Function]) -> Result<(), ProgramRefusal>
    ensures ok { IfOk result (λ x. spec.AreCallers fs.now) }
    ensures err { IfErr result (spec.RefusesCallers fs.now) }
{
    let names = names_of(alloc, fs)?;
    if let Some(k) = first_taken(fs, names.as_slice()) {
        return Err(ProgramRefusal::Names(narrow(k)?));
    }
    if let Some(k) = first_misplaced(fs, names.as_slice()) {
        return Err(ProgramRefusal::Place(narrow(k)?));
    }
    match first_recursive(alloc, fs) {
        Err(_) => Err(ProgramRefusal::NoMemory),
        Ok(None) => Ok(()),
        Ok(Some(k)) => Err(ProgramRefusal::Recursion(narrow(k)?)),
    }
}

/// Each function's rules.
fn check_rules(alloc: Global, s: &CheckedSchema, fs: &[Function]) -> Result<(), ProgramRefusal>
    requires { (k : ℕ) → k < length fs.now → KeepsLimits (function_at fs.now k) }
    ensures ok { IfOk result (λ x. Nowhere (spec.Breaks fs.now s.now.schema) (length fs.now)) }
    ensures err { IfErr result (spec.RefusesRules fs.now s.now.schema) }
{
    for k in 0..fs.len() {
        let broken = broken_rule(alloc, s, fs, &fs[k])?;
        if let Some(rule) = broken {
            return Err(ProgramRefusal::Rule(narrow(k)?, rule));
        }
    }
    Ok(())
}

/// Whether functions are a program: each has a name of its own, their calls of one another are whole assignments and RETURNs,
/// none reaches itself, and none breaks a rule.
pub fn check_program(
    alloc: Global,
    s: &CheckedSchema,
    fs: &[Function],
) -> Result<(), ProgramRefusal>
    requires { (k : ℕ) → k < length fs.now → KeepsLimits (function_at fs.now k) }
    ensures ok { IfOk result (λ x. spec.IsProgram fs.now s.now.schema) }
    ensures err { IfErr result (spec.RefusesProgram fs.now s.now.schema) }
{
    match check_calls(alloc, fs) {
        Ok(()) => {}
        Err(error) => return Err(error),
    }
    match check_rules(alloc, s, fs) {
        Ok(()) => Ok(()),
        Err(error) => Err(error),
    }
}
