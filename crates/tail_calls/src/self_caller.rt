//! The check of a function that calls itself.

ghost use Rattle.std.specs.Prelude.{◌≡◌, IfErr, IfOk, None};
ghost use Rattle.away_trees.specs.Limits.{KeepsLimits};
ghost use Rattle.call_expand.specs.Placing.{misplaces_self as misplaces_self_by};
ghost use Rattle.call_expand.specs.Untailing.{self_names};
ghost use Rattle.away_types.specs.FunctionChecks.{function_note};
ghost use Rattle.away_types.specs.Refusals.{HasNoFinding};
ghost use Rattle.tail_calls.specs.SelfCalls as spec;

use crate::refusals::SelfRefusal;
use away_names::function::function;
use away_trees::Function;
use away_types::{CheckedFunction, CheckedSchema, FunctionRefusal, check_function};
use away_values::NoMemory;
use call_expand::judged::{Callees, judged};
use moved_names::sought::Sought;
use moved_names::words::{Looking, Places, in_stmt};
use sqlite_items::{Boxed, Items};
use std::alloc::Global;

/// A call of the function stands elsewhere than as a whole RETURN.
fn misplaces_self(alloc: Global, f: &Function) -> Result<bool, NoMemory>
    ensures { IfOk result (λ b. b ≡ misplaces_self_by (self_names f.now) f.now.body) }
{
    let mut own = Items::new(alloc);
    if function(&f.name).is_none() {
        own.push(f.name.copy(alloc)?)?;
    }
    let l = Looking {
        sought: Sought::Calls(own.as_slice()),
        places: Places::Returns,
    };
    Ok(in_stmt(l, &f.body))
}

fn boxed(alloc: Global, f: CheckedFunction) -> Result<Boxed<CheckedFunction>, NoMemory>
    ensures { IfOk result (λ b. b ≡ f) }
{
    Ok(Boxed::new(alloc, f)?)
}

/// The function as it is checked, or what it breaks.
fn checked(
    alloc: Global,
    s: &CheckedSchema,
    f: Function,
) -> Result<Boxed<CheckedFunction>, SelfRefusal>
    requires { KeepsLimits f }
    ensures ok { IfOk result (λ c. HasNoFinding (function_note s.now.schema f)) }
    ensures err { IfErr result (λ e. spec.RefusesBy (function_note s.now.schema f) e) }
{
    match check_function(alloc, s, f) {
        Ok(checked) => Ok(boxed(alloc, checked)?),
        Err(FunctionRefusal::NoMemory) => Err(SelfRefusal::NoMemory),
        Err(FunctionRefusal::Broken(finding)) => Err(SelfRefusal::Rule(finding.rule)),
    }
}

/// What the function breaks where each self call is judged as a value of the result's type whose arguments have the types of the
/// parameters.
fn check_rules(alloc: Global, s: &CheckedSchema, f: &Function) -> Result<(), SelfRefusal>
    requires { KeepsLimits f.now }
    ensures ok { IfOk result (λ x. spec.Finds s.now.schema f.now None) }
    ensures err { IfErr result (λ e. spec.RefusesBy (spec.note s.now.schema f.now) e) }
{
    let written = judged(alloc, Callees::Own(f), f)?;
    let _checked = checked(alloc, s, written)?;
    Ok(())
}

/// Whether the function's calls of itself are whole RETURNs, and it breaks no rule.
pub fn check_self(alloc: Global, s: &CheckedSchema, f: &Function) -> Result<(), SelfRefusal>
    requires { KeepsLimits f.now }
    ensures ok { IfOk result (λ x. spec.IsSelfCaller s.now.schema f.now) }
    ensures err { IfErr result (λ e. spec.RefusesSelf s.now.schema f.now e) }
{
    match misplaces_self(alloc, f) {
        Err(NoMemory) => Err(SelfRefusal::NoMemory),
        Ok(true) => Err(SelfRefusal::Place),
        Ok(false) => check_rules(alloc, s, f),
    }
}
