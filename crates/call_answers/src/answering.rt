//! What was built is checked like any other function, and answers as what it was built of.

ghost use Rattle.std.specs.Prelude.{IfOk};
ghost use Rattle.away_trees.specs.Limits.{KeepsLimits};
ghost use Rattle.away_types.specs.CheckedFunctions.{IsChecked};
ghost use Rattle.call_answers.specs.Laws.{AnswersLikeProgram, AnswersLikeSelfCaller};

use crate::expanded::has_calls_expanded;
use crate::laws::{expansions_answer_as_programs, untailings_answer_as_self_callers};
use crate::related::has_self_calls_as_turns;
use away_trees::Function;
use away_types::{CheckedFunction, CheckedSchema, check_function};
use away_values::NoMemory;
use std::alloc::Global;

fn checked(alloc: Global, s: &CheckedSchema, written: Function) -> Result<CheckedFunction, NoMemory>
    requires { KeepsLimits written }
    ensures { IfOk result (λ c. IsChecked s.now.schema written c.function c.slots) }
{
    match check_function(alloc, s, written) {
        Ok(c) => Ok(c),
        Err(_) => Err(NoMemory),
    }
}

/// A written function in which the calls of a program are expanded, as it is checked. Where it breaks a rule, or its tree isn't
/// the program's, there is want of memory.
pub fn answering_as_program(
    alloc: Global,
    s: &CheckedSchema,
    fs: &[Function],
    written: Function,
) -> Result<CheckedFunction, NoMemory>
    requires { KeepsLimits written }
    ensures { IfOk result (λ c.
        AnswersLikeProgram s.now.schema fs.now written c.function c.slots) }
{
    expansions_answer_as_programs();
    let c = checked(alloc, s, written)?;
    if has_calls_expanded(alloc, &s.schema, fs, &c)? {
        Ok(c)
    } else {
        Err(NoMemory)
    }
}

/// A written function in which self calls are turns of a loop, as it is checked. Where it breaks a rule, or its tree isn't the
/// function's, there is want of memory.
pub fn answering_as_self_caller(
    alloc: Global,
    s: &CheckedSchema,
    f: &Function,
    written: Function,
) -> Result<CheckedFunction, NoMemory>
    requires { KeepsLimits written }
    ensures { IfOk result (λ c.
        AnswersLikeSelfCaller s.now.schema f.now written c.function c.slots) }
{
    untailings_answer_as_self_callers();
    let c = checked(alloc, s, written)?;
    if has_self_calls_as_turns(alloc, &s.schema, f, &c)? {
        Ok(c)
    } else {
        Err(NoMemory)
    }
}
