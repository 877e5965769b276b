//! The law of lowering: the goto form of a function answers what the function answers.

ghost use Rattle.block_forms.specs.Lowered.{Lowered};
ghost use Rattle.block_forms.specs.declared.forms.Goto.{Goto};
ghost use Rattle.goto_law.specs.Law.{KeepsAnswers, OnlyItsAnswers, Waits, Keeps};

use away_types::CheckedFunction;
use function_facts::checked_functions_own_their_slots;
use select_into::{entries_ask_the_select, entries_read_as_the_select};

/// The goto form of a function has the function's answer within the function's weight for each turn and one more. Where the function needs more
/// turns, that run has more heads than there are turns, and a run of as many visits as turns has no answer. What a run of the form answers, the
/// function answers within as many turns.
pub fn lowering_keeps_answers()
    ensures answers { KeepsAnswers }
    ensures only { OnlyItsAnswers }
    ensures waits { Waits }
{
    entries_ask_the_select();
    entries_read_as_the_select();
}

/// The same of each goto form of a checked function, of whose slots nothing is supposed.
pub fn forms_of_checked_functions_keep_answers(f: &CheckedFunction)
    ensures { (g : Goto) → Lowered f.now.function f.now.slots g
        → Keeps f.now.function f.now.slots g }
{
    checked_functions_own_their_slots(f);
    entries_ask_the_select();
    entries_read_as_the_select();
}
