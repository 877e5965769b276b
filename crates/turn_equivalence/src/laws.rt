//! What a query that runs several turns in one iteration answers.

ghost use Rattle.std.specs.Prelude.{length, ◌<◌, ◌^◌};
ghost use Rattle.away_trees.specs.declared.queries.Query.{Query};
ghost use Rattle.away_trees.specs.declared.schemas.Schema.{Schema};
ghost use Rattle.away_trees.specs.declared.statements.Function.{Function};
ghost use Rattle.away_types.specs.CheckedFunctions.{IsChecked};
ghost use Rattle.block_forms.specs.declared.forms.Goto.{Goto};
ghost use Rattle.block_forms.specs.declared.forms.Ssa.{Ssa};
ghost use Rattle.call_forms.specs.declared.forms.Anf.{Anf};
ghost use Rattle.call_forms.specs.declared.forms.Tail.{Tail};
ghost use Rattle.turn_equivalence.specs.InTurns.{ByHeads, Choices, FormsInTurns, EquivalentInTurns};
ghost use Rattle.turn_equivalence.specs.Worked.{WorkedTurns};

use away_types::CheckedFunction;
use goto_law::forms_of_checked_functions_keep_answers;
use ssa_check::naming_keeps_answers;

/// Where a function is checked under a schema, and four forms stand between it and a query of so many turns in an iteration, the query is
/// equivalent to the function.
pub fn forms_in_turns_are_equivalent(f: &CheckedFunction)
    ensures { (s : Schema) (written : Function) (g : Goto) (z : Ssa) (a : Anf) (r : Tail)
        (c : Choices) (q : Query) → IsChecked s written f.now.function f.now.slots
        → length s.tables < 2 ^ 64 → 0 < c.turns
        → FormsInTurns s f.now.function f.now.slots g z a r c q
        → EquivalentInTurns s f.now.function f.now.slots c.turns q }
{
    forms_of_checked_functions_keep_answers(f);
    naming_keeps_answers();
}

/// Where each call is of a head, the query has its answer in few iterations: so many times the turns of an iteration are at least as many as the
/// heads that the run visits.
pub fn queries_of_turns_answer_by_heads()
    ensures { ByHeads }
{}

/// Collatz in turns: its labels are unfolded, its turn has no step, and its queries answer.
pub fn worked_turns_are_computed()
    ensures { WorkedTurns }
{}
