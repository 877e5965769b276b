//! That a query is equivalent to a function where the forms between them belong together.

ghost use Rattle.std.specs.Prelude.{length, ◌<◌, ◌^◌};
ghost use Rattle.away_trees.specs.declared.queries.Query.{Query};
ghost use Rattle.away_trees.specs.declared.schemas.Schema.{Schema};
ghost use Rattle.away_trees.specs.declared.statements.Function.{Function};
ghost use Rattle.away_types.specs.CheckedFunctions.{IsChecked};
ghost use Rattle.call_forms.specs.declared.forms.Forms.{Forms};
ghost use Rattle.equivalence.specs.Accepted.{AcceptedForms, EquivalentAtAll, EquivalentWith};
ghost use Rattle.equivalence.specs.Worked.{SignOfIsAccepted};

use away_types::CheckedFunction;
use block_forms::worked_forms_are_lowered;
use call_forms::worked_calls_are_related;
use cte_law::forms_answer_as_the_query;
use goto_law::forms_of_checked_functions_keep_answers;
use ssa_check::naming_keeps_answers;

/// Where a function is checked under a schema, and the six relations hold of it, four forms and a query, the query is equivalent to the function.
pub fn accepted_forms_are_equivalent(f: &CheckedFunction)
    ensures { (s : Schema) (written : Function) (forms : Forms) (q : Query)
        → IsChecked s written f.now.function f.now.slots → length s.tables < 2 ^ 64
        → AcceptedForms s f.now.function f.now.slots forms q
        → EquivalentWith s f.now.function f.now.slots q }
{
    forms_of_checked_functions_keep_answers(f);
    naming_keeps_answers();
    forms_answer_as_the_query();
}

/// The same at as many arguments as there are parameters, whatever these are.
pub fn accepted_forms_are_equivalent_at_all(f: &CheckedFunction)
    ensures { (s : Schema) (written : Function) (forms : Forms) (q : Query)
        → IsChecked s written f.now.function f.now.slots → length s.tables < 2 ^ 64
        → AcceptedForms s f.now.function f.now.slots forms q
        → EquivalentAtAll s f.now.function f.now.slots q }
{
    forms_of_checked_functions_keep_answers(f);
    naming_keeps_answers();
    forms_answer_as_the_query();
}

/// The six relations hold of the forms of a worked function and its query.
pub fn worked_forms_are_accepted()
    ensures { SignOfIsAccepted }
{
    worked_forms_are_lowered();
    worked_calls_are_related();
}
