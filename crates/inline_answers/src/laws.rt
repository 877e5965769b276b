//! What the query answers that is written for calls of a function.

ghost use Rattle.inline_answers.specs.Answering.{InlinedQueriesAnswer};

use away_types::CheckedFunction;
use equivalence::accepted_forms_are_equivalent_at_all;
use inline_facts::accepted_calls_fit;
use inline_law::queries_answer_filled;

/// The query that is written for a query that was read answers as this does where each call's value is the function's.
pub fn inlined_queries_answer(f: &CheckedFunction)
    ensures { InlinedQueriesAnswer f.now.function f.now.slots }
{
    accepted_forms_are_equivalent_at_all(f);
    accepted_calls_fit();
    queries_answer_filled();
}
