//! What the query of a tail form answers.

ghost use Rattle.cte_law.specs.QueryAnswers.{QueryAnswersAsTailForm, QueryAnswersAsSsa};

/// The query of a tail form answers what the run of the form answers, one iteration later. It has no answer in fewer iterations than heads were
/// visited, less one. This holds over all tables and at all arguments.
pub fn the_query_answers_as_the_tail_form()
    ensures { QueryAnswersAsTailForm }
{}

/// The same of the SSA form, where the normal form and the tail form are those of it.
pub fn forms_answer_as_the_query()
    ensures { QueryAnswersAsSsa }
{}
