//! Laws of what functions answer.

ghost use Rattle.plsql_meaning.specs.Laws.{
  AnswersStay,
  CountsDown,
  CountsUp,
  MoreBefore,
  NoShape,
  NoShapeOfQuery,
  OneReturnAnswers,
  OneReturnEquivalent,
};

/// What a function answers within so many turns, other than that it needs more, it answers within every greater number of turns. Where it needs more,
/// it needs more than every smaller number.
pub fn answers_of_functions_stay()
    ensures stays { AnswersStay }
    ensures more { MoreBefore }
{}

/// A function answers a value, a fault or that it needs more, and so does every query that is equivalent to it.
pub fn functions_have_no_shape()
    ensures function { NoShape }
    ensures query { NoShapeOfQuery }
{}

/// A function that is one RETURN answers the value of its expression, so a query is equivalent to it where it has the answers of that RETURN.
pub fn one_return_is_a_function()
    ensures answer { OneReturnAnswers }
    ensures equivalent { OneReturnEquivalent }
{}

/// Between integers FOR counts by its step while the next counter is an integer. Where it isn't, the loop ends without a fault.
pub fn counters_end_without_a_fault()
    ensures up { CountsUp }
    ensures down { CountsDown }
{}
