//! What a query comes to whose calls of a function were replaced by subqueries.

ghost use Rattle.inline_law.specs.Laws.{QueriesAnswerFilled, TypedArgumentsFit};
ghost use Rattle.inline_law.specs.Worked.{WorkedQueries};

/// What a query answers in which a subquery over one recursive table stands in the place of each call, where the query of one call is equivalent
/// to the function and no block that is reached fails: the rows of the query with the function's values, no answer while a call needs more turns, or
/// the class of FROM, WHERE, an argument, a call or the rest.
pub fn queries_answer_filled()
    ensures { QueriesAnswerFilled }
{}

/// Arguments of the types of the function's parameters have values of their sorts at each row of FROM and WHERE.
pub fn typed_arguments_fit()
    ensures { TypedArgumentsFit }
{}

/// Calls of collatz at each row of a table: rows in order, a turn or an iteration too few, two calls with different arguments, a fault behind the
/// calls and one in an argument.
pub fn worked_queries_hold()
    ensures { WorkedQueries }
{}
