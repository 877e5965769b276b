//! What a query comes to in whose recursive table each row carries values.

ghost use Rattle.batch_law.specs.Laws.{
  BatchesAnswer,
  BatchesAnswerAsFunctions,
  CarriedTablesAreJoined,
  EachAnswerIsThere,
  OneIsTheCase,
};
ghost use Rattle.batch_law.specs.Worked.{WorkedAnswers, WorkedBatches};

/// While no call has faulted before, a working table is the join of those of each call alone, with
/// the values that its row carries.
pub fn carried_tables_are_joined()
    ensures { CarriedTablesAreJoined }
{}

/// What a query over the rows of a table answers at each bound, by what the query of each row's
/// call answers: the class of the call that meets a fault of the engine first, no answer while a
/// call has none, or a row for each call.
pub fn batches_answer()
    ensures { BatchesAnswer }
{}

/// What a query over the rows of a table says of the function at each row, where the query of one
/// call is equivalent to the function: the function's values and faults, the class of one of its
/// faults, or that some call needs more turns.
pub fn batches_answer_as_functions()
    ensures { BatchesAnswerAsFunctions }
{}

/// The rows of a batch are those of the answers of its calls: each call that has a value or a class
/// at the bound has one row.
pub fn each_answer_is_there()
    ensures { EachAnswerIsThere }
{}

/// Collatz over four calls: the order, a tie, NULL last; no answer at 4 and the rows at 5; an empty
/// table; a call that overflows.
pub fn worked_batches_hold()
    ensures { WorkedBatches }
{}

/// One of the three cases of `batches_answer` is there at each bound.
pub fn one_is_the_case()
    ensures { OneIsTheCase }
{}

/// Collatz at four calls: rows that tell its answers, and rows that don't, by their order or since
/// a turn is missing; a table whose rows are calls.
pub fn worked_answers_hold()
    ensures { WorkedAnswers }
{}
