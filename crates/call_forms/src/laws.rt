//! What is proved of all runs with calls.

ghost use Rattle.call_forms.specs.Laws.{AnfRunsStay, TailRunsStay, AnfHeads, TailHeads};
ghost use Rattle.call_forms.specs.Worked.{WorkedCalls, WorkedCallRuns, WorkedQueries};
ghost use Rattle.call_forms.specs.WorkedUses.{WorkedUses};

/// A run that is over stays as it is, and visits at most one head a visit.
pub fn calls_that_end_stay()
    ensures anf { AnfRunsStay }
    ensures tail { TailRunsStay }
    ensures anf_heads { AnfHeads }
    ensures tail_heads { TailHeads }
{}

/// The normal form and two tail forms of a function with one test, and their runs and queries.
pub fn worked_calls_are_related()
    ensures forms { WorkedCalls }
    ensures runs { WorkedCallRuns }
    ensures queries { WorkedQueries }
{}

/// A parameter that a loop hands on to itself alone isn't useful, nor is one that is set before it is read.
pub fn unneeded_parameters_are_told()
    ensures { WorkedUses }
{}
