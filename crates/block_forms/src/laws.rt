//! What is proved of all runs, and of the fixed list.

ghost use Rattle.block_forms.specs.Worked.{WorkedForms, WorkedTable, WorkedRuns};
ghost use Rattle.block_forms.specs.Laws.{GotoRunsStay, SsaRunsStay, GotoHeads, SsaHeads, FixedListStands};

/// A run that is over stays as it is, and visits at most one head a visit.
pub fn runs_that_end_stay()
    ensures goto { GotoRunsStay }
    ensures ssa { SsaRunsStay }
    ensures goto_heads { GotoHeads }
    ensures ssa_heads { SsaHeads }
{}

/// Five functions and their forms, expressions of two, and runs of two.
pub fn worked_forms_are_lowered()
    ensures forms { WorkedForms }
    ensures table { WorkedTable }
    ensures runs { WorkedRuns }
{}

/// Each entry of the fixed list stands at its position, with its expression over its slots.
pub fn the_fixed_list_stands()
    ensures { FixedListStands }
{}
