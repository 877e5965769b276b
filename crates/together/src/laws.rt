//! What rows that take turns come to.

ghost use Rattle.together.specs.Laws.{
  EachEndIsThere,
  OneIsTheCase,
  RowsTakeTurns,
  SteppersTakeTurns,
  TablesAreJoined,
};

/// What the tables of rows that take turns come to, by what each row comes to alone: a class, no
/// answer at the bound, or rows.
pub fn rows_take_turns()
    ensures { RowsTakeTurns }
{}

/// While no row has faulted, a table is the join of what each row has alone.
pub fn tables_are_joined()
    ensures { TablesAreJoined }
{}

/// One of the three cases of `rows_take_turns` is there.
pub fn one_is_the_case()
    ensures { OneIsTheCase }
{}

/// The answers of starts that step together stand in the order of the table of their end, and then
/// in row order.
pub fn steppers_take_turns()
    ensures { SteppersTakeTurns }
{}

/// The answers table by table are those of the starts that are past their ends, each as often.
pub fn each_end_is_there()
    ensures { EachEndIsThere }
{}
