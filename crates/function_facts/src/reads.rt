//! What the expressions of a checked function read, and what its forms raise.

ghost use Rattle.function_facts.specs.OverTables.{ReadTheirTables};
ghost use Rattle.function_facts.specs.Raising.{RaiseClasses};
ghost use Rattle.function_facts.specs.SetSlots.{AnswerFromParameters, ReadInSight};

/// Each expression of a checked function reads slots and the tables of its schema alone, and no aggregate stands in it outside a select's list.
pub fn checked_functions_read_their_tables()
    ensures { ReadTheirTables }
{}

/// Each block of a function's goto form that raises something raises a class.
pub fn lowered_forms_raise_classes()
    ensures { RaiseClasses }
{}

/// A checked function reads slots in sight alone: its parameters, variables declared before in the blocks around, and variables of the FORs around,
/// each of which has been set by then. So its body answers the same whatever stands in the slots behind its parameters when it begins.
pub fn checked_functions_read_set_slots()
    ensures reads { ReadInSight }
    ensures answers { AnswerFromParameters }
{}
