//! What the entries of a SELECT INTO mean, and what they read.

ghost use Rattle.select_into.specs.Examples.{WorkedEntries};
ghost use Rattle.select_into.specs.Laws.{AskTheSelect, HaveItsSlots, ReadAsTheSelect, KeepsRows};

/// Where the select reads slots and tables alone, the tests of STRICT say whether it has no row and whether it has two or more, and each pick has the
/// first row's value at its place, or NULL. A class of the select is that of each. Types for literal NULLs change no row.
pub fn entries_ask_the_select()
    ensures asked { AskTheSelect }
    ensures typed { KeepsRows }
{}

/// Each entry reads the slots that the select reads, in their order, and where that reads slots and tables alone, all that it reads.
pub fn entries_read_as_the_select()
    ensures slots { HaveItsSlots }
    ensures reads { ReadAsTheSelect }
{}

/// The entries of a worked SELECT INTO, and their values over tables with no row, one and two.
pub fn entries_are_computed()
    ensures { WorkedEntries }
{}
