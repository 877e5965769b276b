//! What holds of the texts of compiled queries.

ghost use Rattle.cte_prints.specs.Texts.{TreesReadAgain};

use crate::queries::queries_can_be_written;
use cte_types::queries_break_no_rule_of_types;
use elaboration_law::{marks_are_found_again, marks_change_no_other_thing};

/// The text of a function's query reads as the query again, where the function and its schema were read from texts.
pub fn trees_read_again()
    ensures { TreesReadAgain }
{
    marks_change_no_other_thing();
    marks_are_found_again();
    queries_break_no_rule_of_types();
    queries_can_be_written();
}
