//! What holds of the expressions of a function's file.

ghost use Rattle.cte_prints.specs.FunctionLaws.{SourcesAreRead};

/// Each expression of a function that a file reads as is read from writable terminals, with no more brackets one inside another than the body may
/// nest. So is the select of a SELECT INTO, in brackets.
pub fn sources_are_read()
    ensures { SourcesAreRead }
{}
