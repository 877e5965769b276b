//! Worked examples of printed functions.

ghost use Rattle.function_printer.specs.Worked.{CasesAreClosed, FirstFree, FunctionsPrint};

/// Functions with statements of every kind.
pub fn functions_print()
    ensures { FunctionsPrint }
{}

/// A CASE that would end the expression stands in parentheses.
pub fn a_case_before_loop_is_closed()
    ensures { CasesAreClosed }
{}

/// The first mark that stands nowhere in a text.
pub fn tags_are_the_first_free()
    ensures { FirstFree }
{}
