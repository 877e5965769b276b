//! What holds of a function's expressions as a query has them.

ghost use Rattle.cte_prints.specs.ExpressionLaws.{ExpressionsAreDerivable, FileExpressionsAreDerivable, ReadNamesAreWritable};

/// The names of an expression that is read from writable terminals can be written.
pub fn names_that_are_read_are_writable()
    ensures { ReadNamesAreWritable }
{}

/// Each expression of a checked function within the limits can be derived where a query has it, if the function's were read from terminals that can
/// be written.
pub fn expressions_in_a_query_are_derivable()
    ensures { ExpressionsAreDerivable }
{}

/// So can each expression of a function that a file reads as.
pub fn expressions_of_a_file_are_derivable()
    ensures { FileExpressionsAreDerivable }
{}
