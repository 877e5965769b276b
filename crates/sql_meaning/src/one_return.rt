//! The first theorem of the compiler.

ghost use Rattle.sql_meaning.specs.OneReturn.{OneReturn};

/// A query that is the template of a RETURN, but for names, is equivalent to the function that returns it: for each expression of a function,
/// subqueries included, over tables and arguments that fit.
pub fn one_return_is_equivalent()
    ensures { OneReturn }
{}
