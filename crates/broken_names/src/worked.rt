//! Expressions with their culprits, worked out.

ghost use Rattle.broken_names.specs.WorkedCulprits.{HaveCulprits};

/// A name that stands for nothing in the condition of a subquery, one that is a column and a variable, a column behind the item that
/// it isn't one of, which a LATERAL subquery sees, and a table that isn't known.
pub fn worked_expressions_have_culprits()
    ensures { HaveCulprits }
{}
