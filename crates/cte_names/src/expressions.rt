//! What holds of a function's expressions in a query.

ghost use Rattle.cte_names.specs.ExpressionLaws.{PlacedAreClear};

/// Each expression of a checked function, placed where its slots are columns of the query's own, has unambiguous names.
pub fn placed_expressions_are_clear()
    ensures { PlacedAreClear }
{}
