//! What the types of a compiled query are.

ghost use Rattle.cte_types.specs.TreeLaws.{ExpressionsHaveNoParameters, PlacingKeepsKinds, PlacingKeepsParameters, PlacingKeepsUses};
ghost use Rattle.cte_types.specs.Whole.{TreeBreaksNoRule, TreeHasTypes};

/// An expression of a function has in a query, where its slots are columns, the type that is asked of it. It uses aggregates and has parameters as in
/// the function.
pub fn placing_keeps_types()
    ensures kinds { PlacingKeepsKinds }
    ensures uses { PlacingKeepsUses }
    ensures parameters { PlacingKeepsParameters }
{}

/// The expressions of a checked function, and the fixed ones behind them, have no parameters.
pub fn expressions_have_no_parameters()
    ensures { ExpressionsHaveNoParameters }
{}

/// The query of a checked function's forms has types, with the marks that its operations have. Read with its names as it stands, it breaks no rule
/// of types, aggregates, recursion and parameters.
pub fn queries_break_no_rule_of_types()
    ensures typed { TreeHasTypes }
    ensures unbroken { TreeBreaksNoRule }
{}
