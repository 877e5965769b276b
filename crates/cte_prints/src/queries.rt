//! What holds of how a function's query is written.

ghost use Rattle.cte_prints.specs.QueryLaws.{TreeIsDerivable};

/// The query of a function's forms, with its names, can be written with 216 brackets one inside another, where the function's expressions can with
/// 196.
pub fn queries_can_be_written()
    ensures { TreeIsDerivable }
{}
