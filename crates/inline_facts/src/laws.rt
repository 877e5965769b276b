//! What the check of calls in a query says of the select that they stand in.

ghost use Rattle.inline_facts.specs.Facts.{CallsFit};

/// Calls of a function that the check accepts in a query that was read are as the law of such calls asks.
pub fn accepted_calls_fit()
    ensures { CallsFit }
{}
