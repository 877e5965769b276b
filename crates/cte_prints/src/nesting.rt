//! What holds of the nesting of printed queries.

ghost use Rattle.cte_prints.specs.NestingLaws.{TokensChangeAsTerminals, PrintedNest, DerivedTextsRead, DerivableTextsRead};

/// Tokens do to the count what the terminals that they are do.
pub fn tokens_change_as_their_terminals()
    ensures { TokensChangeAsTerminals }
{}

/// A query that terminals derive with a depth of brackets prints as terminals that nest no deeper.
pub fn printed_terminals_nest_within_the_depth()
    ensures { PrintedNest }
{}

/// The text of a query that writable terminals say, in few enough brackets, may be read, and reads as the query.
pub fn derived_texts_read()
    ensures { DerivedTextsRead }
{}

/// The text of a query that can be derived in few enough brackets may be read, and reads as the query.
pub fn derivable_texts_read()
    ensures { DerivableTextsRead }
{}
