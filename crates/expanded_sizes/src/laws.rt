//! What holds of the sizes of expanded functions.

ghost use Rattle.expanded_sizes.specs.Laws as spec;

/// The nodes, variables and FOR loops of a function in which calls are expanded are the sums of those of its parts.
pub fn sums_are_counts()
    ensures { spec.SumsAreCounts }
{}

/// What a printed expression closes is what it opens.
pub fn expressions_are_balanced()
    ensures { spec.ExpressionsAreBalanced }
{}

/// An expression with other names nests as deep.
pub fn names_are_of_no_depth()
    ensures { spec.NamesDontNest }
{}

/// The nesting of a function in which calls are expanded is found by its parts.
pub fn bodies_nest_by_parts()
    ensures { spec.NestsByParts }
{}

/// The printed body of a function nests as deep as its parts say.
pub fn printed_bodies_nest()
    ensures { spec.BodiesNest }
{}

/// The tokens of terminals nest as deep as the terminals.
pub fn tokens_nest()
    ensures { spec.TokensNest }
{}

/// The nesting that is told is that of the tokens of the printed body in which calls are expanded.
pub fn nesting_is_of_tokens()
    ensures { spec.NestingIsOfTokens }
{}
