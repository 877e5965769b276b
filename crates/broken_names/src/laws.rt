//! What holds of the places of culprits.

ghost use Rattle.broken_names.specs.NameTokens.{CulpritsAreTokens};

/// Where a culprit is found, a token of the file begins.
pub fn each_culprit_stands_at_a_token()
    ensures { CulpritsAreTokens }
{}
