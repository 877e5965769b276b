//! Which slots are in sight at the expressions of a function.

ghost use Rattle.function_facts.specs.InSight.{AllInSight};

use away_types::CheckedFunction;

/// A slot that an expression of a checked function reads is a parameter, or a variable declared before it in a block
/// around it, or the variable of a FOR around it.
pub fn slots_are_in_sight(f: &CheckedFunction)
    ensures { AllInSight f.now.function }
{}
