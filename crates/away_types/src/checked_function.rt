//! What the check of a function answers.

ghost use Rattle.away_types.specs.CheckedFunctions.{IsCheckedOfSome};

use crate::slots::Slot;
use away_trees::Function;
use sqlite_items::Items;

/// A function whose names are resolved and whose numbers are converted to the types of their places, with its slots: parameters,
/// then declarations and FOR variables in the order of the text, then the counter, the last value and the step of each FOR, then
/// one for each target of INTO.
#[derive(Drop)]
pub struct CheckedFunction {
    pub function: Function,
    pub slots: Items<Slot>,
    ghost checked: { ∥ IsCheckedOfSome function slots ∥₁ },
}
