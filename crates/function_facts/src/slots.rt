//! Which slots a checked function has.

ghost use Rattle.block_forms.specs.OwnSlots.{OwnSlots};

use away_types::CheckedFunction;

/// The slots of a checked function are its parameters, declarations and FOR variables in the order of the text, and
/// behind them three for each FOR and one for each target of a SELECT INTO, which nothing in the text reads or sets.
pub fn checked_functions_own_their_slots(f: &CheckedFunction)
    ensures { OwnSlots f.now.function f.now.slots }
{}
