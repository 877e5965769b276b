//! What a function's statements are built over.

ghost use Rattle.std.specs.Prelude.{◌≡◌, slice_get};
ghost use Rattle.std.specs.Option.{option_copied};

use away_types::Slot;
use block_forms::Numbers;

/// The first numbers of the fixed list and of hidden slots, and the slots of the function.
#[derive(Drop)]
pub(crate) struct Setting<'a> {
    pub(crate) numbers: Numbers,
    pub(crate) slots: &'a [Slot],
}

impl<'a> Setting<'a> {
    pub(crate) fn slot(&self, slot: u32) -> Option<&Slot>
        ensures { option_copied result ≡ slice_get self.now.slots.now slot }
    {
        self.slots.get(slot as usize)
    }
}
