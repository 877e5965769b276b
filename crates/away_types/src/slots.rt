//! The slots of a function.

use away_values::Ty;
use sqlite_items::Items;

/// A variable of a function, by its type and whether it is NOT NULL.
/// NULL for a variable that is NOT NULL fails with 22004, null_value_not_allowed. The manual: 43.3, Declarations.
#[derive(Clone, Copy, Debug, PartialEq, Eq)]
pub struct Slot {
    pub ty: Ty,
    pub not_null: bool,
}

/// The variables so far, the hidden ones of each FOR, and those of the targets of each INTO.
#[derive(Drop)]
pub struct Slots {
    pub shown: Items<Slot>,
    pub hidden: Items<Slot>,
    pub picked: Items<Slot>,
}
