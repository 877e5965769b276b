//! SELECT INTO as expressions: its select stands as a subquery in the FROM of another select, which counts its rows or picks a value of the first.
#![tactic(auto)]

mod entries;
mod laws;
mod picked;
mod slots;
mod wrapping;

pub use entries::push_entries;
pub use laws::{entries_are_computed, entries_ask_the_select, entries_read_as_the_select};
pub use slots::select_slots;
