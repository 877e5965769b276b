//! What is known of a checked function: which slots are in sight at its expressions, which slots it has, and what it reads.
#![tactic(auto)]

mod reads;
mod sight;
mod slots;

pub use reads::{
    checked_functions_read_set_slots, checked_functions_read_their_tables,
    lowered_forms_raise_classes,
};
pub use sight::slots_are_in_sight;
pub use slots::checked_functions_own_their_slots;
