//! The laws of the goto form: it answers what its function answers, and what it gives the building of the SSA form.
#![tactic(auto)]

mod lowered_forms;
mod lowering;

pub use lowered_forms::{
    forms_lead_to_their_blocks, names_of_forms_are_few, only_parameters_are_live_at_the_entry,
    parameters_have_slots, worked_entries_are_judged,
};
pub use lowering::{forms_of_checked_functions_keep_answers, lowering_keeps_answers};
