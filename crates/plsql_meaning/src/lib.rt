//! What a statement does, what a function answers, and when a query is equivalent to a function.
#![tactic(auto)]

mod examples;
mod laws;
mod sight;

pub use examples::{
    a_condition_is_taken_where_it_is_true, a_function_ends_as_its_body_does,
    blocks_have_their_variables, for_has_its_own_counter, select_into_sets_its_targets,
    turns_are_counted_over_all_loops,
};
pub use laws::{
    answers_of_functions_stay, counters_end_without_a_fault, functions_have_no_shape,
    one_return_is_a_function,
};
pub use sight::{runs_read_slots_in_sight, sights_are_computed};
