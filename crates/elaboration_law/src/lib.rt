//! The laws of the marks of operations and of the casts of numbers: laws alone.
#![tactic(auto)]

mod examples;
mod laws;

pub use examples::{statements_get_their_casts, trees_get_their_marks};
pub use laws::{
    conversions_give_the_type, conversions_keep_statements, integers_have_their_kinds,
    marked_trees_have_the_types_found, marks_are_found_again, marks_change_no_other_thing,
    small_operations_test_their_range,
};
