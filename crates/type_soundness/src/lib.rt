//! What the types of expressions, queries and functions say of the values that these give.
#![tactic(auto)]

mod answers;
mod values;

pub use answers::{
    a_checked_query_answers_its_type, a_worked_query_answers_a_number,
    expressions_of_a_checked_function_have_their_types, worked_types_are_computed,
};
pub use values::{a_value_has_its_type, rows_have_their_types, what_is_of_a_type};
