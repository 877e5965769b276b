//! That a query which runs several turns in an iteration is equivalent to the function, where the forms between them belong together.
#![tactic(auto)]

mod laws;

pub use laws::{
    forms_in_turns_are_equivalent, queries_of_turns_answer_by_heads, worked_turns_are_computed,
};
