//! The law of a query whose rows carry values: many calls in one recursive table.
#![tactic(auto)]

mod laws;

pub use laws::{
    batches_answer, batches_answer_as_functions, carried_tables_are_joined, each_answer_is_there,
    one_is_the_case, worked_answers_hold, worked_batches_hold,
};
