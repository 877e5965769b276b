//! The law of a query in which a subquery stands in the place of each call of a function.
#![tactic(auto)]

mod laws;

pub use laws::{queries_answer_filled, typed_arguments_fit, worked_queries_hold};
