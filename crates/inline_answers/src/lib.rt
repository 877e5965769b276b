//! The law of the query that is written for calls of a function.
#![tactic(auto)]

mod laws;

pub use laws::inlined_queries_answer;
