//! What the check of calls in a query says of the select that they stand in.
#![tactic(auto)]

mod laws;

pub use laws::accepted_calls_fit;
