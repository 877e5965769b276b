//! One query for many calls of a function: each row of a table is a call.
#![tactic(auto)]

mod batches;
mod tables;
mod trees;
mod written;

pub use batches::{BatchRefusal, batch};
pub use written::Batch;
