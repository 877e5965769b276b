//! From a checked function to the text of a query that runs several turns in an iteration, which is read again and judged.
#![tactic(auto)]

mod trees;
mod unroller;
mod written;

pub use unroller::{Unrolled, unroll};
