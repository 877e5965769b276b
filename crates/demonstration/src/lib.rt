//! A demonstration: the case of a number is compiled, and its function and its query are both run.
#![tactic(auto)]

mod compiled;
mod summary;
mod trial;

pub use summary::{Runs, Summary, summary_of};
