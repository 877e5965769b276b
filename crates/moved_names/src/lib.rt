//! Trees in which variables have other names, and names that stand in no file.
#![tactic(auto)]

pub mod finding;
pub mod finding_queries;
mod fresh;
pub mod renaming;
pub mod renaming_queries;
pub mod sight;
pub mod sought;
pub mod words;

pub use fresh::fresh_names;
