//! The normal form of an SSA form: blocks that call one another, with parameters for the names that reach something read.
#![tactic(auto)]

mod build;
mod calls;
mod exits;

pub use build::to_calls;
