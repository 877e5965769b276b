//! The interpreter: runs a function statement by statement, over a stack of places.
#![tactic(auto)]

mod assignments;
mod counting;
mod enter;
mod frames;
mod function;
mod into;
mod layout;
mod loops;
mod machine;
mod names;
mod setting;
mod single_statements;

pub use function::run_function;
