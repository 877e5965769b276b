//! Which operations of a tree are those of integers, and where a number is converted to the other type of numbers.
#![tactic(auto)]

pub mod converting;
pub mod elaborating;
pub mod elaborating_queries;
pub mod into;
pub mod made;
pub mod marks;
mod parts;
pub mod statements;
mod steps;
pub mod whole;
