//! Names in a function's query: each stands for the column or table that is meant, and the recursive table is named once.
#![tactic(auto)]

mod expressions;
mod trees;

pub use expressions::placed_expressions_are_clear;
pub use trees::{names_of_trees_are_clear, the_table_is_named_once};
