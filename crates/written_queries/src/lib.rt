//! The text of a query that was built, and that it reads as this query again.
#![tactic(auto)]

mod same;
mod written;

pub use same::same_tree;
pub use written::{is_tree, text_of};
