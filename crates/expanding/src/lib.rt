//! The text of the function that a program becomes where its calls are expanded.
#![tactic(auto)]

mod written;

pub use written::{Expanded, expand};
