//! From a checked function to the text of its query, with the forms between them.
#![tactic(auto)]

mod compiler;
mod forms;
mod lengths;

pub use compiler::{Compiled, compile};
pub use lengths::normal_forms_are_short;
