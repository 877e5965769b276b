//! Whether functions that call one another are a program, and why not.
#![tactic(auto)]

mod names;
mod program;
mod reaching;
mod refusals;

pub use program::check_program;
pub use refusals::ProgramRefusal;
