//! The check that an SSA form is that of a function's goto form, and what a yes promises.
#![tactic(auto)]

mod check;
mod edges;
mod laws;
mod maps;
mod name_stage;
mod names;
mod same;
mod terms;

pub use check::check_named;
pub use laws::{names_have_one_definition, naming_keeps_answers, phis_join_two_names};
pub use name_stage::NameStage;
