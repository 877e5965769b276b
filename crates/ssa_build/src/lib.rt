//! The SSA form of a goto form: names for slots, with φs where they join several names.
#![tactic(auto)]

mod build;
mod full;
mod joins;
mod laws;
mod layout;
mod names;
mod numbers;
mod output;
mod phis;
mod places;
mod renames;
mod writing;

pub use build::build_ssa;
pub use laws::names_are_few;
