//! The check that a query is that of a tail form.
#![tactic(auto)]

mod body;
mod check;
mod labels;
mod steps;
mod whole;

pub use check::check_templated;
