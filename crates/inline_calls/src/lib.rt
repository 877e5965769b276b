//! A query in which the calls of a function are subqueries over one recursive table.
#![tactic(auto)]

mod check;
mod examples;
mod fails;
mod faults;
mod forms;
mod inlining;
mod judged;
mod leaves;
mod moving;
mod moving_queries;
mod parting;
mod refusals;
mod resolving;
mod starts;
mod tree;

pub use check::check_calls;
pub use examples::{forms_are_told, places_are_told, rules_are_told};
pub use faults::{faults_of, faults_tell_inline};
pub use forms::PartedSelect;
pub use inlining::{Inlined, inline};
pub use refusals::{CallsRefusal, InlineRefusal};
