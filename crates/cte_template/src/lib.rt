//! The query of a function, from its tail form.
#![tactic(auto)]

mod body;
mod draft;
mod laws;
mod places;
mod rows;
mod starts;
mod template;
mod terms;
mod writer;

pub use laws::the_tree_is_the_templates;
pub use starts::{calls_of_rows, ended_calls};
pub use template::{carry, template_tree};
