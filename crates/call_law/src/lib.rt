//! The laws of the forms with calls: a normal form has the run of its SSA form, and a tail form keeps it.
#![tactic(auto)]

mod runs;
mod terms;

pub use runs::{the_normal_form_has_the_run, the_tail_form_keeps_the_run};
pub use terms::{labels_have_trees, terms_of_forms_fit};
