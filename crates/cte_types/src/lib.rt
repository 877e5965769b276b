//! Types in a function's forms and in its query, which breaks no rule of types.
#![tactic(auto)]

mod forms;
mod trees;

pub use forms::{calls_of_forms_keep_types, terms_of_forms_have_types};
pub use trees::{
    expressions_have_no_parameters, placing_keeps_types, queries_break_no_rule_of_types,
};
