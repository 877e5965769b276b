//! The law of the query template: the query of a tail form answers what the form's run answers.
#![tactic(auto)]

mod laws;

pub use laws::{forms_answer_as_the_query, the_query_answers_as_the_tail_form};
