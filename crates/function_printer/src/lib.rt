//! Functions as text.
#![tactic(auto)]

mod closed;
mod headers;
mod laws;
mod parts;
mod statements;
mod tags;
mod texts;
mod worked;

pub use laws::{
    closed_expressions_read_back, functions_that_were_read_print_back, marks_are_free,
    parts_are_the_query, printed_bodies_read, printed_expressions_read, texts_stand_in_texts,
};
pub use parts::{add_clauses, add_condition, add_decls, add_kind, add_list};
pub use texts::{print_expr, print_function, print_parts};
pub use worked::{a_case_before_loop_is_closed, functions_print, tags_are_the_first_free};
