//! That the text of a function's query reads as the query again.
#![tactic(auto)]

mod expressions;
mod functions;
mod nesting;
mod queries;
mod texts;
mod trees;

pub use expressions::{
    expressions_in_a_query_are_derivable, expressions_of_a_file_are_derivable,
    names_that_are_read_are_writable,
};
pub use functions::sources_are_read;
pub use nesting::{
    derivable_texts_read, derived_texts_read, printed_terminals_nest_within_the_depth,
    tokens_change_as_their_terminals,
};
pub use queries::queries_can_be_written;
pub use texts::trees_read_again;
pub use trees::{
    derivations_may_be_deeper, readings_may_be_deeper, the_like_of_what_is_read_is_derivable,
    what_is_derived_with_a_depth_is_read, what_is_read_with_a_depth_is_read,
};
