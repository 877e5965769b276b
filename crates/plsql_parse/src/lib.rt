//! Functions in PL/pgSQL: from text to trees.
#![tactic(auto)]

mod attributes;
pub mod bodies;
mod clauses;
pub mod counts;
pub mod declarations;
pub mod expressions;
pub mod headers;
mod laws;
pub mod lookahead;
pub mod loop_kinds;
pub mod outside;
pub mod read;
mod select_into;
mod simple_statements;
pub mod statements;
mod words_and_strings;
mod worked_functions;

pub use laws::{
    a_condition_ends_with_no_end, a_file_is_one_function, a_file_reads_as_the_plans_give,
    a_range_ends_with_no_end, plans_of_sql_give_the_same, terminals_have_one_tree,
    what_a_plan_gives_is_read, what_is_not_given_is_not_read, what_is_read_is_given,
};
pub use read::read_function;
pub use worked_functions::{
    a_function_with_for_reads, a_function_with_while_reads, end_loop_ends_no_case,
    every_kind_of_statement_reads, select_into_reads, words_outside_are_found,
};
