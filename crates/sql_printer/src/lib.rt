//! Queries as text.
#![tactic(auto)]

mod layout;
mod names_and_literals;
mod operators;
mod print_laws;
mod printing;
mod spelling;
mod terminal_list;

pub use layout::laid_out;
pub use operators::{
    comparison_mark, is_looser, level_of, level_of_chain, level_of_operands, operator_mark,
    type_name,
};
pub use print_laws::{
    printed_expressions_read_back, printed_queries_read_back, printing_reads_back,
    queries_that_were_read_print_back, terminals_of_texts_are_writable,
};
pub use printing::{add_expr, add_from, add_items, add_limit, add_order, add_where, print_query};
pub use terminal_list::{PrintedTerminal, TerminalList};
