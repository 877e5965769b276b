//! Queries, expressions and schemas: from text to trees.
#![tactic(auto)]

mod complete_law;
mod cursor;
mod expressions;
mod files;
mod laws;
mod nodes;
mod one_tree;
mod primaries;
mod read;
mod refusal;
mod schemas;
mod selects;
mod tables;
mod terminals;

pub use complete_law::what_is_read_is_given;
pub use cursor::Cursor;
pub use expressions::expression;
pub use laws::what_a_plan_gives_is_read;
pub use nodes::unboxed;
pub use one_tree::a_text_reads_as_one_tree;
pub use read::{as_text, read_expr, read_query, read_schema};
pub use refusal::Refusal;
pub use selects::{from_of, items_of, limit_of, order_of, where_of};
pub use terminals::{Terminal, is_public, terminals_of, text_of};
