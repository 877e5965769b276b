//! The evaluator of expressions, selects and queries.
#![tactic(auto)]

mod aggregates;
mod answers;
mod bodies;
mod classes;
mod eval;
mod expressions;
mod frames;
mod from_rows;
mod functions;
mod kept_rows;
mod lengths;
mod operators;
mod places;
mod row_lists;
mod rows_answer;
mod scope;
mod selects;
mod shared_rows;
mod tables;
mod working;

pub use answers::{rows, run_query};
pub use bodies::{rows_in_body, value_in_body};
pub use classes::class_of;
pub use expressions::{Frames, eval_expr};
pub use lengths::query_length;
pub use rows_answer::{RowsAnswer, run_rows};
