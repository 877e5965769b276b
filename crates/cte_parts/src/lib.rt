//! What a function's query is made of: its names, its small trees, and the function's expressions with columns for their slots.
#![tactic(auto)]

mod columns;
mod names;
mod numbers;
mod placing;
mod trees;

pub use names::{Known, digits, names_carrying, row_names};
pub use numbers::{after, small, sum};
pub use placing::place;
pub use trees::{
    add, alone, class_text, col, either_as, either_carrying, equal, gate_as, let_as, not, not_true,
    null, number, only, select, subquery, truth, working, working_carrying,
};
