//! Tables from CSV: what a file of comma-separated records holds for the columns of a table.
#![tactic(auto)]

mod cells;
mod laws;
mod numbers;
mod records;
mod refusal;
mod rows;
mod table;

pub use cells::read_value;
pub use laws::{fields_write, files_hold, the_first_decides};
pub use refusal::TableRefusal;
pub use table::read_table;
