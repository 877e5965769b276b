//! The commands over the tables of a folder.

pub mod answer_lines;
pub mod arguments;
pub mod program;
pub mod row_records;
pub mod run;
pub mod tables;
pub mod unrolled;
