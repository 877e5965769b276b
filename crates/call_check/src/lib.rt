//! The checks of the forms with calls and of their query, and what a yes promises.
#![tactic(auto)]

mod calls;
mod check;
mod columns;
mod labels;
mod numbers;
mod reads;
mod same;
mod sources;
mod stages;

pub use check::{check_called, check_columned, check_merged};
pub use stages::{CallStage, MergeStage};
