//! The graph of a form's basic blocks: the predecessors of each block, and at which blocks each slot is live.
#![tactic(auto)]

mod edges;
mod liveness;
mod tables;

pub use edges::predecessors;
pub use tables::{is_live, live_tables};
