//! Whether one tree is another whose slots stand elsewhere.
#![tactic(auto)]

mod exprs;
mod queries;
mod slots;

pub use exprs::expr_moved;
pub use queries::select_moved;
pub use slots::slot_at;
