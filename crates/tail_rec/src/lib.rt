//! The tail form of a normal form: which blocks are labels, and the columns of their parameters.
#![tactic(auto)]

mod callers;
mod columns;
mod labels;
mod places;
mod tail;
mod walk;

pub use tail::{tail_of, to_tail};
