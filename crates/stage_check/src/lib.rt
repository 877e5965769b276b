//! The checks of all stages in a row, and what acceptance promises.
#![tactic(auto)]

mod check;
mod verdict;

pub use check::check_all;
pub use equivalence::Relation;
pub use verdict::Verdict;
