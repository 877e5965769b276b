//! How large the function is in which a program's calls are expanded, told without building it.
#![tactic(auto)]

mod depths;
mod laws;
mod told;
mod weights;

pub use depths::expanded_depth;
pub use laws::sums_are_counts;
pub use told::size_told;
pub use weights::{Weights, expanded_weight, of_loops, of_nodes, of_variables};
