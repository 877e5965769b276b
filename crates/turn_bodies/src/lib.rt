//! The labels of a query of turns, and the body of each as a tree.
#![tactic(auto)]

mod bodies;
mod checks;
mod labels;
mod places;
mod unfolding;

pub use bodies::{Body, body_of};
pub use places::{params_of, place_of, places_at};
pub use unfolding::{Unfolded, unfold};
