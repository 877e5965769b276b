//! Whether a file begins a query, and places in such a file.
#![tactic(auto)]

mod laws;
mod places;
mod reading;
mod stops;

pub use laws::query_places_are_tokens;
pub use places::{begins_query, first_token_place, query_nesting_place};
pub use stops::{Stop, query_stop};
