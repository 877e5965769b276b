//! Queries whose columns stand by their places, with names again.
#![tactic(auto)]

mod laws;
mod parts;
mod qualifying;
mod qualifying_queries;
pub mod sight;

pub use laws::{
    what_is_found_is_found_by_its_alias, what_is_named_again_is_read_as_it_was,
    worked_queries_have_names,
};
pub use qualifying_queries::qualified_query;
