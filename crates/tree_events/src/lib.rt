//! A query as a list of events, by which it is compared without its names.
#![tactic(auto)]

mod events;
mod laws;
mod nodes;
mod push;
mod slots;

pub use events::{Kind, Manner, TreeEvent};
pub use laws::{events_determine_queries, events_determine_slots, placed_expressions_have_events};
pub use push::{expr_events, query_events};
pub use slots::{slots_of, slots_of_events};
