//! Functions in which calls of others are expanded, and in which self calls are turns of a loop.
#![tactic(auto)]

mod blocks;
mod calls;
mod examples;
mod expand;
mod heads;
pub mod judged;
mod judging;
mod leaves;
mod made;
pub mod places;
mod seeing;
mod strict;
mod turns;
mod walk;

pub use examples::{
    a_program_is_expanded, calls_are_judged, hidden_names_are_told_apart, numbers_are_converted,
    self_calls_are_turns_of_a_loop,
};
pub use expand::{expanded, untailed};
