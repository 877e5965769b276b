//! The normal form and the tail form of a function: what they are, how they run, and when one is that of the other.
#![tactic(auto)]

mod form;
mod forms;
mod laws;

pub use form::{AnfForm, TailForm};
pub use forms::{Anf, AnfBlock, Call, CallEnd, Forms, Tail};
pub use laws::{calls_that_end_stay, unneeded_parameters_are_told, worked_calls_are_related};
