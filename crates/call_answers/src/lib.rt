//! That a function that was built of another answers as it does: it is checked like any other, and its tree is walked beside the other's.
#![tactic(auto)]

mod answering;
mod becoming;
mod callees;
mod calls;
mod ends;
mod expanded;
mod laws;
mod leaf_pairs;
mod leaves;
mod nulls;
mod parts;
mod related;
mod sights;
mod standing;
mod turns;
mod walking;

pub use answering::{answering_as_program, answering_as_self_caller};
pub use laws::{expansions_answer_as_programs, untailings_answer_as_self_callers};
