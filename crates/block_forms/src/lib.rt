//! The goto form and the SSA form of a function: what they are, how they run, and when one is that of the other.
#![tactic(auto)]

mod expressions;
mod fixed_list;
mod form;
mod forms;
mod laws;
mod places;
mod same;
mod shown_types;
mod stage;

pub use expressions::{ExprTable, expr_table};
pub use fixed_list::Fixed;
pub use form::{Form, GotoForm, SsaForm};
pub use forms::{Block, End, Goto, Phi, Ssa, SsaBlock, Term};
pub use laws::{runs_that_end_stay, the_fixed_list_stands, worked_forms_are_lowered};
pub use places::{Numbers, Position};
pub use same::{same_assignment, same_numbers, same_term};
pub use stage::{Stage, Then};
