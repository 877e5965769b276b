//! The terms of a query of turns: which are written where they are read, what names stand for, and expressions over the columns of the row.
#![tactic(auto)]

mod laws;
mod leaves;
mod placing;
mod references;
mod sameness;
mod sureness;
mod terms;
mod writer;

pub use laws::{what_is_chosen_is_total, what_is_the_same_is_one, worked_terms_are_chosen};
pub use placing::written;
pub use references::{Reference, column_reference, entered, on_columns, with_name};
pub use sameness::same;
pub use sureness::is_chosen;
pub use terms::{term_reference, term_value, value_of};
pub use writer::{Writer, type_of};
