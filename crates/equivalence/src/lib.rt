//! The relations between a function, the forms that lead to its query and the query, and that the query is equivalent to the function where all hold.
#![tactic(auto)]

mod laws;
mod relation;

pub use laws::{
    accepted_forms_are_equivalent, accepted_forms_are_equivalent_at_all, worked_forms_are_accepted,
};
pub use relation::Relation;
