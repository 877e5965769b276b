//! What in a function breaks a rule of names: the name, the column, the function, the parameter or the table.
#![tactic(auto)]

mod culprit;
mod expressions;
mod functions;
mod laws;
mod name_tokens;
mod own_names;
mod queries;
mod reasons;
mod sights;
mod single_names;
mod statements;
mod variables;
mod worked;

pub use culprit::Culprit;
pub use functions::culprit_of;
pub use laws::each_culprit_stands_at_a_token;
pub use name_tokens::culprit_place;
pub use reasons::culprit_reason;
pub use worked::worked_expressions_have_culprits;
