//! Trees that are copied, queries and schemas that are judged by the rules, and cases of the demonstration. A crate of its own, so that they load
//! what they look at and prove none of it again.
#![tactic(auto)]

#[cfg(test)]
mod cases;
#[cfg(test)]
mod copies;
#[cfg(test)]
mod queries;
mod row_rules;
mod worked_rules;

pub use row_rules::rows_break_the_rules_of_a_query_but_one;
pub use worked_rules::{
    functions_break_their_rules, queries_break_their_rules, schemas_break_their_rules,
    the_first_statement_is_told,
};
