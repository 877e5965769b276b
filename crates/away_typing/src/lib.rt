//! The types of resolved trees, their aggregates and their parameters.
#![tactic(auto)]

pub mod kind;
pub mod mentions;
pub mod operands;
pub mod parameters;
pub mod params;
pub mod recursion;
pub mod row_queries;
pub mod shapes;
pub mod types;
pub mod uses;
pub mod wholes;
