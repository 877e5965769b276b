//! Names, scopes, and the trees in which each name stands for its slot or column.
#![tactic(auto)]

pub mod files;
pub mod function;
pub mod listings;
pub mod lookups;
pub mod naming;
pub mod naming_queries;
pub mod note;
pub mod origins;
pub mod references;
pub mod rule;
pub mod schema_names;
pub mod scope;
pub mod tables;
