//! The checks of schemas, functions and queries.
#![tactic(auto)]

mod around;
mod checked;
mod checked_function;
mod checked_query;
mod checked_rows;
mod checked_schema;
mod declarations;
mod finding;
mod function_check;
mod into;
mod labels;
mod laws;
mod parameters;
mod query_check;
mod raising;
mod resolved;
mod resolving;
mod rows_check;
mod schema_check;
mod slots;
mod statement_types;
mod steps;
mod variables;

pub use away_names::rule::Rule;
pub use checked::{FunctionRefusal, RuleRefusal};
pub use checked_function::CheckedFunction;
pub use checked_query::CheckedQuery;
pub use checked_rows::CheckedRows;
pub use checked_schema::CheckedSchema;
pub use finding::Finding;
pub use function_check::{NamedBody, check_function, head_rule, named_body};
pub use laws::{a_function_has_one_checked_tree, a_query_has_one_checked_tree};
pub use query_check::{check_query, resolved_file};
pub use rows_check::check_rows;
pub use schema_check::check_schema;
pub use slots::Slot;
