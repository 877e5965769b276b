//! The trees of queries, functions and schemas, the recursions over them, and the count of a function's nodes.
#![tactic(auto)]

mod count;
mod queries;
mod schemas;
mod statements;
mod tree_laws;

pub use count::{node_count, nodes, nodes_of_arm, nodes_of_statement, weight};
pub use queries::{Col, Expr, FromItem, Item, Key, Query, Recursive, Select, Source};
pub use schemas::{ColumnSchema, Schema, TableSchema};
pub use statements::{Arm, Decl, Function, LoopKind, Raised, Stmt};
pub use tree_laws::{
    nodes_of_worked_functions, queries_go_by_their_parts, statements_go_by_their_parts,
};
