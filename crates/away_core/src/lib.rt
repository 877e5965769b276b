//! Copies of trees, and all that the crates of values, trees and the grammar have, under one name.
#![tactic(auto)]

mod copied;
mod copy_names;
mod copy_queries;
mod copy_schemas;
mod copy_statements;

pub use away_grammar::{Attribute, Level, Mark, TokenKind};
pub use away_trees::{
    Arm, Col, ColumnSchema, Decl, Expr, FromItem, Function, Item, Key, LoopKind, Query, Raised,
    Recursive, Schema, Select, Source, Stmt, TableSchema, node_count, nodes,
    nodes_of_worked_functions, queries_go_by_their_parts, statements_go_by_their_parts, weight,
};
pub use away_values::{
    Answer, ChainOp, Class, CmpOp, IntOp, IsTest, Name, NoMemory, OpError, Table, Tables, TextOp,
    Ty, Value, Word, arithmetic_is_exact, compare, comparison_is_a_total_order,
    comparison_is_by_value, division_leaves_the_remainder, int_op, literal_type, name,
    parts_of_a_text_join, results_have_their_types, small, text_op,
    the_text_of_a_bigint_reads_back, what_is_held_is_a_value, word,
};
pub use copied::Copied;
