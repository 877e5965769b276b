//! The tables that a function or a query is written for.

use away_values::{Name, Ty};
use sqlite_items::Items;

/// A column of a table. The manual: 5.4.2, Not-Null Constraints.
#[derive(Drop)]
pub struct ColumnSchema {
    pub name: Name,
    pub ty: Ty,
    pub not_null: bool,
}

/// A table, with its columns in their order. The manual: 5.1, Table Basics.
#[derive(Drop)]
pub struct TableSchema {
    pub name: Name,
    pub columns: Items<ColumnSchema>,
}

#[derive(Drop)]
pub struct Schema {
    pub tables: Items<TableSchema>,
}
