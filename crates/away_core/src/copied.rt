//! What can be copied.

ghost use Rattle.std.specs.Prelude.{◌≡◌, IfOk};

use crate::copy_queries::{
    copy_expr, copy_from_item, copy_item, copy_key, copy_query, copy_recursion, copy_select,
    copy_source,
};
use crate::copy_schemas::{copy_column, copy_schema, copy_table_schema};
use crate::copy_statements::{
    copy_arm, copy_decl, copy_function, copy_loop_kind, copy_raised, copy_stmt,
};
use away_trees::{
    Arm, ColumnSchema, Decl, Expr, FromItem, Function, Item, Key, LoopKind, Query, Raised,
    Recursive, Schema, Select, Source, Stmt, TableSchema,
};
use away_values::NoMemory;
use std::alloc::Global;

/// A tree that can be copied.
pub trait Copied {
    fn copy(&self, alloc: Global) -> Result<Self, NoMemory>
        ensures { IfOk result (λ r. r ≡ self.now) };
}

impl Copied for Expr {
    fn copy(&self, alloc: Global) -> Result<Expr, NoMemory> {
        copy_expr(self, alloc)
    }
}

impl Copied for Item {
    fn copy(&self, alloc: Global) -> Result<Item, NoMemory> {
        copy_item(self, alloc)
    }
}

impl Copied for Source {
    fn copy(&self, alloc: Global) -> Result<Source, NoMemory> {
        copy_source(self, alloc)
    }
}

impl Copied for FromItem {
    fn copy(&self, alloc: Global) -> Result<FromItem, NoMemory> {
        copy_from_item(self, alloc)
    }
}

impl Copied for Key {
    fn copy(&self, alloc: Global) -> Result<Key, NoMemory> {
        copy_key(self, alloc)
    }
}

impl Copied for Select {
    fn copy(&self, alloc: Global) -> Result<Select, NoMemory> {
        copy_select(self, alloc)
    }
}

impl Copied for Recursive {
    fn copy(&self, alloc: Global) -> Result<Recursive, NoMemory> {
        copy_recursion(self, alloc)
    }
}

impl Copied for Query {
    fn copy(&self, alloc: Global) -> Result<Query, NoMemory> {
        copy_query(self, alloc)
    }
}

impl Copied for ColumnSchema {
    fn copy(&self, alloc: Global) -> Result<ColumnSchema, NoMemory> {
        copy_column(self, alloc)
    }
}

impl Copied for TableSchema {
    fn copy(&self, alloc: Global) -> Result<TableSchema, NoMemory> {
        copy_table_schema(self, alloc)
    }
}

impl Copied for Schema {
    fn copy(&self, alloc: Global) -> Result<Schema, NoMemory> {
        copy_schema(self, alloc)
    }
}

impl Copied for Decl {
    fn copy(&self, alloc: Global) -> Result<Decl, NoMemory> {
        copy_decl(self, alloc)
    }
}

impl Copied for LoopKind {
    fn copy(&self, alloc: Global) -> Result<LoopKind, NoMemory> {
        copy_loop_kind(self, alloc)
    }
}

impl Copied for Raised {
    fn copy(&self, alloc: Global) -> Result<Raised, NoMemory> {
        copy_raised(self, alloc)
    }
}

impl Copied for Stmt {
    fn copy(&self, alloc: Global) -> Result<Stmt, NoMemory> {
        copy_stmt(self, alloc)
    }
}

impl Copied for Arm {
    fn copy(&self, alloc: Global) -> Result<Arm, NoMemory> {
        copy_arm(self, alloc)
    }
}

impl Copied for Function {
    fn copy(&self, alloc: Global) -> Result<Function, NoMemory> {
        copy_function(self, alloc)
    }
}
