//! Copies of schemas, each equal to what it copies.

ghost use Rattle.std.specs.Prelude.{◌≡◌, IfOk};

use away_trees::{ColumnSchema, Schema, TableSchema};
use away_values::NoMemory;
use sqlite_items::Items;
use std::alloc::Global;

pub(crate) fn copy_column(value: &ColumnSchema, alloc: Global) -> Result<ColumnSchema, NoMemory>
    ensures { IfOk result (λ r. r ≡ value.now) }
{
    Ok(ColumnSchema {
        name: value.name.copy(alloc)?,
        ty: value.ty,
        not_null: value.not_null,
    })
}

fn copy_columns(list: &[ColumnSchema], alloc: Global) -> Result<Items<ColumnSchema>, NoMemory>
    ensures { IfOk result (λ r. r ≡ list.now) }
{
    let mut all = Items::new(alloc);
    for i in 0..list.len() {
        all.push(copy_column(&list[i], alloc)?)?;
    }
    Ok(all)
}

pub(crate) fn copy_table_schema(value: &TableSchema, alloc: Global) -> Result<TableSchema, NoMemory>
    ensures { IfOk result (λ r. r ≡ value.now) }
{
    Ok(TableSchema {
        name: value.name.copy(alloc)?,
        columns: copy_columns(value.columns.as_slice(), alloc)?,
    })
}

fn copy_table_schemas(list: &[TableSchema], alloc: Global) -> Result<Items<TableSchema>, NoMemory>
    ensures { IfOk result (λ r. r ≡ list.now) }
{
    let mut all = Items::new(alloc);
    for i in 0..list.len() {
        all.push(copy_table_schema(&list[i], alloc)?)?;
    }
    Ok(all)
}

pub(crate) fn copy_schema(value: &Schema, alloc: Global) -> Result<Schema, NoMemory>
    ensures { IfOk result (λ r. r ≡ value.now) }
{
    Ok(Schema {
        tables: copy_table_schemas(value.tables.as_slice(), alloc)?,
    })
}
