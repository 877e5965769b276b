//! Rows without names, and copies of them.

ghost use Rattle.std.specs.Prelude.{◌≡◌, IfOk};
ghost use Rattle.std.specs.Option.{option_copied};
ghost use Rattle.lateral_rows.specs.RowParts.{or_null};

use away_values::{NoMemory, Value};
use sqlite_items::Items;
use std::alloc::Global;

/// The rows of a table or of a query, in their order.
#[derive(Drop)]
pub struct Rows {
    pub list: Items<Items<Value>>,
}

/// A copy of a value that is lent, or NULL where there is none.
pub fn copied(alloc: Global, v: Option<&Value>) -> Result<Value, NoMemory>
    ensures { IfOk result (λ r. r ≡ or_null (option_copied v.entry)) }
{
    match v {
        None => Ok(Value::Null),
        Some(v) => v.copy(alloc),
    }
}

pub(crate) fn copy_row(alloc: Global, row: &[Value]) -> Result<Items<Value>, NoMemory>
    ensures { IfOk result (λ r. r ≡ row.now) }
{
    let mut all = Items::new(alloc);
    for i in 0..row.len() {
        all.push(row[i].copy(alloc)?)?;
    }
    Ok(all)
}

pub(crate) fn copy_rows(
    alloc: Global,
    rows: &[Items<Value>],
) -> Result<Items<Items<Value>>, NoMemory>
    ensures { IfOk result (λ r. r ≡ rows.now) }
{
    let mut all = Items::new(alloc);
    for i in 0..rows.len() {
        all.push(copy_row(alloc, rows[i].as_slice())?)?;
    }
    Ok(all)
}
