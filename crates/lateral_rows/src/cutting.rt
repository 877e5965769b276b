//! The first rows.

ghost use Rattle.std.specs.Prelude.{◌≡◌, IfOk, take};
ghost use Rattle.away_values.specs.Results.{Answers, mapped};
ghost use Rattle.sql_meaning.specs.Selects.{taken};
ghost use Rattle.lateral_rows.specs.RowParts.{rows_of};

use crate::rows::{Rows, copy_rows};
use away_values::{NoMemory, OpError, Value, sqlstate};
use sqlite_items::Items;
use std::alloc::Global;

/// The first rows, as many as LIMIT says.
/// The manual: 7.6, LIMIT and OFFSET. NULL keeps all; a negative number is 2201W, invalid_row_count_in_limit_clause.
pub fn cut(alloc: Global, rows: &Rows, limit: &Value) -> Result<Rows, OpError>
    ensures { Answers (mapped rows_of (taken limit.now rows.now.list)) result }
{
    let list = rows.list.as_slice();
    match limit {
        Value::Int(n) => {
            if *n < 0 {
                return Err(OpError::Class(sqlstate::INVALID_ROW_COUNT_IN_LIMIT_CLAUSE));
            }
            let list = copy_first(alloc, list, *n as usize)?;
            Ok(Rows { list })
        }
        _ => {
            let list = copy_rows(alloc, list)?;
            Ok(Rows { list })
        }
    }
}

fn copy_first(
    alloc: Global,
    rows: &[Items<Value>],
    n: usize,
) -> Result<Items<Items<Value>>, NoMemory>
    ensures { IfOk result (λ r. r ≡ take n rows.now) }
{
    if n < rows.len() {
        copy_rows(alloc, &rows[..n])
    } else {
        copy_rows(alloc, rows)
    }
}

/// The same of rows that are given away, so that none is copied.
pub fn cut_off(rows: Items<Items<Value>>, limit: &Value) -> Result<Items<Items<Value>>, OpError>
    ensures { Answers (taken limit.now rows) result }
{
    match limit {
        Value::Int(n) => {
            if *n < 0 {
                return Err(OpError::Class(sqlstate::INVALID_ROW_COUNT_IN_LIMIT_CLAUSE));
            }
            Ok(first_rows(*n as usize, rows))
        }
        _ => Ok(rows),
    }
}

fn first_rows(n: usize, rows: Items<Items<Value>>) -> Items<Items<Value>>
    ensures { result ≡ take n rows }
{
    let mut rows = rows;
    while rows.len() > n {
        let _ = rows.pop();
    }
    rows
}
