//! Copies of values, tables and answers, each equal to what it copies.

ghost use Rattle.std.specs.Prelude.{◌≡◌, IfOk};

use crate::errors::NoMemory;
use crate::values::{Answer, Table, Tables, Value};
use sqlite_items::Items;
use std::alloc::Global;

impl Value {
    pub fn copy(&self, alloc: Global) -> Result<Value, NoMemory>
        ensures { IfOk result (λ r. r ≡ self.now) }
    {
        match self {
            Value::Null => Ok(Value::Null),
            Value::Int(n) => Ok(Value::Int(*n)),
            Value::Bool(b) => Ok(Value::Bool(*b)),
            Value::Text(text) => Ok(Value::Text(text.copy(alloc)?)),
        }
    }
}

fn copy_row(list: &[Value], alloc: Global) -> Result<Items<Value>, NoMemory>
    ensures { IfOk result (λ r. r ≡ list.now) }
{
    let mut all = Items::new(alloc);
    for i in 0..list.len() {
        all.push(list[i].copy(alloc)?)?;
    }
    Ok(all)
}

fn copy_rows(list: &[Items<Value>], alloc: Global) -> Result<Items<Items<Value>>, NoMemory>
    ensures { IfOk result (λ r. r ≡ list.now) }
{
    let mut all = Items::new(alloc);
    for i in 0..list.len() {
        all.push(copy_row(list[i].as_slice(), alloc)?)?;
    }
    Ok(all)
}

impl Table {
    pub fn copy(&self, alloc: Global) -> Result<Table, NoMemory>
        ensures { IfOk result (λ r. r ≡ self.now) }
    {
        Ok(Table {
            rows: copy_rows(self.rows.as_slice(), alloc)?,
        })
    }
}

fn copy_tables(list: &[Table], alloc: Global) -> Result<Items<Table>, NoMemory>
    ensures { IfOk result (λ r. r ≡ list.now) }
{
    let mut all = Items::new(alloc);
    for i in 0..list.len() {
        all.push(list[i].copy(alloc)?)?;
    }
    Ok(all)
}

impl Tables {
    pub fn copy(&self, alloc: Global) -> Result<Tables, NoMemory>
        ensures { IfOk result (λ r. r ≡ self.now) }
    {
        Ok(Tables {
            list: copy_tables(self.list.as_slice(), alloc)?,
        })
    }
}

impl Answer {
    pub fn copy(&self, alloc: Global) -> Result<Answer, NoMemory>
        ensures { IfOk result (λ r. r ≡ self.now) }
    {
        match self {
            Answer::Value(value) => Ok(Answer::Value(value.copy(alloc)?)),
            Answer::Fault(class) => Ok(Answer::Fault(*class)),
            Answer::More => Ok(Answer::More),
            Answer::Shape(rows) => Ok(Answer::Shape(*rows)),
        }
    }
}
