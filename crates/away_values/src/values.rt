//! Values, tables and answers.

use crate::words::Word;
use sqlite_items::Items;

/// A whole SQLSTATE: five ASCII digits or upper-case letters, and not 00000 (PostgreSQL manual, appendix PostgreSQL Error
/// Codes).
#[derive(Clone, Copy, Debug, PartialEq, Eq)]
pub struct Class {
    pub code: [u8; 5],
}

/// A value of SQL. NULL is of every type. Of the types, the manual: 8.1, Numeric Types, 8.3, Character Types, and 8.6, Boolean Type.
#[derive(Drop)]
pub enum Value {
    Null,
    Int(i64),
    Bool(bool),
    Text(Word),
}

/// The rows of a table, in their order.
#[derive(Drop)]
pub struct Table {
    pub rows: Items<Items<Value>>,
}

/// The tables of a schema, in its order.
#[derive(Drop)]
pub struct Tables {
    pub list: Items<Table>,
}

/// What a function or a query answers at a bound: a value, a fault, that it needs more, or a result of another shape than
/// one row of a value and a fault, with the number of its rows.
/// The bound is in turns of loops for a function, and in iterations of the recursive table for a query; `More` is our own choice.
#[derive(Drop)]
pub enum Answer {
    Value(Value),
    Fault(Class),
    More,
    Shape(u64),
}
