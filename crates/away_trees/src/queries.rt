//! The trees of expressions and queries.

use away_values::{ChainOp, CmpOp, IsTest, Name, Ty, Word};
use sqlite_items::{Boxed, Items};

/// A column by the level of its select, its item there and its place in the item. Levels count the enclosing selects
/// outward from 0; the select that holds a FROM item counts as a level for the subquery in it.
#[derive(Clone, Copy, Debug, PartialEq, Eq)]
pub struct Col {
    pub level: u32,
    pub item: u32,
    pub column: u32,
}

/// An expression. The bool of `Is`, `Between` and `OneOf` says NOT. The operators of a chain are of one level, and its
/// list isn't empty. The manual: 4.2, Value Expressions.
#[cycle(query)]
#[derive(Drop)]
pub enum Expr {
    Int(i64),
    Str(Word),
    Bool(bool),
    Null,
    /// A name that isn't resolved.
    Named(Name),
    /// An alias and a column's name, not resolved.
    Dotted(Name, Name),
    /// A variable of a function.
    Slot(u32),
    Column(Col),
    /// A parameter of a query, from 1, with its type.
    Param(u32, Ty),
    Neg(Boxed<Expr>),
    /// A minus whose result has 32 bits, which no reader makes and the types do.
    NegSmall(Boxed<Expr>),
    Not(Boxed<Expr>),
    Is(Boxed<Expr>, IsTest, bool),
    Chain(Boxed<Expr>, Items<(ChainOp, Expr)>),
    Compare(CmpOp, Boxed<Expr>, Boxed<Expr>),
    Between(bool, Boxed<Expr>, Boxed<Expr>, Boxed<Expr>),
    OneOf(bool, Boxed<Expr>, Items<Expr>),
    Cast(Boxed<Expr>, Ty),
    /// CASE: its arms, and what stands behind ELSE.
    Cases(Items<(Expr, Expr)>, Option<Boxed<Expr>>),
    Call(Name, Items<Expr>),
    CountRows,
    Scalar(Boxed<Query>),
    Exists(Boxed<Query>),
}

/// An item of a select list. The manual: 7.3, Select Lists; the alias is a column label (7.3.2).
#[cycle(query)]
#[derive(Drop)]
pub struct Item {
    pub expr: Expr,
    pub alias: Option<Name>,
}

/// What a FROM item takes its rows from. The manual: 7.2.1.3, Subqueries, and 7.2.1.5, LATERAL Subqueries.
#[cycle(query)]
#[derive(Drop)]
pub enum Source {
    Table(Name),
    /// A subquery, and whether it is LATERAL.
    Sub(Boxed<Query>, bool),
}

/// An item of FROM. The manual: 7.2.1.2, Table and Column Aliases; the list of columns is empty where none is written.
#[cycle(query)]
#[derive(Drop)]
pub struct FromItem {
    pub source: Source,
    pub alias: Name,
    pub columns: Items<Name>,
}

/// A key of ORDER BY. The manual: 7.5, Sorting Rows (ORDER BY).
#[cycle(query)]
#[derive(Drop)]
pub struct Key {
    pub expr: Expr,
    pub descending: bool,
}

/// A select. The manual: 7.1, Overview of Queries, with 7.2.2 for the filter, 7.5 for the order and 7.6 for the limit, which is in rows.
#[cycle(query)]
#[derive(Drop)]
pub struct Select {
    pub list: Items<Item>,
    pub from: Items<FromItem>,
    pub filter: Option<Expr>,
    pub order: Items<Key>,
    pub limit: Option<Expr>,
}

/// WITH RECURSIVE: the selects of its first term, and the second term.
/// The manual: 7.8.2, Recursive Queries. The second term is the only one that may name the table.
#[cycle(query)]
#[derive(Drop)]
pub struct Recursive {
    pub name: Name,
    pub columns: Items<Name>,
    pub first: Items<Select>,
    pub second: Select,
}

/// Selects that UNION ALL joins. The manual: 7.4, Combining Queries.
#[cycle(query)]
#[derive(Drop)]
pub struct Query {
    pub recursive: Option<Recursive>,
    pub selects: Items<Select>,
}
