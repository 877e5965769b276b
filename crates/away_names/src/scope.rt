//! What names are looked up in.

use away_trees::Col;
use away_values::Name;
use indexmap::IndexMap;
use sqlite_items::Items;

/// What an item of FROM is to names: its alias and its columns, some of which have no name.
#[derive(Drop)]
pub struct Seen {
    pub alias: Name,
    pub columns: Items<Option<Name>>,
}

/// A variable that is visible, by its slot.
#[derive(Drop)]
pub struct Variable {
    pub name: Name,
    pub slot: u32,
    pub constant: bool,
}

/// A table that may be named: how its column list stands in a resolved tree, the digits of its place first.
#[derive(Drop)]
pub struct Listed {
    pub written: Items<Name>,
    pub recursive: bool,
}

/// The recursive table of a query, by its name.
#[derive(Drop)]
pub struct Working {
    pub name: Name,
    pub table: Listed,
}

/// The tables that may be named.
#[derive(Clone, Copy)]
pub struct Tables<'a> {
    pub schema: &'a IndexMap<String, Listed>,
    /// It hides a table of the schema that has its name.
    pub working: Option<&'a Working>,
}

/// A column that has the name, and whether another item of that select has one too.
#[derive(Clone, Copy)]
pub struct Hit {
    pub column: Col,
    pub many: bool,
}

#[derive(Clone, Copy)]
pub struct Scope<'a> {
    pub tables: Tables<'a>,
    /// The innermost select comes first.
    pub levels: &'a [&'a Items<Seen>],
    /// The innermost comes last.
    pub variables: &'a [Variable],
    pub in_function: bool,
}
