//! What a pass finds beside its result.

ghost use Rattle.std.specs.Prelude.{◌≡◌};
ghost use Rattle.away_names.specs.Notes as spec;

use crate::rule::{Rule, lesser};
use crate::scope::Seen;
use away_trees::{FromItem, Item, Query, Recursive, Source};
use away_values::Name;
use sqlite_items::Items;

/// How often the recursive table is named.
#[derive(Clone, Copy, Debug, PartialEq, Eq)]
pub enum Times {
    Never,
    Once,
    Often,
}

/// The least rule that is broken, if one is, and how often the recursive table is named.
#[derive(Clone, Copy, Debug, PartialEq, Eq)]
pub struct Note {
    pub least: Option<Rule>,
    pub refers: Times,
}

/// A result with what was found on the way to it.
#[derive(Drop)]
pub struct Noted<T> {
    pub it: T,
    pub note: Note,
}

/// A select, a query or a list with the names of its columns, some of which have none.
#[derive(Drop)]
pub struct Shown<T> {
    pub it: T,
    pub names: Items<Option<Name>>,
}

/// An item of a list, and the name of its column.
#[derive(Drop)]
pub struct Column {
    pub it: Item,
    pub name: Option<Name>,
}

/// Items of FROM, and as names see them.
#[derive(Drop)]
pub struct Framed {
    pub items: Items<FromItem>,
    pub seen: Items<Seen>,
}

/// An item of FROM, and as names see it.
#[derive(Drop)]
pub struct Part {
    pub item: FromItem,
    pub seen: Seen,
}

/// What an item of FROM takes its rows from, its list of columns, and its columns as names see them.
#[derive(Drop)]
pub struct Origin {
    pub source: Source,
    pub columns: Items<Name>,
    pub names: Items<Option<Name>>,
}

/// The terms of a recursive table, and what was found in its list of columns, its first term and its second.
#[derive(Drop)]
pub struct Terms {
    pub it: Recursive,
    pub columns: Note,
    pub first: Note,
    pub second: Note,
}

/// A whole query, what was found in the terms of its recursive table, and in all of it.
#[derive(Drop)]
pub struct File {
    pub query: Query,
    pub first: Note,
    pub second: Note,
    pub note: Note,
}

#[tactic(auto, unfolding(crate::specs::Notes::summed))]
fn summed(a: Times, b: Times) -> Times
    ensures { result ≡ spec.summed a b }
{
    match a {
        Times::Never => b,
        Times::Once => match b {
            Times::Never => Times::Once,
            Times::Once | Times::Often => Times::Often,
        },
        Times::Often => Times::Often,
    }
}

#[tactic(auto, unfolding(crate::specs::Notes::clean))]
pub fn clean() -> Note
    ensures { result ≡ spec.clean }
{
    Note {
        least: None,
        refers: Times::Never,
    }
}

#[tactic(auto, unfolding(crate::specs::Notes::joined))]
pub fn joined(a: Note, b: Note) -> Note
    ensures { result ≡ spec.joined a b }
{
    Note {
        least: lesser(a.least, b.least),
        refers: summed(a.refers, b.refers),
    }
}

/// The rule is broken where the test holds.
#[tactic(auto, unfolding(crate::specs::Notes::breaks))]
pub fn breaks(rule: Rule, test: bool) -> Note
    ensures { result ≡ spec.breaks rule test }
{
    Note {
        least: if test { Some(rule) } else { None },
        refers: Times::Never,
    }
}
