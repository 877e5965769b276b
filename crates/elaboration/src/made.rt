//! Trees whose operations are marked, with the types that were found.

use away_trees::{Expr, FromItem};
use away_typing::kind::Kind;
use away_values::Ty;
use sqlite_items::Items;

/// A tree and its type.
#[derive(Drop)]
pub struct Made<T> {
    pub kind: Kind,
    pub it: T,
}

/// Trees in a row and their types.
#[derive(Drop)]
pub struct MadeAll<T> {
    pub kinds: Items<Kind>,
    pub it: T,
}

/// A query, or an item of FROM, and the types of its columns; None where it has none.
#[derive(Drop)]
pub struct Shaped<T> {
    pub shape: Option<Items<Ty>>,
    pub it: T,
}

/// A select, or selects that UNION ALL joins, and the types of their columns; None where they have none.
#[derive(Drop)]
pub struct Selected<T> {
    pub kinds: Option<Items<Kind>>,
    pub it: T,
}

/// The arms of a CASE, whether their conditions are booleans, and the types of their values.
#[derive(Drop)]
pub struct MadeArms {
    pub tested: bool,
    pub kinds: Items<Kind>,
    pub it: Items<(Expr, Expr)>,
}

/// A condition or a LIMIT, where there is one, and its type.
#[derive(Drop)]
pub struct MadeMaybe {
    pub kind: Option<Kind>,
    pub it: Option<Expr>,
}

/// The items of FROM, and the types of their columns; None where an item has none.
#[derive(Drop)]
pub struct MadeFroms {
    pub frame: Option<Items<Items<Ty>>>,
    pub it: Items<FromItem>,
}
