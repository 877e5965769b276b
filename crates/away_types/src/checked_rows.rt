//! What the check of a query for all of its rows answers.

ghost use Rattle.away_types.specs.CheckedRows.{IsCheckedRowsOfSome};

use away_trees::Query;
use away_values::Ty;
use sqlite_items::Items;

/// A query whose names are resolved and whose operations are marked, with its parameters in ascending order and the types of its columns.
#[derive(Drop)]
pub struct CheckedRows {
    pub query: Query,
    pub params: Items<(u32, Ty)>,
    pub columns: Items<Ty>,
    ghost checked: { ∥ IsCheckedRowsOfSome query params columns ∥₁ },
}
