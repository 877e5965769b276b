//! What the check of a query answers.

ghost use Rattle.away_types.specs.CheckedQueries.{IsCheckedQueryOfSome};

use away_trees::Query;
use away_values::Ty;
use sqlite_items::Items;

/// A query whose names are resolved and whose operations are marked, with its parameters in ascending order and the type of its first column.
#[derive(Drop)]
pub struct CheckedQuery {
    pub query: Query,
    pub params: Items<(u32, Ty)>,
    pub result: Ty,
    ghost checked: { ∥ IsCheckedQueryOfSome query params result ∥₁ },
}
