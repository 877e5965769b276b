//! Short lists beside the rows.

ghost use Rattle.std.specs.Prelude.{◌≡◌, [], ◌∷◌, IfOk, Ok};
ghost use Rattle.sql_meaning.specs.Gives.{Gives};
ghost use Rattle.sql_meaning.specs.Selected.{falls, ordered_by};

use away_trees::Key;
use away_values::{NoMemory, OpError, Value};
use lateral_rows::ordered_rows;
use sqlite_items::Items;
use std::alloc::Global;

/// An empty list, with room for so many items where memory is left.
pub(crate) fn with_room<T>(alloc: Global, count: usize) -> Items<T>
    ensures { result ≡ [] }
{
    match Vec::with_capacity(alloc, count) {
        Ok(items) => Items::from_vec(items),
        Err(_) => Items::new(alloc),
    }
}

#[tactic(auto, using(sql_meaning::proofs::GivesRules::gives_rules))]
pub(crate) fn one_row(alloc: Global, row: Items<Value>) -> Result<Items<Items<Value>>, OpError>
    ensures { Gives (Ok (row ∷ [])) result }
{
    let mut all = Items::new(alloc);
    all.push(row)?;
    Ok(all)
}

/// Which keys fall.
#[tactic(auto, using(crate::proofs::ListSteps::falls_rules))]
fn directions(alloc: Global, keys: &[Key]) -> Result<Items<bool>, NoMemory>
    ensures { IfOk result (λ r. r ≡ falls keys.now) }
{
    let mut all = Items::new(alloc);
    for key in keys {
        all.push(key.descending)?;
    }
    Ok(all)
}

/// The rows of a list in the order of their keys.
#[tactic(auto, using(sql_meaning::proofs::GivesRules::gives_rules))]
pub(crate) fn sorted_rows(
    alloc: Global,
    keys: &[Key],
    rows: Items<Items<Value>>,
    keyed: Items<Items<Value>>,
) -> Result<Items<Items<Value>>, OpError>
    ensures { Gives (Ok (ordered_by (falls keys.now) keyed rows)) result }
{
    let falls = directions(alloc, keys)?;
    Ok(ordered_rows(alloc, rows.as_slice(), keyed.as_slice(), falls.as_slice())?)
}
