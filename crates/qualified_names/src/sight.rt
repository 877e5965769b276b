//! What the columns in sight are called.

ghost use Rattle.std.specs.Prelude.{◌≡◌, IfOk, Some};
ghost use Rattle.std.specs.Option.{option_copied};
ghost use Rattle.qualified_names.specs.Sight as spec;

use away_names::scope::Seen;
use away_trees::{Col, Expr};
use away_values::{Name, NoMemory};
use sqlite_items::Items;
use std::alloc::Global;

/// The items of FROM that a place sees, the innermost select first.
#[derive(Clone, Copy)]
pub struct Sight<'a> {
    pub levels: &'a [&'a Items<Seen>],
}

/// The item that has a column.
fn holder<'a>(c: Col, s: &Sight<'a>) -> Option<&'a Seen>
    ensures { option_copied result ≡ spec.holder (spec.sight s.now) c }
{
    let level = s.levels.get(c.level as usize)?;
    level.as_slice().get(c.item as usize)
}

fn name_at(o: &Seen, place: usize) -> Option<&Name>
    ensures { option_copied result ≡ spec.name_at o.now place }
{
    match o.columns.as_slice().get(place) {
        Some(Some(n)) => Some(n),
        Some(None) => None,
        None => None,
    }
}

fn called_in(alloc: Global, c: Col, o: &Seen) -> Result<Expr, NoMemory>
    ensures { IfOk result (λ e. e ≡ spec.called_in c (Some o.now)) }
{
    match name_at(o, c.column as usize) {
        None => Ok(Expr::Column(c)),
        Some(n) => Ok(Expr::Dotted(o.alias.copy(alloc)?, n.copy(alloc)?)),
    }
}

/// A column by the alias of its item and its own name.
#[tactic(auto, unfolding(crate::specs::Sight::reference))]
pub fn reference(alloc: Global, c: Col, s: &Sight<'_>) -> Result<Expr, NoMemory>
    ensures { IfOk result (λ e. e ≡ spec.reference (spec.sight s.now) c) }
{
    match holder(c, s) {
        None => Ok(Expr::Column(c)),
        Some(o) => called_in(alloc, c, o),
    }
}

/// The name of a list's column.
#[tactic(auto, unfolding(crate::specs::Sight::column_name))]
pub fn column_name(alloc: Global, alias: &Option<Name>, e: &Expr) -> Result<Option<Name>, NoMemory>
    ensures { IfOk result (λ n. n ≡ spec.column_name alias.now e.now) }
{
    match alias {
        Some(n) => Ok(Some(n.copy(alloc)?)),
        None => match e {
            Expr::Dotted(_, n) => Ok(Some(n.copy(alloc)?)),
            _ => Ok(None),
        },
    }
}
