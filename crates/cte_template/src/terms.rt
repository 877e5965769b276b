//! Terms as items of a select.

ghost use Rattle.std.specs.Prelude.{◌≡◌, map, IfOk};
ghost use Rattle.cte_template.specs.Making.{making};
ghost use Rattle.cte_template.specs.Places.{place_of as standing};
ghost use Rattle.cte_template.specs.Written as spec;

use crate::places::{ItemColumn, nowhere, place_of, seen};
use crate::writer::Writer;
use away_trees::{Col, Expr, FromItem};
use away_values::{NoMemory, Ty};
use block_forms::Term;
use cte_parts::{after, let_as, null, place};
use sqlite_items::Items;
use std::alloc::Global;

/// The column of each name, from a list at a depth.
fn columns_of(
    alloc: Global,
    depth: usize,
    pairs: &[(u32, ItemColumn)],
    names: &[u32],
) -> Result<Items<Col>, NoMemory>
    ensures { IfOk result (λ list. list
        ≡ map (spec.column_at depth (standing pairs.now)) names.now) }
{
    let mut list = Items::new(alloc);
    for name in names {
        list.push(seen(place_of(pairs, *name), depth)?)?;
    }
    Ok(list)
}

/// The expression of a term, one select further in than a list at the depth.
fn value_at(
    alloc: Global,
    w: &Writer<'_>,
    depth: usize,
    pairs: &[(u32, ItemColumn)],
    ty: Ty,
    term: &Term,
) -> Result<Expr, NoMemory>
    ensures { IfOk result (λ e. e
        ≡ spec.value_at (making w.now) depth (standing pairs.now) ty term.now) }
{
    let Some(e) = w.table.get(term.expr as usize) else {
        return null(alloc, ty);
    };
    let inside = after(depth)?;
    let columns = columns_of(alloc, inside, pairs, term.names.as_slice())?;
    let other = seen(nowhere(), inside)?;
    place(alloc, ty, e, columns.as_slice(), other)
}

/// A term as an item of a select.
pub(crate) fn let_at(
    alloc: Global,
    w: &Writer<'_>,
    depth: usize,
    pairs: &[(u32, ItemColumn)],
    alias: usize,
    ty: Ty,
    term: &Term,
) -> Result<FromItem, NoMemory>
    ensures { IfOk result (λ i. i
        ≡ spec.let_at (making w.now) depth (standing pairs.now) alias ty term.now) }
{
    let value = value_at(alloc, w, depth, pairs, ty, term)?;
    let_as(alloc, alias, value)
}
