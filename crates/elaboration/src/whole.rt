//! Whole queries with their operations marked.

ghost use Rattle.std.specs.Prelude.{◌≡◌, IfOk};
ghost use Rattle.away_trees.specs.declared.queries.Recursive.{out-Recursive};
ghost use Rattle.elaboration.specs.Whole as spec;

use crate::elaborating_queries::{elaborated_select, elaborated_selects};
use crate::made::Selected;
use away_names::note::Times;
use away_names::origins::copy_names;
use away_trees::{Query, Recursive, Schema, Select};
use away_typing::recursion::{column_types, over_tables, padded, recursive_types, with_table};
use away_typing::shapes::shape_of;
use away_values::{NoMemory, Ty};
use sqlite_items::Items;
use std::alloc::Global;

fn marked_alone(alloc: Global, s: &Schema, selects: &[Select]) -> Result<Query, NoMemory>
    ensures { IfOk result (λ q. q ≡ spec.marked_alone s.now selects.now) }
{
    let tables = column_types(alloc, s)?;
    let Selected { kinds: _, it } = elaborated_selects(alloc, selects, &over_tables(&tables))?;
    Ok(Query {
        recursive: None,
        selects: it,
    })
}

/// The first term, where the recursive table, if that names it, has bigints.
fn first_made(alloc: Global, s: &Schema, r: &Recursive) -> Result<Selected<Items<Select>>, NoMemory>
    ensures { IfOk result (λ x. x ≡ spec.first_made s.now (out-Recursive r.now)) }
{
    let types = padded(alloc, r.columns.as_slice(), &[])?;
    let tables = with_table(alloc, s, types)?;
    elaborated_selects(alloc, r.first.as_slice(), &over_tables(&tables))
}

/// What stands behind the first term, over the tables with the recursive one.
fn marked_over(
    alloc: Global,
    tables: &Items<Items<Ty>>,
    r: &Recursive,
    first: Items<Select>,
    selects: &[Select],
) -> Result<Query, NoMemory>
    ensures { IfOk result (λ q. q
        ≡ spec.marked_over tables.now (out-Recursive r.now) first selects.now) }
{
    let p = over_tables(tables);
    let name = r.name.copy(alloc)?;
    let columns = copy_names(alloc, r.columns.as_slice())?;
    let Selected {
        kinds: _,
        it: second,
    } = elaborated_select(alloc, &r.second, &p)?;
    let Selected { kinds: _, it } = elaborated_selects(alloc, selects, &p)?;
    Ok(Query {
        recursive: Some(Recursive {
            name,
            columns,
            first,
            second,
        }),
        selects: it,
    })
}

/// A whole query, by how often its first term names the recursive table. The manual: 7.8.2, Recursive Queries.
#[tactic(auto, unfolding(crate::specs::Whole::marked_whole))]
pub fn marked_whole(alloc: Global, s: &Schema, first: Times, q: &Query) -> Result<Query, NoMemory>
    ensures { IfOk result (λ x. x ≡ spec.marked_whole s.now first q.now) }
{
    match &q.recursive {
        None => marked_alone(alloc, s, q.selects.as_slice()),
        Some(r) => {
            let Selected { kinds, it } = first_made(alloc, s, r)?;
            let shape = shape_of(alloc, kinds)?;
            let types = recursive_types(alloc, first, r.columns.as_slice(), &shape)?;
            let tables = with_table(alloc, s, types)?;
            marked_over(alloc, &tables, r, it, q.selects.as_slice())
        }
    }
}
