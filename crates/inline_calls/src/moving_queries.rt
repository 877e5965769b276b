//! Selects and queries in which others stand for slots, or whose columns stand further out.

ghost use Rattle.std.specs.Prelude.{◌≡◌, IfOk, map, option_map};
ghost use Rattle.inline_calls.specs.Leaves.{leaf_of, place_of};
ghost use Rattle.inline_calls.specs.Moving as spec;

use crate::leaves::Moves;
use crate::moving::{moved_expr, moved_maybe, moved_subquery};
use away_names::listings::copy_alias;
use away_names::origins::copy_names;
use away_trees::{FromItem, Item, Key, Query, Recursive, Select, Source};
use away_values::NoMemory;
use cte_parts::after;
use sqlite_items::Items;
use std::alloc::Global;

#[cycle(moving)]
#[tactic(auto, using(crate::proofs::MovingRules::in_query))]
pub(crate) fn moved_query(
    alloc: Global,
    q: &Query,
    m: &Moves<'_>,
    d: usize,
) -> Result<Query, NoMemory>
    ensures { IfOk result (λ x. x ≡ spec.query_in (leaf_of m.now) (place_of m.now) d q.now) }
{
    let recursive = moved_with(alloc, &q.recursive, m, d)?;
    let selects = moved_selects(alloc, q.selects.as_slice(), m, d)?;
    Ok(Query { recursive, selects })
}

#[cycle(moving)]
fn moved_with(
    alloc: Global,
    r: &Option<Recursive>,
    m: &Moves<'_>,
    d: usize,
) -> Result<Option<Recursive>, NoMemory>
    ensures { IfOk result (λ x. x ≡ option_map (spec.recursive_in (leaf_of m.now) (place_of m.now) d) r.now) }
{
    match r {
        None => Ok(None),
        Some(r) => Ok(Some(moved_recursive(alloc, r, m, d)?)),
    }
}

#[cycle(moving)]
#[tactic(auto, using(crate::proofs::MovingRules::in_recursive))]
fn moved_recursive(
    alloc: Global,
    r: &Recursive,
    m: &Moves<'_>,
    d: usize,
) -> Result<Recursive, NoMemory>
    ensures { IfOk result (λ x. x ≡ spec.recursive_in (leaf_of m.now) (place_of m.now) d r.now) }
{
    let name = r.name.copy(alloc)?;
    let columns = copy_names(alloc, r.columns.as_slice())?;
    let first = moved_selects(alloc, r.first.as_slice(), m, d)?;
    let second = moved_select(alloc, &r.second, m, d)?;
    Ok(Recursive {
        name,
        columns,
        first,
        second,
    })
}

#[cycle(moving)]
fn moved_selects(
    alloc: Global,
    selects: &[Select],
    m: &Moves<'_>,
    d: usize,
) -> Result<Items<Select>, NoMemory>
    ensures { IfOk result (λ xs. xs ≡ map (spec.select_in (leaf_of m.now) (place_of m.now) d) selects.now) }
{
    let mut done = Items::new(alloc);
    for select in selects {
        done.push(moved_select(alloc, select, m, d)?)?;
    }
    Ok(done)
}

#[cycle(moving)]
#[tactic(auto, using(crate::proofs::MovingRules::in_select))]
fn moved_select(alloc: Global, select: &Select, m: &Moves<'_>, d: usize) -> Result<Select, NoMemory>
    ensures { IfOk result (λ x. x ≡ spec.select_in (leaf_of m.now) (place_of m.now) d select.now) }
{
    let inside = after(d)?;
    let list = moved_items(alloc, select.list.as_slice(), m, inside)?;
    let from = moved_from(alloc, select.from.as_slice(), m, inside)?;
    let filter = moved_maybe(alloc, &select.filter, m, inside)?;
    let order = moved_keys(alloc, select.order.as_slice(), m, inside)?;
    let limit = moved_maybe(alloc, &select.limit, m, inside)?;
    Ok(Select {
        list,
        from,
        filter,
        order,
        limit,
    })
}

#[cycle(moving)]
pub(crate) fn moved_items(
    alloc: Global,
    list: &[Item],
    m: &Moves<'_>,
    d: usize,
) -> Result<Items<Item>, NoMemory>
    ensures { IfOk result (λ xs. xs ≡ map (spec.item_in (leaf_of m.now) (place_of m.now) d) list.now) }
{
    let mut done = Items::new(alloc);
    for item in list {
        done.push(moved_item(alloc, item, m, d)?)?;
    }
    Ok(done)
}

#[cycle(moving)]
#[tactic(auto, using(crate::proofs::MovingRules::in_item))]
fn moved_item(alloc: Global, item: &Item, m: &Moves<'_>, d: usize) -> Result<Item, NoMemory>
    ensures { IfOk result (λ x. x ≡ spec.item_in (leaf_of m.now) (place_of m.now) d item.now) }
{
    let expr = moved_expr(alloc, &item.expr, m, d)?;
    let alias = copy_alias(alloc, &item.alias)?;
    Ok(Item { expr, alias })
}

#[cycle(moving)]
fn moved_keys(alloc: Global, keys: &[Key], m: &Moves<'_>, d: usize) -> Result<Items<Key>, NoMemory>
    ensures { IfOk result (λ xs. xs ≡ map (spec.key_in (leaf_of m.now) (place_of m.now) d) keys.now) }
{
    let mut done = Items::new(alloc);
    for key in keys {
        done.push(moved_key(alloc, key, m, d)?)?;
    }
    Ok(done)
}

#[cycle(moving)]
#[tactic(auto, using(crate::proofs::MovingRules::in_key))]
fn moved_key(alloc: Global, key: &Key, m: &Moves<'_>, d: usize) -> Result<Key, NoMemory>
    ensures { IfOk result (λ x. x ≡ spec.key_in (leaf_of m.now) (place_of m.now) d key.now) }
{
    Ok(Key {
        expr: moved_expr(alloc, &key.expr, m, d)?,
        descending: key.descending,
    })
}

#[cycle(moving)]
fn moved_from(
    alloc: Global,
    from: &[FromItem],
    m: &Moves<'_>,
    d: usize,
) -> Result<Items<FromItem>, NoMemory>
    ensures { IfOk result (λ xs. xs ≡ map (spec.from_in (leaf_of m.now) (place_of m.now) d) from.now) }
{
    let mut done = Items::new(alloc);
    for f in from {
        done.push(moved_part(alloc, f, m, d)?)?;
    }
    Ok(done)
}

#[cycle(moving)]
#[tactic(auto, using(crate::proofs::MovingRules::in_from))]
fn moved_part(alloc: Global, f: &FromItem, m: &Moves<'_>, d: usize) -> Result<FromItem, NoMemory>
    ensures { IfOk result (λ x. x ≡ spec.from_in (leaf_of m.now) (place_of m.now) d f.now) }
{
    let source = moved_source(alloc, &f.source, m, d)?;
    let alias = f.alias.copy(alloc)?;
    let columns = copy_names(alloc, f.columns.as_slice())?;
    Ok(FromItem {
        source,
        alias,
        columns,
    })
}

#[cycle(moving)]
#[tactic(auto, using(crate::proofs::MovingRules::source_rules))]
fn moved_source(alloc: Global, source: &Source, m: &Moves<'_>, d: usize) -> Result<Source, NoMemory>
    ensures { IfOk result (λ x. x ≡ spec.source_in (leaf_of m.now) (place_of m.now) d source.now) }
{
    match source {
        Source::Table(name) => Ok(Source::Table(name.copy(alloc)?)),
        Source::Sub(q, lateral) => Ok(Source::Sub(moved_subquery(alloc, q.get(), m, d)?, *lateral)),
    }
}
