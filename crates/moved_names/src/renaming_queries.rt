//! Selects and queries in which the variables have other names.

ghost use Rattle.std.specs.Prelude.{◌≡◌, IfOk, map, option_map};
ghost use Rattle.moved_names.specs.Renamed as spec;

use crate::renaming::{renamed_expr, renamed_maybe, renamed_subquery};
use crate::sight::Sight;
use away_names::listings::copy_alias;
use away_names::origins::copy_names;
use away_trees::{FromItem, Item, Key, Query, Recursive, Select, Source};
use away_values::NoMemory;
use sqlite_items::Items;
use std::alloc::Global;

#[cycle(renaming)]
#[tactic(auto, using(crate::proofs::RenamingRules::query_rule))]
pub(crate) fn renamed_query(alloc: Global, q: &Query, s: &Sight<'_>) -> Result<Query, NoMemory>
    ensures { IfOk result (λ x. x ≡ spec.renamed_query (spec.moving s.now) q.now) }
{
    let recursive = renamed_with(alloc, &q.recursive, s)?;
    let selects = renamed_selects(alloc, q.selects.as_slice(), s)?;
    Ok(Query { recursive, selects })
}

#[cycle(renaming)]
fn renamed_with(
    alloc: Global,
    r: &Option<Recursive>,
    s: &Sight<'_>,
) -> Result<Option<Recursive>, NoMemory>
    ensures { IfOk result (λ x. x ≡ option_map (spec.renamed_recursive (spec.moving s.now)) r.now) }
{
    match r {
        None => Ok(None),
        Some(r) => Ok(Some(renamed_recursive(alloc, r, s)?)),
    }
}

#[cycle(renaming)]
#[tactic(auto, using(crate::proofs::RenamingRules::recursive_rule))]
fn renamed_recursive(alloc: Global, r: &Recursive, s: &Sight<'_>) -> Result<Recursive, NoMemory>
    ensures { IfOk result (λ x. x ≡ spec.renamed_recursive (spec.moving s.now) r.now) }
{
    let name = r.name.copy(alloc)?;
    let columns = copy_names(alloc, r.columns.as_slice())?;
    let first = renamed_selects(alloc, r.first.as_slice(), s)?;
    let second = renamed_select(alloc, &r.second, s)?;
    Ok(Recursive {
        name,
        columns,
        first,
        second,
    })
}

#[cycle(renaming)]
fn renamed_selects(
    alloc: Global,
    selects: &[Select],
    s: &Sight<'_>,
) -> Result<Items<Select>, NoMemory>
    ensures { IfOk result (λ xs. xs ≡ map (spec.renamed_select (spec.moving s.now)) selects.now) }
{
    let mut done = Items::new(alloc);
    for select in selects {
        done.push(renamed_select(alloc, select, s)?)?;
    }
    Ok(done)
}

#[cycle(renaming)]
#[tactic(auto, using(crate::proofs::RenamingRules::select_rule))]
pub fn renamed_select(alloc: Global, select: &Select, s: &Sight<'_>) -> Result<Select, NoMemory>
    ensures { IfOk result (λ x. x ≡ spec.renamed_select (spec.moving s.now) select.now) }
{
    let list = renamed_items(alloc, select.list.as_slice(), s)?;
    let from = renamed_from(alloc, select.from.as_slice(), s)?;
    let filter = renamed_maybe(alloc, &select.filter, s)?;
    let order = renamed_keys(alloc, select.order.as_slice(), s)?;
    let limit = renamed_maybe(alloc, &select.limit, s)?;
    Ok(Select {
        list,
        from,
        filter,
        order,
        limit,
    })
}

#[cycle(renaming)]
fn renamed_items(alloc: Global, list: &[Item], s: &Sight<'_>) -> Result<Items<Item>, NoMemory>
    ensures { IfOk result (λ xs. xs ≡ map (spec.renamed_item (spec.moving s.now)) list.now) }
{
    let mut done = Items::new(alloc);
    for item in list {
        done.push(renamed_item(alloc, item, s)?)?;
    }
    Ok(done)
}

#[cycle(renaming)]
#[tactic(auto, using(crate::proofs::RenamingRules::item_rule))]
fn renamed_item(alloc: Global, item: &Item, s: &Sight<'_>) -> Result<Item, NoMemory>
    ensures { IfOk result (λ x. x ≡ spec.renamed_item (spec.moving s.now) item.now) }
{
    let expr = renamed_expr(alloc, &item.expr, s)?;
    let alias = copy_alias(alloc, &item.alias)?;
    Ok(Item { expr, alias })
}

#[cycle(renaming)]
fn renamed_keys(alloc: Global, keys: &[Key], s: &Sight<'_>) -> Result<Items<Key>, NoMemory>
    ensures { IfOk result (λ xs. xs ≡ map (spec.renamed_key (spec.moving s.now)) keys.now) }
{
    let mut done = Items::new(alloc);
    for key in keys {
        done.push(renamed_key(alloc, key, s)?)?;
    }
    Ok(done)
}

#[cycle(renaming)]
#[tactic(auto, using(crate::proofs::RenamingRules::key_rule))]
fn renamed_key(alloc: Global, key: &Key, s: &Sight<'_>) -> Result<Key, NoMemory>
    ensures { IfOk result (λ x. x ≡ spec.renamed_key (spec.moving s.now) key.now) }
{
    Ok(Key {
        expr: renamed_expr(alloc, &key.expr, s)?,
        descending: key.descending,
    })
}

#[cycle(renaming)]
fn renamed_from(
    alloc: Global,
    from: &[FromItem],
    s: &Sight<'_>,
) -> Result<Items<FromItem>, NoMemory>
    ensures { IfOk result (λ xs. xs ≡ map (spec.renamed_part (spec.moving s.now)) from.now) }
{
    let mut done = Items::new(alloc);
    for f in from {
        done.push(renamed_part(alloc, f, s)?)?;
    }
    Ok(done)
}

#[cycle(renaming)]
#[tactic(auto, using(crate::proofs::RenamingRules::part_rule))]
fn renamed_part(alloc: Global, f: &FromItem, s: &Sight<'_>) -> Result<FromItem, NoMemory>
    ensures { IfOk result (λ x. x ≡ spec.renamed_part (spec.moving s.now) f.now) }
{
    let source = renamed_source(alloc, &f.source, s)?;
    let alias = f.alias.copy(alloc)?;
    let columns = copy_names(alloc, f.columns.as_slice())?;
    Ok(FromItem {
        source,
        alias,
        columns,
    })
}

#[cycle(renaming)]
#[tactic(auto, using(crate::proofs::RenamingRules::source_rules))]
fn renamed_source(alloc: Global, source: &Source, s: &Sight<'_>) -> Result<Source, NoMemory>
    ensures { IfOk result (λ x. x ≡ spec.renamed_source (spec.moving s.now) source.now) }
{
    match source {
        Source::Table(name) => Ok(Source::Table(name.copy(alloc)?)),
        Source::Sub(q, lateral) => Ok(Source::Sub(renamed_subquery(alloc, q.get(), s)?, *lateral)),
    }
}
