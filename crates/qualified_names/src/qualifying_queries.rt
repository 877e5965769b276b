//! Queries with names again.

ghost use Rattle.std.specs.Prelude.{◌≡◌, ◌∷◌, IfOk, map, option_map};
ghost use Rattle.away_names.specs.Naming.{before};
ghost use Rattle.away_trees.specs.declared.queries.Select.{out-Select};
ghost use Rattle.qualified_names.specs.Qualifying as steps;
ghost use Rattle.qualified_names.specs.Sight.{sight};
ghost use Rattle.qualified_names.specs.Trees as spec;

use crate::parts::{entry_of, part_of, subquery, table};
use crate::qualifying::{qualified_expr, qualified_maybe};
use crate::sight::Sight;
use away_names::listings::first_names;
use away_names::note::{Column, Framed, Origin, Part, Shown};
use away_names::origins::{before, copy_names, nested};
use away_names::scope::Seen;
use away_trees::{FromItem, Item, Key, Query, Recursive, Select, Source};
use away_values::{Name, NoMemory};
use sqlite_items::Items;
use std::alloc::Global;

/// The query whose columns stand by their places, with names again: each column is the alias of its item, a point and its name.
pub fn qualified_query(alloc: Global, q: &Query) -> Result<Query, NoMemory>
    ensures { IfOk result (λ x. x ≡ spec.qualified q.now) }
{
    let Shown { it, names: _ } = qualified_shown(alloc, q, &Sight { levels: &[] })?;
    Ok(it)
}

/// A query, with the names of its columns.
#[cycle(qualifying)]
#[tactic(auto, using(crate::proofs::QualifyingRules::query_rule))]
pub(crate) fn qualified_shown(
    alloc: Global,
    q: &Query,
    s: &Sight<'_>,
) -> Result<Shown<Query>, NoMemory>
    ensures { IfOk result (λ x. x ≡ spec.qualified_shown q.now (sight s.now)) }
{
    let recursive = qualified_with(alloc, &q.recursive, s)?;
    let Shown { it, names } = qualified_selects(alloc, q.selects.as_slice(), s)?;
    Ok(Shown {
        it: Query {
            recursive,
            selects: it,
        },
        names,
    })
}

#[cycle(qualifying)]
fn qualified_with(
    alloc: Global,
    r: &Option<Recursive>,
    s: &Sight<'_>,
) -> Result<Option<Recursive>, NoMemory>
    ensures { IfOk result (λ x. x
        ≡ option_map (λ r. spec.qualified_recursive r (sight s.now)) r.now) }
{
    match r {
        None => Ok(None),
        Some(r) => Ok(Some(qualified_recursive(alloc, r, s)?)),
    }
}

#[cycle(qualifying)]
#[tactic(auto, using(crate::proofs::QualifyingRules::recursive_rule))]
fn qualified_recursive(alloc: Global, r: &Recursive, s: &Sight<'_>) -> Result<Recursive, NoMemory>
    ensures { IfOk result (λ x. x ≡ spec.qualified_recursive r.now (sight s.now)) }
{
    let name = r.name.copy(alloc)?;
    let columns = copy_names(alloc, r.columns.as_slice())?;
    let first = qualified_selects(alloc, r.first.as_slice(), s)?;
    let second = qualified_select(alloc, &r.second, s)?;
    Ok(Recursive {
        name,
        columns,
        first: first.it,
        second: second.it,
    })
}

#[cycle(qualifying)]
#[tactic(auto, using(crate::proofs::FirstNames::one_by_one))]
fn qualified_selects(
    alloc: Global,
    selects: &[Select],
    s: &Sight<'_>,
) -> Result<Shown<Items<Select>>, NoMemory>
    ensures { IfOk result (λ x. x ≡ spec.qualified_selects (sight s.now) selects.now) }
{
    let mut done = Items::new(alloc);
    let mut names = Items::new(alloc);
    for select in selects {
        let Shown { it, names: own } = qualified_select(alloc, select, s)?;
        names = first_names(&done, names, own);
        done.push(it)?;
    }
    Ok(Shown { it: done, names })
}

/// A select, with the names of its columns.
#[cycle(qualifying)]
#[tactic(auto, using(crate::proofs::QualifyingRules::select_rule))]
fn qualified_select(
    alloc: Global,
    select: &Select,
    s: &Sight<'_>,
) -> Result<Shown<Select>, NoMemory>
    ensures { IfOk result (λ x. x ≡ spec.qualified_select select.now (sight s.now)) }
{
    let Framed { items, seen } = qualified_from(alloc, select.from.as_slice(), s)?;
    let levels = nested(alloc, &seen, s.levels)?;
    let inner = Sight {
        levels: levels.as_slice(),
    };
    qualified_over(alloc, select, items, &inner)
}

/// What stands over the items of FROM.
#[cycle(qualifying)]
fn qualified_over(
    alloc: Global,
    select: &Select,
    from: Items<FromItem>,
    s: &Sight<'_>,
) -> Result<Shown<Select>, NoMemory>
    ensures { IfOk result (λ x. x ≡ spec.qualified_over (out-Select select.now)
        (sight s.now) from) }
{
    let Shown { it: list, names } = qualified_items(alloc, select.list.as_slice(), s)?;
    let filter = qualified_maybe(alloc, &select.filter, s)?;
    let order = qualified_keys(alloc, select.order.as_slice(), s)?;
    let limit = qualified_maybe(alloc, &select.limit, s)?;
    Ok(Shown {
        it: Select {
            list,
            from,
            filter,
            order,
            limit,
        },
        names,
    })
}

#[cycle(qualifying)]
fn qualified_items(
    alloc: Global,
    list: &[Item],
    s: &Sight<'_>,
) -> Result<Shown<Items<Item>>, NoMemory>
    ensures { IfOk result (λ x. x ≡ spec.qualified_items (sight s.now) list.now) }
{
    let mut done = Items::new(alloc);
    let mut names = Items::new(alloc);
    for item in list {
        let Column { it, name } = qualified_item(alloc, item, s)?;
        done.push(it)?;
        names.push(name)?;
    }
    Ok(Shown { it: done, names })
}

#[cycle(qualifying)]
#[tactic(auto, using(crate::proofs::QualifyingRules::item_rule))]
fn qualified_item(alloc: Global, item: &Item, s: &Sight<'_>) -> Result<Column, NoMemory>
    ensures { IfOk result (λ x. x ≡ spec.qualified_item item.now (sight s.now)) }
{
    let x = qualified_expr(alloc, &item.expr, s)?;
    entry_of(alloc, &item.alias, x)
}

#[cycle(qualifying)]
fn qualified_keys(alloc: Global, keys: &[Key], s: &Sight<'_>) -> Result<Items<Key>, NoMemory>
    ensures { IfOk result (λ x. x ≡ spec.qualified_keys (sight s.now) keys.now) }
{
    let mut done = Items::new(alloc);
    for key in keys {
        done.push(qualified_key(alloc, key, s)?)?;
    }
    Ok(done)
}

#[cycle(qualifying)]
#[tactic(auto, using(crate::proofs::QualifyingRules::key_rule))]
fn qualified_key(alloc: Global, key: &Key, s: &Sight<'_>) -> Result<Key, NoMemory>
    ensures { IfOk result (λ x. x ≡ spec.qualified_key key.now (sight s.now)) }
{
    Ok(Key {
        expr: qualified_expr(alloc, &key.expr, s)?,
        descending: key.descending,
    })
}

/// The items of FROM, each of which sees those before it.
#[cycle(qualifying)]
fn qualified_from(alloc: Global, from: &[FromItem], s: &Sight<'_>) -> Result<Framed, NoMemory>
    ensures { IfOk result (λ x. x ≡ spec.qualified_from (sight s.now) from.now) }
{
    let mut items = Items::new(alloc);
    let mut seen = Items::new(alloc);
    for f in from {
        let Part {
            item,
            seen: as_seen,
        } = qualified_part(alloc, f, s, &seen)?;
        items.push(item)?;
        seen.push(as_seen)?;
    }
    Ok(Framed { items, seen })
}

#[cycle(qualifying)]
#[tactic(auto, using(crate::proofs::QualifyingRules::part_rule))]
fn qualified_part(
    alloc: Global,
    f: &FromItem,
    s: &Sight<'_>,
    level: &Items<Seen>,
) -> Result<Part, NoMemory>
    ensures { IfOk result (λ x. x ≡ spec.qualified_part f.now (sight s.now) level.now) }
{
    let x = qualified_source(alloc, &f.source, f.columns.as_slice(), s, level)?;
    part_of(alloc, &f.alias, x)
}

#[cycle(qualifying)]
#[tactic(auto, using(crate::proofs::QualifyingRules::source_rules))]
fn qualified_source(
    alloc: Global,
    source: &Source,
    columns: &[Name],
    s: &Sight<'_>,
    level: &Items<Seen>,
) -> Result<Origin, NoMemory>
    ensures { IfOk result (λ x. x ≡ spec.qualified_source source.now columns.now
        (sight s.now) level.now) }
{
    match source {
        Source::Table(name) => table(alloc, name, columns),
        Source::Sub(q, lateral) => {
            let x = qualified_beside(alloc, q.get(), *lateral, s, level)?;
            subquery(alloc, *lateral, columns, x)
        }
    }
}

/// A subquery beside the items before it.
#[cycle(qualifying)]
fn qualified_beside(
    alloc: Global,
    q: &Query,
    lateral: bool,
    s: &Sight<'_>,
    level: &Items<Seen>,
) -> Result<Shown<Query>, NoMemory>
    ensures { IfOk result (λ x. x
        ≡ spec.qualified_shown q.now (before lateral level.now ∷ sight s.now)) }
{
    let empty = Items::new(alloc);
    let levels = nested(alloc, before(lateral, level, &empty), s.levels)?;
    let inner = Sight {
        levels: levels.as_slice(),
    };
    qualified_shown(alloc, q, &inner)
}
