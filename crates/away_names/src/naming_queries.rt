//! Queries with what their names stand for, and the least rule that their names break.

ghost use Rattle.std.specs.Prelude.{◌≡◌, IfOk, map, is_some};
ghost use Rattle.away_trees.specs.declared.queries.Item.{out-Item};
ghost use Rattle.away_trees.specs.declared.queries.Select.{out-Select};
ghost use Rattle.away_names.specs.Lookups.{inside};
ghost use Rattle.away_names.specs.Naming as spec;
ghost use Rattle.away_names.specs.NamingLists as lists;
ghost use Rattle.away_names.specs.Notes as notes;
ghost use Rattle.away_names.specs.Places.{scope};
ghost use Rattle.away_names.specs.Trees as trees;

use crate::listings::{column_of, first_names, is_alias, select_of};
use crate::naming::{named_expr, named_maybe};
use crate::note::{Column, Framed, Noted, Origin, Part, Shown, breaks, clean, joined};
use crate::origins::{alias_doubled, before, nested, origin_of, part_of, table};
use crate::rule::Rule;
use crate::scope::{Scope, Seen};
use away_trees::{FromItem, Item, Key, Query, Select, Source};
use away_values::{Name, NoMemory};
use sqlite_items::Items;
use std::alloc::Global;

// ---- queries

/// A query, with the names of its columns.
#[cycle(naming)]
#[tactic(auto, using(crate::proofs::NamingRules::query_rule))]
pub fn named_query(alloc: Global, q: &Query, s: &Scope<'_>) -> Result<Noted<Shown<Query>>, NoMemory>
    ensures { IfOk result (λ x. x ≡ trees.named_query q.now (scope s.now)) }
{
    let found = breaks(Rule::Types, q.recursive.is_some());
    let Noted { it, note } = named_selects(alloc, q.selects.as_slice(), s)?;
    let Shown { it, names } = it;
    Ok(Noted {
        it: Shown {
            it: Query {
                recursive: None,
                selects: it,
            },
            names,
        },
        note: joined(found, note),
    })
}

#[cycle(naming)]
pub fn named_selects(
    alloc: Global,
    selects: &[Select],
    s: &Scope<'_>,
) -> Result<Noted<Shown<Items<Select>>>, NoMemory>
    ensures { IfOk result (λ x. x ≡ lists.named_selects (scope s.now) selects.now) }
{
    let mut done = Items::new(alloc);
    let mut names = Items::new(alloc);
    let mut note = clean();
    for select in selects {
        let Noted { it, note: more } = named_select(alloc, select, s)?;
        let Shown { it, names: own } = it;
        names = first_names(&done, names, own);
        done.push(it)?;
        note = joined(note, more);
    }
    Ok(Noted {
        it: Shown { it: done, names },
        note,
    })
}

/// A select, with the names of its columns.
#[cycle(naming)]
#[tactic(auto, using(crate::proofs::NamingRules::select_rule))]
pub fn named_select(
    alloc: Global,
    select: &Select,
    s: &Scope<'_>,
) -> Result<Noted<Shown<Select>>, NoMemory>
    ensures { IfOk result (λ x. x ≡ trees.named_select select.now (scope s.now)) }
{
    let found = breaks(Rule::Duplicates, alias_doubled(select.from.as_slice()));
    let Noted { it, note } = named_from(alloc, select.from.as_slice(), s)?;
    let Framed { items, seen } = it;
    let x = named_over(alloc, select, &seen, items, s)?;
    Ok(Noted {
        it: x.it,
        note: joined(joined(found, note), x.note),
    })
}

/// What stands over the items of FROM.
#[cycle(naming)]
fn named_over(
    alloc: Global,
    select: &Select,
    seen: &Items<Seen>,
    from: Items<FromItem>,
    s: &Scope<'_>,
) -> Result<Noted<Shown<Select>>, NoMemory>
    ensures { IfOk result (λ x. x ≡ lists.named_over (out-Select select.now)
        (inside seen.now (scope s.now)) from) }
{
    let levels = nested(alloc, seen, s.levels)?;
    let inner = Scope {
        tables: s.tables,
        levels: levels.as_slice(),
        variables: s.variables,
        in_function: s.in_function,
    };
    named_inner(alloc, select, from, &inner)
}

#[cycle(naming)]
fn named_inner(
    alloc: Global,
    select: &Select,
    from: Items<FromItem>,
    s: &Scope<'_>,
) -> Result<Noted<Shown<Select>>, NoMemory>
    ensures { IfOk result (λ x. x ≡ lists.named_over (out-Select select.now) (scope s.now) from) }
{
    let list = named_items(alloc, select.list.as_slice(), s)?;
    let filter = named_maybe(alloc, &select.filter, s)?;
    let order = named_keys(alloc, select.order.as_slice(), select.list.as_slice(), s)?;
    let limit = named_maybe(alloc, &select.limit, s)?;
    Ok(select_of(from, list, filter, order, limit))
}

#[cycle(naming)]
fn named_items(
    alloc: Global,
    list: &[Item],
    s: &Scope<'_>,
) -> Result<Noted<Shown<Items<Item>>>, NoMemory>
    ensures { IfOk result (λ x. x ≡ lists.named_items (scope s.now) list.now) }
{
    let mut done = Items::new(alloc);
    let mut names = Items::new(alloc);
    let mut note = clean();
    for item in list {
        let Noted { it, note: more } = named_item(alloc, item, s)?;
        let Column { it, name } = it;
        done.push(it)?;
        names.push(name)?;
        note = joined(note, more);
    }
    Ok(Noted {
        it: Shown { it: done, names },
        note,
    })
}

#[cycle(naming)]
#[tactic(auto, using(crate::proofs::NamingRules::item_rule))]
fn named_item(alloc: Global, item: &Item, s: &Scope<'_>) -> Result<Noted<Column>, NoMemory>
    ensures { IfOk result (λ x. x ≡ trees.named_item item.now (scope s.now)) }
{
    let x = named_expr(alloc, &item.expr, s)?;
    column_of(alloc, s, &item.alias, &item.expr, x)
}

#[cycle(naming)]
fn named_keys(
    alloc: Global,
    keys: &[Key],
    list: &[Item],
    s: &Scope<'_>,
) -> Result<Noted<Items<Key>>, NoMemory>
    ensures { IfOk result (λ x. x ≡ notes.each
        (lists.named_key_in (map (λ i. (out-Item i).alias) list.now) (scope s.now)) keys.now) }
{
    let mut done = Items::new(alloc);
    let mut note = clean();
    for key in keys {
        let x = named_key(alloc, key, list, s)?;
        done.push(x.it)?;
        note = joined(note, x.note);
    }
    Ok(Noted { it: done, note })
}

#[cycle(naming)]
#[tactic(auto, using(crate::proofs::NamingRules::key_rule))]
fn named_key(alloc: Global, key: &Key, list: &[Item], s: &Scope<'_>) -> Result<Noted<Key>, NoMemory>
    ensures { IfOk result (λ x. x ≡ trees.named_key key.now (map (λ i. (out-Item i).alias) list.now)
        (scope s.now)) }
{
    let found = breaks(Rule::Ambiguity, is_alias(list, &key.expr));
    let x = named_expr(alloc, &key.expr, s)?;
    Ok(Noted {
        it: Key {
            expr: x.it,
            descending: key.descending,
        },
        note: joined(found, x.note),
    })
}

/// The items of FROM, each of which sees those before it.
#[cycle(naming)]
fn named_from(alloc: Global, from: &[FromItem], s: &Scope<'_>) -> Result<Noted<Framed>, NoMemory>
    ensures { IfOk result (λ x. x ≡ lists.named_from (scope s.now) from.now) }
{
    let mut items = Items::new(alloc);
    let mut seen = Items::new(alloc);
    let mut note = clean();
    for f in from {
        let Noted { it, note: more } = named_part(alloc, f, s, &seen)?;
        let Part {
            item,
            seen: as_seen,
        } = it;
        items.push(item)?;
        seen.push(as_seen)?;
        note = joined(note, more);
    }
    Ok(Noted {
        it: Framed { items, seen },
        note,
    })
}

#[cycle(naming)]
#[tactic(auto, using(crate::proofs::NamingRules::part_rule))]
fn named_part(
    alloc: Global,
    f: &FromItem,
    s: &Scope<'_>,
    level: &Items<Seen>,
) -> Result<Noted<Part>, NoMemory>
    ensures { IfOk result (λ x. x ≡ trees.named_part f.now (scope s.now) level.now) }
{
    let x = named_source(alloc, &f.source, f.columns.as_slice(), s, level)?;
    part_of(alloc, s, &f.alias, f.columns.as_slice(), x)
}

#[cycle(naming)]
#[tactic(auto, using(crate::proofs::NamingRules::source_rules))]
fn named_source(
    alloc: Global,
    source: &Source,
    columns: &[Name],
    s: &Scope<'_>,
    level: &Items<Seen>,
) -> Result<Noted<Origin>, NoMemory>
    ensures { IfOk result (λ x. x ≡ trees.named_source source.now columns.now
        (scope s.now) level.now) }
{
    match source {
        Source::Table(n) => table(alloc, n, s),
        Source::Sub(q, lateral) => {
            let x = named_beside(alloc, q.get(), *lateral, s, level)?;
            origin_of(alloc, *lateral, columns, x)
        }
    }
}

/// A subquery beside the items before it.
#[cycle(naming)]
fn named_beside(
    alloc: Global,
    q: &Query,
    lateral: bool,
    s: &Scope<'_>,
    level: &Items<Seen>,
) -> Result<Noted<Shown<Query>>, NoMemory>
    ensures { IfOk result (λ x. x
        ≡ trees.named_query q.now (inside (spec.before lateral level.now) (scope s.now))) }
{
    let empty = Items::new(alloc);
    let levels = nested(alloc, before(lateral, level, &empty), s.levels)?;
    let inner = Scope {
        tables: s.tables,
        levels: levels.as_slice(),
        variables: s.variables,
        in_function: s.in_function,
    };
    named_query(alloc, q, &inner)
}
