//! What breaks a rule of names in a query.

ghost use Rattle.std.specs.Prelude.{IfOk, IfSome, []};
ghost use Rattle.away_trees.specs.declared.queries.Item.{out-Item};
ghost use Rattle.away_names.specs.Lookups.{inside};
ghost use Rattle.away_names.specs.Naming as naming;
ghost use Rattle.away_names.specs.Places.{scope};
ghost use Rattle.broken_names.specs.Holds.{
  Holds,
  InEither,
  InOne,
  aliases,
  of_body,
  of_expr,
  of_from,
  of_key,
  of_query,
  of_select,
  of_source,
};

use crate::culprit::Culprit;
use crate::expressions::{in_expr, in_maybe};
use crate::sights::{seen_from, seen_item};
use crate::single_names::{broken_key, broken_table};
use away_names::origins::{before, nested};
use away_names::rule::Rule;
use away_names::scope::{Scope, Seen};
use away_trees::{FromItem, Item, Key, Query, Select, Source};
use away_values::NoMemory;
use sqlite_items::Items;
use std::alloc::Global;

/// The first of a query that breaks the rule.
#[cycle(culprits)]
pub(crate) fn in_query(
    alloc: Global,
    broken: Rule,
    q: &Query,
    s: &Scope<'_>,
) -> Result<Option<Culprit>, NoMemory>
    ensures { IfOk result (λ found. IfSome found (Holds broken (scope s.now) (of_query q.now))) }
{
    in_selects(alloc, broken, q.selects.as_slice(), s)
}

#[cycle(culprits)]
fn in_selects(
    alloc: Global,
    broken: Rule,
    selects: &[Select],
    s: &Scope<'_>,
) -> Result<Option<Culprit>, NoMemory>
    ensures { IfOk result (λ found. IfSome found
        (InOne of_select broken (scope s.now) selects.now)) }
{
    for x in selects {
        if let Some(found) = in_select(alloc, broken, x, s)? {
            return Ok(Some(found));
        }
    }
    Ok(None)
}

/// The first of a select that breaks the rule.
#[cycle(culprits)]
pub(crate) fn in_select(
    alloc: Global,
    broken: Rule,
    x: &Select,
    s: &Scope<'_>,
) -> Result<Option<Culprit>, NoMemory>
    ensures { IfOk result (λ found. IfSome found (Holds broken (scope s.now) (of_select x.now))) }
{
    let seen = seen_from(alloc, x.from.as_slice(), s)?;
    let levels = nested(alloc, &seen, s.levels)?;
    let inner = Scope {
        tables: s.tables,
        levels: levels.as_slice(),
        variables: s.variables,
        in_function: s.in_function,
    };
    in_parts(alloc, broken, x, s, &inner)
}

/// What stands before FROM, FROM, and what stands behind it.
#[cycle(culprits)]
fn in_parts(
    alloc: Global,
    broken: Rule,
    x: &Select,
    s: &Scope<'_>,
    inner: &Scope<'_>,
) -> Result<Option<Culprit>, NoMemory>
    ensures { IfOk result (λ found. IfSome found
        (InEither broken (scope s.now) (scope inner.now) x.now)) }
{
    match in_items(alloc, broken, x.list.as_slice(), inner)? {
        Some(found) => Ok(Some(found)),
        None => match in_from(alloc, broken, x.from.as_slice(), s)? {
            Some(found) => Ok(Some(found)),
            None => in_rest(alloc, broken, x, inner),
        },
    }
}

/// The condition, the keys and LIMIT.
#[cycle(culprits)]
fn in_rest(
    alloc: Global,
    broken: Rule,
    x: &Select,
    s: &Scope<'_>,
) -> Result<Option<Culprit>, NoMemory>
    ensures { IfOk result (λ found. IfSome found (Holds broken (scope s.now) (of_body x.now))) }
{
    match in_maybe(alloc, broken, &x.filter, s)? {
        Some(found) => Ok(Some(found)),
        None => match in_keys(alloc, broken, x.order.as_slice(), x.list.as_slice(), s)? {
            Some(found) => Ok(Some(found)),
            None => in_maybe(alloc, broken, &x.limit, s),
        },
    }
}

#[cycle(culprits)]
fn in_items(
    alloc: Global,
    broken: Rule,
    list: &[Item],
    s: &Scope<'_>,
) -> Result<Option<Culprit>, NoMemory>
    ensures { IfOk result (λ found. IfSome found (InOne (λ i. of_expr (out-Item i).expr) broken (scope s.now) list.now)) }
{
    for item in list {
        if let Some(found) = in_expr(alloc, broken, &item.expr, s)? {
            return Ok(Some(found));
        }
    }
    Ok(None)
}

#[cycle(culprits)]
fn in_keys(
    alloc: Global,
    broken: Rule,
    keys: &[Key],
    list: &[Item],
    s: &Scope<'_>,
) -> Result<Option<Culprit>, NoMemory>
    ensures { IfOk result (λ found. IfSome found
        (InOne (of_key (aliases list.now)) broken (scope s.now) keys.now)) }
{
    for key in keys {
        if let Some(found) = in_key(alloc, broken, key, list, s)? {
            return Ok(Some(found));
        }
    }
    Ok(None)
}

#[cycle(culprits)]
fn in_key(
    alloc: Global,
    broken: Rule,
    key: &Key,
    list: &[Item],
    s: &Scope<'_>,
) -> Result<Option<Culprit>, NoMemory>
    ensures { IfOk result (λ found. IfSome found
        (Holds broken (scope s.now) (of_key (aliases list.now) key.now))) }
{
    match broken_key(alloc, broken, key, list, s)? {
        Some(found) => Ok(Some(found)),
        None => in_expr(alloc, broken, &key.expr, s),
    }
}

/// The items of FROM, each of which sees those before it.
#[cycle(culprits)]
fn in_from(
    alloc: Global,
    broken: Rule,
    from: &[FromItem],
    s: &Scope<'_>,
) -> Result<Option<Culprit>, NoMemory>
    ensures { IfOk result (λ found. IfSome found
        (Holds broken (scope s.now) (of_from [] from.now))) }
{
    let mut seen = Items::new(alloc);
    for f in from {
        if let Some(found) = in_source(alloc, broken, &f.source, s, &seen)? {
            return Ok(Some(found));
        }
        let item = seen_item(alloc, f, s, &seen)?;
        seen.push(item)?;
    }
    Ok(None)
}

#[cycle(culprits)]
fn in_source(
    alloc: Global,
    broken: Rule,
    source: &Source,
    s: &Scope<'_>,
    level: &Items<Seen>,
) -> Result<Option<Culprit>, NoMemory>
    ensures { IfOk result (λ found. IfSome found
        (Holds broken (scope s.now) (of_source level.now source.now))) }
{
    match source {
        Source::Table(n) => broken_table(alloc, broken, n, s),
        Source::Sub(q, lateral) => in_beside(alloc, broken, q.get(), *lateral, s, level),
    }
}

/// A subquery beside the items before it.
#[cycle(culprits)]
fn in_beside(
    alloc: Global,
    broken: Rule,
    q: &Query,
    lateral: bool,
    s: &Scope<'_>,
    level: &Items<Seen>,
) -> Result<Option<Culprit>, NoMemory>
    ensures { IfOk result (λ found. IfSome found
        (Holds broken (inside (naming.before lateral level.now) (scope s.now)) (of_query q.now))) }
{
    let empty = Items::new(alloc);
    let levels = nested(alloc, before(lateral, level, &empty), s.levels)?;
    let inner = Scope {
        tables: s.tables,
        levels: levels.as_slice(),
        variables: s.variables,
        in_function: s.in_function,
    };
    in_query(alloc, broken, q, &inner)
}
