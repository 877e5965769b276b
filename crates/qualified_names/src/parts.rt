//! Items of lists and of FROM, for parts that have names again.

ghost use Rattle.std.specs.Prelude.{◌≡◌, [], IfOk, drop};
ghost use Rattle.away_names.specs.Naming.{of_query, plain_names, shaped};
ghost use Rattle.away_trees.specs.declared.queries.Source.TheVariants as source;
ghost use Rattle.qualified_names.specs.Qualifying as spec;

use crate::sight::column_name;
use away_names::listings::copy_alias;
use away_names::note::{Column, Origin, Part, Shown};
use away_names::origins::{copy_names, names_or, plain_names};
use away_names::scope::Seen;
use away_trees::{Expr, FromItem, Item, Query, Source};
use away_values::{Name, NoMemory};
use sqlite_items::{Boxed, Items};
use std::alloc::Global;

/// An item of a list.
pub(crate) fn entry_of(alloc: Global, alias: &Option<Name>, e: Expr) -> Result<Column, NoMemory>
    ensures { IfOk result (λ c. c ≡ spec.entry_of alias.now e) }
{
    let name = column_name(alloc, alias, &e)?;
    let alias = copy_alias(alloc, alias)?;
    Ok(Column {
        it: Item { expr: e, alias },
        name,
    })
}

fn behind_first(names: &[Name]) -> &[Name]
    ensures { result.now ≡ drop 1 names.now }
{
    match names {
        [] => names,
        [_, more @ ..] => more,
    }
}

/// A table, whose list of columns has the digits of its place and then their names.
pub(crate) fn table(alloc: Global, name: &Name, columns: &[Name]) -> Result<Origin, NoMemory>
    ensures { IfOk result (λ o. o ≡ record {
      source = source.Table name.now;
      columns = [];
      names = plain_names (drop 1 columns.now);
    }) }
{
    let names = plain_names(alloc, behind_first(columns))?;
    Ok(Origin {
        source: Source::Table(name.copy(alloc)?),
        columns: Items::new(alloc),
        names,
    })
}

/// A subquery in FROM.
pub(crate) fn subquery(
    alloc: Global,
    lateral: bool,
    columns: &[Name],
    q: Shown<Query>,
) -> Result<Origin, NoMemory>
    ensures { IfOk result (λ o. o ≡ of_query lateral columns.now q) }
{
    let Shown { it, names } = q;
    let names = names_or(alloc, columns, names)?;
    let columns = copy_names(alloc, columns)?;
    Ok(Origin {
        source: Source::Sub(Boxed::new(alloc, it)?, lateral),
        columns,
        names,
    })
}

/// An item of FROM.
pub(crate) fn part_of(alloc: Global, alias: &Name, x: Origin) -> Result<Part, NoMemory>
    ensures { IfOk result (λ p. p ≡ shaped alias.now x) }
{
    let item_alias = alias.copy(alloc)?;
    let seen_alias = alias.copy(alloc)?;
    let Origin {
        source,
        columns,
        names,
    } = x;
    Ok(Part {
        item: FromItem {
            source,
            alias: item_alias,
            columns,
        },
        seen: Seen {
            alias: seen_alias,
            columns: names,
        },
    })
}
