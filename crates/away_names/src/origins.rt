//! Items of FROM, for parts whose names are resolved.

ghost use Rattle.std.specs.Prelude.{◌≡◌, IfOk, map, drop, ◌∷◌, if◌then◌else◌};
ghost use Rattle.std.specs.Option.{option_copied};
ghost use Rattle.away_names.specs.Naming as spec;
ghost use Rattle.away_names.specs.Notes as notes;
ghost use Rattle.away_names.specs.Lookups as lookups;
ghost use Rattle.away_names.specs.Places.{scope};
ghost use Rattle.away_trees.specs.declared.queries.FromItem.{out-FromItem};

use crate::lookups::{has_double, table_named};
use crate::note::{Note, Noted, Origin, Part, Shown, Times, breaks, joined};
use crate::references::{all_written, written};
use crate::rule::Rule;
use crate::scope::{Listed, Scope, Seen};
use away_trees::{FromItem, Query, Source};
use away_values::{Name, NoMemory};
use sqlite_items::{Boxed, Items};
use std::alloc::{AllocError, Global};

// ---- FROM

pub fn copy_names(alloc: Global, names: &[Name]) -> Result<Items<Name>, NoMemory>
    ensures { IfOk result (λ all. all ≡ names.now) }
{
    let mut all = Items::new(alloc);
    for i in 0..names.len() {
        all.push(names[i].copy(alloc)?)?;
    }
    Ok(all)
}

/// Each with its name.
pub fn plain_names(alloc: Global, names: &[Name]) -> Result<Items<Option<Name>>, NoMemory>
    ensures { IfOk result (λ all. all ≡ spec.plain_names names.now) }
{
    let mut all = Items::new(alloc);
    for n in names {
        all.push(Some(n.copy(alloc)?))?;
    }
    Ok(all)
}

#[tactic(auto, unfolding(crate::specs::Naming::once_where))]
fn once_where(recursive: bool) -> Note
    ensures { result ≡ spec.once_where recursive }
{
    Note {
        least: None,
        refers: if recursive { Times::Once } else { Times::Never },
    }
}

fn behind_first(names: &[Name]) -> &[Name]
    ensures { result.now ≡ drop 1 names.now }
{
    match names {
        [] => names,
        [_, more @ ..] => more,
    }
}

#[tactic(auto, unfolding(crate::specs::Naming::of_table))]
fn of_table(alloc: Global, n: &Name, t: Option<&Listed>) -> Result<Noted<Origin>, NoMemory>
    ensures { IfOk result (λ x. x ≡ spec.of_table n.now (option_copied t.entry)) }
{
    match t {
        None => Ok(Noted {
            it: Origin {
                source: Source::Table(n.copy(alloc)?),
                columns: Items::new(alloc),
                names: Items::new(alloc),
            },
            note: breaks(Rule::Tables, true),
        }),
        Some(t) => {
            let columns = copy_names(alloc, t.written.as_slice())?;
            let names = plain_names(alloc, behind_first(t.written.as_slice()))?;
            Ok(Noted {
                it: Origin {
                    source: Source::Table(n.copy(alloc)?),
                    columns,
                    names,
                },
                note: once_where(t.recursive),
            })
        }
    }
}

/// What a table in FROM stands for.
pub fn table(alloc: Global, n: &Name, s: &Scope<'_>) -> Result<Noted<Origin>, NoMemory>
    ensures { IfOk result (λ x. x ≡ notes.also (spec.written (scope s.now) n.now)
        (spec.of_table n.now ((scope s.now).table n.now))) }
{
    let x = of_table(alloc, n, table_named(n, s.tables))?;
    Ok(Noted {
        it: x.it,
        note: joined(written(s, n), x.note),
    })
}

/// The manual: 7.2.1.2, Table and Column Aliases. A list of columns has to be whole, which is our own choice.
#[tactic(auto, unfolding(crate::specs::Naming::names_or))]
pub fn names_or(
    alloc: Global,
    columns: &[Name],
    own: Items<Option<Name>>,
) -> Result<Items<Option<Name>>, NoMemory>
    ensures { IfOk result (λ all. all ≡ spec.names_or columns.now own) }
{
    if columns.is_empty() {
        Ok(own)
    } else {
        plain_names(alloc, columns)
    }
}

/// The source of a subquery.
pub fn origin_of(
    alloc: Global,
    lateral: bool,
    columns: &[Name],
    q: Noted<Shown<Query>>,
) -> Result<Noted<Origin>, NoMemory>
    ensures { IfOk result (λ x. x ≡ notes.mapped (spec.of_query lateral columns.now) q) }
{
    let Noted { it, note } = q;
    let Shown { it, names } = it;
    let names = names_or(alloc, columns, names)?;
    let columns = copy_names(alloc, columns)?;
    let source = Source::Sub(Boxed::new(alloc, it)?, lateral);
    Ok(Noted {
        it: Origin {
            source,
            columns,
            names,
        },
        note,
    })
}

#[tactic(auto, unfolding(crate::specs::Naming::part_note))]
pub fn part_note(s: &Scope<'_>, alias: &Name, columns: &[Name]) -> Note
    ensures { result ≡ spec.part_note (scope s.now) alias.now columns.now }
{
    joined(
        written(s, alias),
        joined(
            all_written(s, columns),
            breaks(Rule::Duplicates, has_double(columns)),
        ),
    )
}

/// A further select around a place, the innermost first.
pub fn nested<'a>(
    alloc: Global,
    level: &'a Items<Seen>,
    outer: &[&'a Items<Seen>],
) -> Result<Vec<&'a Items<Seen>>, AllocError>
    ensures { IfOk result (λ all. map (λ l. l.now) all.items ≡ level.now
        ∷ map (λ l. l.now) outer.now) }
{
    let mut all = Vec::new(alloc);
    all.push(level)?;
    all.extend_from_slice(outer)?;
    Ok(all)
}

/// What a subquery sees of its own FROM. The manual: 7.2.1.5, LATERAL Subqueries.
pub fn before<'a>(lateral: bool, level: &'a Items<Seen>, empty: &'a Items<Seen>) -> &'a Items<Seen>
    ensures { result.now ≡ (if lateral then level.now else empty.now) }
{
    if lateral { level } else { empty }
}

fn alias_among(n: &Name, items: &[FromItem]) -> bool
    ensures { result ≡ lookups.is_among n.now (map (λ f. (out-FromItem f).alias) items.now) }
{
    for f in items {
        if f.alias.text() == n.text() {
            return true;
        }
    }
    false
}

/// Whether two items have one alias. That is 42712, duplicate_alias.
#[tactic(auto, unfolding(crate::specs::Lookups::has_double))]
pub fn alias_doubled(items: &[FromItem]) -> bool
    ensures { result ≡ lookups.has_double (map (λ f. (out-FromItem f).alias) items.now) }
{
    let mut rest = items;
    while let [f, more @ ..] = rest {
        if alias_among(&f.alias, more) {
            return true;
        }
        rest = more;
    }
    false
}

/// An item of FROM, where its source is resolved.
pub fn part_of(
    alloc: Global,
    s: &Scope<'_>,
    alias: &Name,
    columns: &[Name],
    x: Noted<Origin>,
) -> Result<Noted<Part>, NoMemory>
    ensures { IfOk result (λ r. r ≡ notes.also (spec.part_note (scope s.now) alias.now columns.now)
        (notes.mapped (spec.shaped alias.now) x)) }
{
    let found = part_note(s, alias, columns);
    let item_alias = alias.copy(alloc)?;
    let seen_alias = alias.copy(alloc)?;
    let Noted { it, note } = x;
    let Origin {
        source,
        columns,
        names,
    } = it;
    Ok(Noted {
        it: Part {
            item: FromItem {
                source,
                alias: item_alias,
                columns,
            },
            seen: Seen {
                alias: seen_alias,
                columns: names,
            },
        },
        note: joined(found, note),
    })
}
