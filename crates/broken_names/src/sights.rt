//! Items of FROM as names see them.

ghost use Rattle.std.specs.Prelude.{◌≡◌, IfOk};
ghost use Rattle.away_names.specs.Lookups.{inside};
ghost use Rattle.away_names.specs.Naming as naming;
ghost use Rattle.away_names.specs.NamingLists as lists;
ghost use Rattle.away_names.specs.Places.{scope};
ghost use Rattle.away_names.specs.Trees as trees;
ghost use Rattle.broken_names.specs.Holds.{seen_of};

use away_names::naming_queries::named_query;
use away_names::note::{Noted, Origin, Part, Shown};
use away_names::origins::{before, nested, origin_of, part_of, table};
use away_names::scope::{Scope, Seen};
use away_trees::{FromItem, Query, Source};
use away_values::{Name, NoMemory};
use sqlite_items::Items;
use std::alloc::Global;

fn named_beside(
    alloc: Global,
    q: &Query,
    lateral: bool,
    s: &Scope<'_>,
    level: &Items<Seen>,
) -> Result<Noted<Shown<Query>>, NoMemory>
    ensures { IfOk result (λ x. x
        ≡ trees.named_query q.now (inside (naming.before lateral level.now) (scope s.now))) }
{
    let empty = Items::new(alloc);
    let levels = nested(alloc, before(lateral, level, &empty), s.levels)?;
    let inner = Scope {
        tables: s.tables,
        levels: levels.as_slice(),
        variables: s.variables,
        in_function: s.in_function,
    };
    named_query(alloc, q, &inner)
}

#[tactic(auto, using(away_names::proofs::NamingRules::source_rules))]
fn named_source(
    alloc: Global,
    source: &Source,
    columns: &[Name],
    s: &Scope<'_>,
    level: &Items<Seen>,
) -> Result<Noted<Origin>, NoMemory>
    ensures { IfOk result (λ x. x ≡ trees.named_source source.now columns.now
        (scope s.now) level.now) }
{
    match source {
        Source::Table(n) => table(alloc, n, s),
        Source::Sub(q, lateral) => {
            let x = named_beside(alloc, q.get(), *lateral, s, level)?;
            origin_of(alloc, *lateral, columns, x)
        }
    }
}

#[tactic(auto, using(away_names::proofs::NamingRules::part_rule))]
fn named_part(
    alloc: Global,
    f: &FromItem,
    s: &Scope<'_>,
    level: &Items<Seen>,
) -> Result<Noted<Part>, NoMemory>
    ensures { IfOk result (λ x. x ≡ trees.named_part f.now (scope s.now) level.now) }
{
    let x = named_source(alloc, &f.source, f.columns.as_slice(), s, level)?;
    part_of(alloc, s, &f.alias, f.columns.as_slice(), x)
}

/// An item behind those that are in sight.
pub(crate) fn seen_item(
    alloc: Global,
    f: &FromItem,
    s: &Scope<'_>,
    level: &Items<Seen>,
) -> Result<Seen, NoMemory>
    ensures { IfOk result (λ x. x ≡ seen_of (scope s.now) level.now f.now) }
{
    let Noted { it, note: _ } = named_part(alloc, f, s, level)?;
    let Part { item: _, seen } = it;
    Ok(seen)
}

/// The items of a FROM.
pub(crate) fn seen_from(
    alloc: Global,
    from: &[FromItem],
    s: &Scope<'_>,
) -> Result<Items<Seen>, NoMemory>
    ensures { IfOk result (λ x. x ≡ (lists.named_from (scope s.now) from.now).it.seen) }
{
    let mut seen = Items::new(alloc);
    for f in from {
        let item = seen_item(alloc, f, s, &seen)?;
        seen.push(item)?;
    }
    Ok(seen)
}
