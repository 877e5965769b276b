//! Selects and their columns, for parts whose names are resolved.

ghost use Rattle.std.specs.Prelude.{◌≡◌, IfOk, map};
ghost use Rattle.std.specs.Option.{option_copied};
ghost use Rattle.std.specs.List.{list_any};
ghost use Rattle.away_names.specs.Naming as spec;
ghost use Rattle.away_names.specs.Notes as notes;
ghost use Rattle.away_names.specs.Lookups as lookups;
ghost use Rattle.away_names.specs.Places.{scope};
ghost use Rattle.away_names.specs.Trees.{last_of, alone_of};
ghost use Rattle.away_trees.specs.declared.queries.Item.{out-Item};

use crate::lookups::is_named;
use crate::note::{Column, Noted, Shown, joined};
use crate::references::maybe_written;
use crate::scope::Scope;
use away_trees::{Expr, FromItem, Item, Key, Select};
use away_values::{Name, NoMemory};
use sqlite_items::Items;
use std::alloc::Global;

// ---- selects

#[tactic(auto, unfolding(crate::specs::Trees::last_of))]
fn last(e: &Expr) -> Option<&Name>
    ensures { option_copied result ≡ last_of e.now }
{
    match e {
        Expr::Named(n) => Some(n),
        Expr::Dotted(_, n) => Some(n),
        _ => None,
    }
}

#[tactic(auto, unfolding(crate::specs::Trees::alone_of))]
fn alone(e: &Expr) -> Option<&Name>
    ensures { option_copied result ≡ alone_of e.now }
{
    match e {
        Expr::Named(n) => Some(n),
        _ => None,
    }
}

#[tactic(auto, unfolding(crate::specs::Naming::shown))]
fn shown<'a>(e: &Expr, last: Option<&'a Name>) -> Option<&'a Name>
    ensures { option_copied result ≡ spec.shown e.now (option_copied last.entry) }
{
    match e {
        Expr::Column(_) => last,
        _ => None,
    }
}

fn copy_perhaps(alloc: Global, n: Option<&Name>) -> Result<Option<Name>, NoMemory>
    ensures { IfOk result (λ x. x ≡ option_copied n.entry) }
{
    match n {
        None => Ok(None),
        Some(n) => Ok(Some(n.copy(alloc)?)),
    }
}

pub fn copy_alias(alloc: Global, alias: &Option<Name>) -> Result<Option<Name>, NoMemory>
    ensures { IfOk result (λ x. x ≡ alias.now) }
{
    match alias {
        None => Ok(None),
        Some(n) => Ok(Some(n.copy(alloc)?)),
    }
}

/// The name of a column: its alias, or else its own where it is a plain one.
#[tactic(auto, unfolding(crate::specs::Naming::named_as))]
fn named_as(
    alloc: Global,
    alias: &Option<Name>,
    resolved: &Expr,
    written: &Expr,
) -> Result<Option<Name>, NoMemory>
    ensures { IfOk result (λ x. x ≡ spec.named_as alias.now resolved.now (last_of written.now)) }
{
    match alias {
        Some(n) => Ok(Some(n.copy(alloc)?)),
        None => copy_perhaps(alloc, shown(resolved, last(written))),
    }
}

/// An item of a list, where its expression is resolved.
/// The manual: 7.3.2, Column Labels. That what isn't a column alone has no name is our own choice.
pub fn column_of(
    alloc: Global,
    s: &Scope<'_>,
    alias: &Option<Name>,
    written: &Expr,
    x: Noted<Expr>,
) -> Result<Noted<Column>, NoMemory>
    ensures { IfOk result (λ r. r ≡ notes.also (spec.maybe_written (scope s.now) alias.now)
        (notes.mapped (spec.item_of alias.now (last_of written.now)) x)) }
{
    let name = named_as(alloc, alias, &x.it, written)?;
    let alias_copy = copy_alias(alloc, alias)?;
    Ok(Noted {
        it: Column {
            it: Item {
                expr: x.it,
                alias: alias_copy,
            },
            name,
        },
        note: joined(maybe_written(s, alias), x.note),
    })
}

fn any_alias(n: &Name, list: &[Item]) -> bool
    ensures { result ≡ list_any (lookups.is_named n.now) (map (λ i. (out-Item i).alias) list.now) }
{
    for i in list {
        if is_named(n, &i.alias) {
            return true;
        }
    }
    false
}

/// Whether a key is an alias of the list alone. The manual: 7.5, Sorting Rows, where the name of an output column has to stand alone.
#[tactic(auto, unfolding(crate::specs::Naming::is_alias))]
pub fn is_alias(list: &[Item], key: &Expr) -> bool
    ensures { result ≡ spec.is_alias (map (λ i. (out-Item i).alias) list.now) (alone_of key.now) }
{
    match alone(key) {
        None => false,
        Some(n) => any_alias(n, list),
    }
}

/// A select, where its parts are resolved.
pub fn select_of(
    from: Items<FromItem>,
    list: Noted<Shown<Items<Item>>>,
    filter: Noted<Option<Expr>>,
    order: Noted<Items<Key>>,
    limit: Noted<Option<Expr>>,
) -> Noted<Shown<Select>>
    ensures { result ≡ spec.select_of from list filter order limit }
{
    let note = joined(
        joined(list.note, filter.note),
        joined(order.note, limit.note),
    );
    let Noted { it, note: _ } = list;
    let Shown { it, names } = it;
    Noted {
        it: Shown {
            it: Select {
                list: it,
                from,
                filter: filter.it,
                order: order.it,
                limit: limit.it,
            },
            names,
        },
        note,
    }
}

/// The names of a query's columns, those of its first select.
#[tactic(auto, unfolding(crate::specs::Naming::first_names))]
pub fn first_names(
    before: &Items<Select>,
    names: Items<Option<Name>>,
    more: Items<Option<Name>>,
) -> Items<Option<Name>>
    ensures { result ≡ spec.first_names before.now names more }
{
    match before.as_slice() {
        [] => more,
        [_, ..] => names,
    }
}
