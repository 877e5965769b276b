//! The select of a SELECT INTO.

ghost use Rattle.std.specs.Prelude.{◌≡◌, IfOk, drop};
ghost use Rattle.elaboration.specs.Converting as spec;
ghost use Rattle.elaboration.specs.ConvertingLists.{around};

use crate::converting::{Around, converts, slot_type};
use crate::elaborating_queries::elaborated_select;
use crate::made::Selected;
use away_core::Copied;
use away_trees::{Item, Select};
use away_typing::kind::Kind;
use away_values::{Name, NoMemory};
use sqlite_items::Items;
use std::alloc::Global;

fn mark_of(
    alloc: Global,
    a: &Around<'_>,
    target: &(Name, Option<u32>),
    k: Kind,
) -> Result<Option<Name>, NoMemory>
    ensures { IfOk result (λ n. n
        ≡ spec.mark_by (spec.slot_type (around a.now) target.now.1) target.now.0 k) }
{
    match slot_type(a, target.1) {
        None => Ok(None),
        Some(t) => {
            if converts(t, k) {
                Ok(Some(target.0.copy(alloc)?))
            } else {
                Ok(None)
            }
        }
    }
}

#[tactic(auto, unfolding(crate::specs::Converting::first_mark))]
fn first_mark(
    alloc: Global,
    a: &Around<'_>,
    targets: &[(Name, Option<u32>)],
    kinds: &[Kind],
) -> Result<Option<Name>, NoMemory>
    ensures { IfOk result (λ n. n ≡ spec.first_mark (around a.now) targets.now kinds.now) }
{
    match targets {
        [] => Ok(None),
        [t, ..] => match kinds {
            [] => Ok(None),
            [k, ..] => mark_of(alloc, a, t, *k),
        },
    }
}

fn targets_behind(list: &[(Name, Option<u32>)]) -> &[(Name, Option<u32>)]
    ensures { result.now ≡ drop 1 list.now }
{
    match list {
        [] => list,
        [_, more @ ..] => more,
    }
}

fn kinds_behind(list: &[Kind]) -> &[Kind]
    ensures { result.now ≡ drop 1 list.now }
{
    match list {
        [] => list,
        [_, more @ ..] => more,
    }
}

/// The items, each with its mark as alias.
fn items_marked(
    alloc: Global,
    a: &Around<'_>,
    targets: &[(Name, Option<u32>)],
    kinds: &[Kind],
    list: &[Item],
) -> Result<Items<Item>, NoMemory>
    ensures { IfOk result (λ x. x
        ≡ spec.items_marked (around a.now) targets.now kinds.now list.now) }
{
    let mut done = Items::new(alloc);
    let mut ts = targets;
    let mut ks = kinds;
    for item in list {
        let alias = first_mark(alloc, a, ts, ks)?;
        let expr = item.expr.copy(alloc)?;
        done.push(Item { expr, alias })?;
        ts = targets_behind(ts);
        ks = kinds_behind(ks);
    }
    Ok(done)
}

fn with_list(list: Items<Item>, select: Select) -> Select
    ensures { result ≡ spec.with_list list select }
{
    Select {
        list,
        from: select.from,
        filter: select.filter,
        order: select.order,
        limit: select.limit,
    }
}

/// The select with its operations marked, and with a mark at each item whose value is converted to the type of its target.
#[tactic(auto, unfolding(crate::specs::Converting::into_converted))]
pub fn into_converted(
    alloc: Global,
    targets: &[(Name, Option<u32>)],
    query: &Select,
    a: &Around<'_>,
) -> Result<Select, NoMemory>
    ensures { IfOk result (λ s. s ≡ spec.into_converted (around a.now) targets.now query.now) }
{
    let Selected { kinds, it } = elaborated_select(alloc, query, &a.places)?;
    match kinds {
        None => Ok(it),
        Some(ks) => {
            let list = items_marked(alloc, a, targets, ks.as_slice(), it.list.as_slice())?;
            Ok(with_list(list, it))
        }
    }
}
