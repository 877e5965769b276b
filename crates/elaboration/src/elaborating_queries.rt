//! Queries with their operations marked, and the types of their columns.

ghost use Rattle.std.specs.Prelude.{◌≡◌, IfOk, []};
ghost use Rattle.away_trees.specs.declared.queries.Select.{out-Select};
ghost use Rattle.away_typing.specs.Typing as typing;
ghost use Rattle.away_typing.specs.Typing.{inside};
ghost use Rattle.away_typing.specs.TypingLists.{places};
ghost use Rattle.elaboration.specs.Elaborating as spec;
ghost use Rattle.elaboration.specs.ElaboratingLists as lists;

use crate::elaborating::{elaborated, made_maybe};
use crate::made::{MadeAll, MadeFroms, Selected, Shaped};
use crate::parts::{item_of, key_of, select_of};
use away_names::origins::copy_names;
use away_trees::{FromItem, Item, Key, Query, Recursive, Select, Source};
use away_typing::shapes::{before, further, listed, nested, or_none, shape_of, table_shape};
use away_typing::types::Places;
use away_values::{Name, NoMemory, Ty};
use sqlite_items::{Boxed, Items};
use std::alloc::Global;

/// A query. One with WITH isn't one that stands inside another tree, and has no types.
#[cycle(elaborating)]
#[tactic(auto, using(crate::proofs::ElaboratingRules::query_rules))]
pub fn elaborated_query(alloc: Global, q: &Query, p: &Places<'_>) -> Result<Shaped<Query>, NoMemory>
    ensures { IfOk result (λ x. x ≡ spec.elaborated_query (places p.now) q.now) }
{
    let Selected { kinds, it } = elaborated_selects(alloc, q.selects.as_slice(), p)?;
    match &q.recursive {
        None => {
            let shape = shape_of(alloc, kinds)?;
            Ok(Shaped {
                shape,
                it: Query {
                    recursive: None,
                    selects: it,
                },
            })
        }
        Some(r) => {
            let terms = made_terms(alloc, r, p)?;
            Ok(Shaped {
                shape: None,
                it: Query {
                    recursive: Some(terms),
                    selects: it,
                },
            })
        }
    }
}

#[cycle(elaborating)]
fn made_terms(alloc: Global, r: &Recursive, p: &Places<'_>) -> Result<Recursive, NoMemory>
    ensures { IfOk result (λ x. x ≡ lists.recursive_in (places p.now) r.now) }
{
    let name = r.name.copy(alloc)?;
    let columns = copy_names(alloc, r.columns.as_slice())?;
    let Selected {
        kinds: _,
        it: first,
    } = elaborated_selects(alloc, r.first.as_slice(), p)?;
    let Selected {
        kinds: _,
        it: second,
    } = elaborated_select(alloc, &r.second, p)?;
    Ok(Recursive {
        name,
        columns,
        first,
        second,
    })
}

/// Selects that UNION ALL joins. The manual: 7.4, Combining Queries, and 10.5, UNION, CASE, and Related Constructs.
#[cycle(elaborating)]
pub fn elaborated_selects(
    alloc: Global,
    selects: &[Select],
    p: &Places<'_>,
) -> Result<Selected<Items<Select>>, NoMemory>
    ensures { IfOk result (λ x. x ≡ record {
      kinds = spec.union_made (lists.selects_in (places p.now) selects.now);
      it = spec.select_trees (lists.selects_in (places p.now) selects.now);
    }) }
{
    let mut kinds = None;
    let mut done = Items::new(alloc);
    for select in selects {
        let Selected { kinds: own, it } = elaborated_select(alloc, select, p)?;
        done.push(it)?;
        kinds = further(alloc, kinds, own)?;
    }
    Ok(Selected {
        kinds: or_none(kinds),
        it: done,
    })
}

/// A select. Where an item of its FROM has no columns, nothing that stands over them has a type.
#[cycle(elaborating)]
#[tactic(auto, using(crate::proofs::ElaboratingRules::select_rule))]
pub fn elaborated_select(
    alloc: Global,
    select: &Select,
    p: &Places<'_>,
) -> Result<Selected<Select>, NoMemory>
    ensures { IfOk result (λ x. x ≡ spec.elaborated_select (places p.now) select.now) }
{
    let MadeFroms { frame, it } = made_froms(alloc, select.from.as_slice(), p)?;
    match frame {
        Some(frame) => made_over(alloc, select, &frame, it, p),
        None => {
            let x = made_over(alloc, select, &Items::new(alloc), it, p)?;
            Ok(Selected {
                kinds: None,
                it: x.it,
            })
        }
    }
}

/// What stands over the items of FROM.
#[cycle(elaborating)]
fn made_over(
    alloc: Global,
    select: &Select,
    frame: &Items<Items<Ty>>,
    from: Items<FromItem>,
    p: &Places<'_>,
) -> Result<Selected<Select>, NoMemory>
    ensures { IfOk result (λ x. x ≡ lists.selected_at (out-Select select.now)
        (inside frame.now (places p.now)) from) }
{
    let frames = nested(alloc, frame, p.frames)?;
    let inner = Places {
        slots: p.slots,
        frames: frames.as_slice(),
        tables: p.tables,
    };
    made_inside(alloc, select, from, &inner)
}

#[cycle(elaborating)]
#[tactic(auto, unfolding(crate::specs::ElaboratingLists::selected_at))]
fn made_inside(
    alloc: Global,
    select: &Select,
    from: Items<FromItem>,
    p: &Places<'_>,
) -> Result<Selected<Select>, NoMemory>
    ensures { IfOk result (λ x. x ≡ lists.selected_at (out-Select select.now)
        (places p.now) from) }
{
    let list = made_items(alloc, select.list.as_slice(), p)?;
    let filter = made_maybe(alloc, &select.filter, p)?;
    let order = made_keys(alloc, select.order.as_slice(), p)?;
    let limit = made_maybe(alloc, &select.limit, p)?;
    Ok(select_of(from, list, filter, order, limit))
}

#[cycle(elaborating)]
fn made_items(
    alloc: Global,
    list: &[Item],
    p: &Places<'_>,
) -> Result<MadeAll<Items<Item>>, NoMemory>
    ensures { IfOk result (λ x. x ≡ record {
      kinds = spec.item_kinds (lists.items_in (places p.now) list.now);
      it = spec.item_trees (lists.items_in (places p.now) list.now);
    }) }
{
    let mut kinds = Items::new(alloc);
    let mut done = Items::new(alloc);
    for item in list {
        let x = elaborated(alloc, &item.expr, p)?;
        let y = item_of(alloc, &item.alias, x)?;
        kinds.push(y.kind)?;
        done.push(y.it)?;
    }
    Ok(MadeAll { kinds, it: done })
}

#[cycle(elaborating)]
fn made_keys(alloc: Global, keys: &[Key], p: &Places<'_>) -> Result<MadeAll<Items<Key>>, NoMemory>
    ensures { IfOk result (λ x. x ≡ record {
      kinds = spec.key_kinds (lists.keys_in (places p.now) keys.now);
      it = spec.key_trees (lists.keys_in (places p.now) keys.now);
    }) }
{
    let mut kinds = Items::new(alloc);
    let mut done = Items::new(alloc);
    for key in keys {
        let x = elaborated(alloc, &key.expr, p)?;
        let y = key_of(key.descending, x);
        kinds.push(y.kind)?;
        done.push(y.it)?;
    }
    Ok(MadeAll { kinds, it: done })
}

/// The items of FROM, each of which sees those before it. What has no columns stands as an item of none.
#[cycle(elaborating)]
fn made_froms(alloc: Global, from: &[FromItem], p: &Places<'_>) -> Result<MadeFroms, NoMemory>
    ensures { IfOk result (λ x. x ≡ record {
      frame = spec.frame_made (lists.froms_in (places p.now) from.now []) [];
      it = spec.from_trees (lists.froms_in (places p.now) from.now []);
    }) }
{
    let mut whole = true;
    let mut frame = Items::new(alloc);
    let mut done = Items::new(alloc);
    for f in from {
        let Shaped { shape, it } = made_from(alloc, f, p, &frame)?;
        done.push(it)?;
        match shape {
            Some(types) => frame.push(types)?,
            None => {
                whole = false;
                frame.push(Items::new(alloc))?;
            }
        }
    }
    Ok(MadeFroms {
        frame: if whole { Some(frame) } else { None },
        it: done,
    })
}

#[cycle(elaborating)]
#[tactic(auto, using(crate::proofs::ElaboratingRules::from_rule))]
fn made_from(
    alloc: Global,
    f: &FromItem,
    p: &Places<'_>,
    frame: &Items<Items<Ty>>,
) -> Result<Shaped<FromItem>, NoMemory>
    ensures { IfOk result (λ x. x ≡ spec.elaborated_from (places p.now) f.now frame.now) }
{
    let Shaped { shape, it } = made_source(alloc, &f.source, f.columns.as_slice(), p, frame)?;
    Ok(Shaped {
        shape,
        it: FromItem {
            source: it,
            alias: f.alias.copy(alloc)?,
            columns: copy_names(alloc, f.columns.as_slice())?,
        },
    })
}

#[cycle(elaborating)]
#[tactic(auto, using(crate::proofs::ElaboratingRules::source_rules))]
fn made_source(
    alloc: Global,
    source: &Source,
    columns: &[Name],
    p: &Places<'_>,
    frame: &Items<Items<Ty>>,
) -> Result<Shaped<Source>, NoMemory>
    ensures { IfOk result (λ x. x
        ≡ spec.elaborated_source (places p.now) source.now columns.now frame.now) }
{
    match source {
        Source::Table(n) => Ok(Shaped {
            shape: table_shape(alloc, p.tables, columns)?,
            it: Source::Table(n.copy(alloc)?),
        }),
        Source::Sub(q, lateral) => {
            let Shaped { shape, it } = made_beside(alloc, q.get(), *lateral, p, frame)?;
            Ok(Shaped {
                shape: listed(columns, shape),
                it: Source::Sub(it, *lateral),
            })
        }
    }
}

/// A subquery beside the items before it.
#[cycle(elaborating)]
fn made_beside(
    alloc: Global,
    q: &Query,
    lateral: bool,
    p: &Places<'_>,
    frame: &Items<Items<Ty>>,
) -> Result<Shaped<Boxed<Query>>, NoMemory>
    ensures { IfOk result (λ x. x ≡ spec.elaborated_query
        (inside (typing.before lateral frame.now) (places p.now)) q.now) }
{
    let empty = Items::new(alloc);
    let frames = nested(alloc, before(lateral, frame, &empty), p.frames)?;
    let inner = Places {
        slots: p.slots,
        frames: frames.as_slice(),
        tables: p.tables,
    };
    let Shaped { shape, it } = elaborated_query(alloc, q, &inner)?;
    Ok(Shaped {
        shape,
        it: Boxed::new(alloc, it)?,
    })
}
