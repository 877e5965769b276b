//! Selects with slots in the places of their calls, with what their names stand for.

ghost use Rattle.std.specs.Prelude.{◌≡◌, IfOk, map};
ghost use Rattle.away_trees.specs.declared.queries.Query.{out-Query};
ghost use Rattle.elaboration.specs.Elaborating.{select_trees};
ghost use Rattle.elaboration.specs.ElaboratingLists.{selects_in};
ghost use Rattle.away_names.specs.Files.{file};
ghost use Rattle.inline_calls.specs.Resolving as spec;
ghost use Rattle.inline_calls.specs.Seen.{seen};

use crate::forms::{PartedSelect, with_list};
use crate::starts::add_copies;
use away_core::Copied;
use away_names::files::named_file;
use away_trees::{Expr, Function, Item, Query, Schema, Select};
use away_typing::recursion::column_types;
use away_typing::types::Places;
use away_values::{NoMemory, Ty};
use cte_parts::alone;
use elaboration::elaborating_queries::elaborated_selects;
use elaboration::made::Selected;
use sqlite_items::{Boxed, Items};
use std::alloc::Global;

fn copied_items(alloc: Global, list: &[Item]) -> Result<Items<Item>, NoMemory>
    ensures { IfOk result (λ all. all ≡ list.now) }
{
    let mut all = Items::new(alloc);
    for i in list {
        all.push(i.copy(alloc)?)?;
    }
    Ok(all)
}

/// The list, and behind it the arguments of all calls.
fn all_items(alloc: Global, list: &[Item], calls: &[Items<Expr>]) -> Result<Items<Item>, NoMemory>
    ensures { IfOk result (λ all. all ≡ spec.all_items list.now calls.now) }
{
    let mut all = copied_items(alloc, list)?;
    for es in calls {
        add_copies(alloc, &mut all, es.as_slice())?;
    }
    Ok(all)
}

fn holed_query(alloc: Global, c: &PartedSelect) -> Result<Boxed<Query>, NoMemory>
    ensures { IfOk result (λ q. q ≡ spec.holed_query (seen c.now)) }
{
    let list = all_items(alloc, c.select.list.as_slice(), c.calls.as_slice())?;
    let select = with_list(alloc, &c.select, list)?;
    let query = Query {
        recursive: None,
        selects: alone(alloc, select)?,
    };
    Ok(Boxed::new(alloc, query)?)
}

/// The query with what its names stand for.
fn named(alloc: Global, s: &Schema, q: &Query) -> Result<Boxed<Query>, NoMemory>
    ensures { IfOk result (λ x. x ≡ (file s.now q.now).query) }
{
    let file = named_file(alloc, s, q)?;
    Ok(Boxed::new(alloc, file.query)?)
}

/// The result's type for each call.
fn slot_types(alloc: Global, ty: Ty, calls: &[Items<Expr>]) -> Result<Items<Ty>, NoMemory>
    ensures { IfOk result (λ ts. ts ≡ map (λ es. ty) calls.now) }
{
    let mut all = Items::new(alloc);
    for _call in calls {
        all.push(ty)?;
    }
    Ok(all)
}

/// The selects of a query whose names are resolved, with their operations marked.
fn marked(
    alloc: Global,
    s: &Schema,
    f: &Function,
    c: &PartedSelect,
    q: &Query,
) -> Result<Items<Select>, NoMemory>
    ensures { IfOk result (λ xs. xs ≡ select_trees
        (selects_in (spec.slot_places s.now f.now c.now.calls) (out-Query q.now).selects)) }
{
    let tables = column_types(alloc, s)?;
    let slots = slot_types(alloc, f.result, c.calls.as_slice())?;
    let p = Places {
        slots: slots.as_slice(),
        frames: &[],
        tables: tables.as_slice(),
    };
    let Selected { kinds: _, it } = elaborated_selects(alloc, q.selects.as_slice(), &p)?;
    Ok(it)
}

fn exprs_of(alloc: Global, list: &[Item]) -> Result<Items<Expr>, NoMemory>
    ensures { IfOk result (λ es. es ≡ map spec.expr_of_item list.now) }
{
    let mut all = Items::new(alloc);
    for i in list {
        all.push(i.expr.copy(alloc)?)?;
    }
    Ok(all)
}

/// As many items for each call as it has.
fn split(
    alloc: Global,
    calls: &[Items<Expr>],
    list: &[Item],
) -> Result<Items<Items<Expr>>, NoMemory>
    ensures { IfOk result (λ all. all ≡ spec.split calls.now (map spec.expr_of_item list.now)) }
{
    let mut all = Items::new(alloc);
    let mut left = list;
    for es in calls {
        let many = es.len();
        if many > left.len() {
            return Err(NoMemory);
        }
        all.push(exprs_of(alloc, &left[..many])?)?;
        left = &left[many..];
    }
    Ok(all)
}

/// The list again, and the arguments.
fn apart(alloc: Global, c: &PartedSelect, x: &Select) -> Result<Boxed<PartedSelect>, NoMemory>
    ensures { IfOk result (λ y. seen y ≡ spec.apart (seen c.now) x.now) }
{
    let many = c.select.list.len();
    let items = x.list.as_slice();
    if many > items.len() {
        return Err(NoMemory);
    }
    let list = copied_items(alloc, &items[..many])?;
    let select = with_list(alloc, x, list)?;
    let calls = split(alloc, c.calls.as_slice(), &items[many..])?;
    Ok(Boxed::new(alloc, PartedSelect { select, calls })?)
}

/// The select and its calls' arguments, with what their names stand for and their operations marked.
pub(crate) fn resolved(
    alloc: Global,
    s: &Schema,
    f: &Function,
    c: &PartedSelect,
) -> Result<Boxed<PartedSelect>, NoMemory>
    ensures { IfOk result (λ x. seen x ≡ spec.resolved s.now f.now (seen c.now)) }
{
    let holed = holed_query(alloc, c)?;
    let query = named(alloc, s, holed.get())?;
    let selects = marked(alloc, s, f, c, query.get())?;
    match selects.as_slice() {
        [] => Err(NoMemory),
        [x, ..] => apart(alloc, c, x),
    }
}
