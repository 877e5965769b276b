//! The form of a query, and where calls of a function stand in it.

ghost use Rattle.std.specs.Prelude.{◌≡◌, Some, None, option_map, IfOk, IfSome};
ghost use Rattle.std.specs.List.{list_any};
ghost use Rattle.inline_calls.specs.Forms as spec;
ghost use Rattle.inline_calls.specs.Seen.{seen};
ghost use Rattle.moved_names.specs.Finding.{in_expr as found_in};

use crate::parting::{PartedList, parted_list};
use away_core::Copied;
use away_names::function::function;
use away_trees::{Expr, Function, Item, Query, Select};
use away_typing::uses::select_used;
use away_values::{Name, NoMemory};
use moved_names::finding::in_exprs;
use moved_names::finding_queries::in_select;
use moved_names::sought::Sought;
use sqlite_items::{Boxed, Items};
use std::alloc::Global;
use std::slice::from_ref;

/// A select with slots in the places of its calls, and the arguments of each.
#[derive(Drop)]
pub struct PartedSelect {
    pub select: Select,
    pub calls: Items<Items<Expr>>,
}

/// The select that a query is, without WITH.
fn only_select(q: &Query) -> Option<&Select>
    ensures some { IfSome result (λ x. spec.only_select q.now ≡ Some x.now) }
    ensures none { result ≡ None → spec.only_select q.now ≡ None }
{
    if q.recursive.is_some() {
        return None;
    }
    match q.selects.as_slice() {
        [x] => Some(x),
        _ => None,
    }
}

/// Whether the select may be that of a query whose calls are replaced.
fn is_form(f: &Function, x: &Select) -> Result<bool, NoMemory>
    ensures { IfOk result (λ b. b ≡ spec.is_form f.now x.now) }
{
    if select_used(x)?.aggregate {
        return Ok(false);
    }
    if in_select(Sought::Kept, x) {
        return Ok(false);
    }
    if function(&f.name).is_some() {
        return Ok(false);
    }
    Ok(in_select(Sought::Calls(from_ref(&f.name)), x))
}

/// The select of a query of the form.
pub(crate) fn formed<'a>(f: &Function, q: &'a Query) -> Result<Option<&'a Select>, NoMemory>
    ensures { IfOk result (λ o. spec.TellsForm f.now q.now (option_map (λ x. x.now) o)) }
{
    let Some(x) = only_select(q) else {
        return Ok(None);
    };
    if is_form(f, x)? {
        Ok(Some(x))
    } else {
        Ok(None)
    }
}

/// A select with another list.
pub(crate) fn with_list(alloc: Global, x: &Select, list: Items<Item>) -> Result<Select, NoMemory>
    ensures { IfOk result (λ y. y ≡ spec.with_list x.now list) }
{
    let mut from = Items::new(alloc);
    for item in x.from.as_slice() {
        from.push(item.copy(alloc)?)?;
    }
    let mut order = Items::new(alloc);
    for key in x.order.as_slice() {
        order.push(key.copy(alloc)?)?;
    }
    Ok(Select {
        list,
        from,
        filter: copied(alloc, &x.filter)?,
        order,
        limit: copied(alloc, &x.limit)?,
    })
}

pub(crate) fn copied(alloc: Global, e: &Option<Expr>) -> Result<Option<Expr>, NoMemory>
    ensures { IfOk result (λ x. x ≡ e.now) }
{
    match e {
        None => Ok(None),
        Some(e) => Ok(Some(e.copy(alloc)?)),
    }
}

/// The calls of a select's list.
pub(crate) fn calling(
    alloc: Global,
    f: &Function,
    x: &Select,
) -> Result<Boxed<PartedSelect>, NoMemory>
    ensures { IfOk result (λ c. seen c ≡ spec.calling f.now x.now) }
{
    let PartedList { list, calls } = parted_list(alloc, &f.name, x.list.as_slice())?;
    let select = with_list(alloc, x, list)?;
    Ok(Boxed::new(alloc, PartedSelect { select, calls })?)
}

/// A call stands in an argument of another.
fn in_calls(name: &Name, calls: &[Items<Expr>]) -> bool
    ensures { result ≡ list_any (list_any (found_in (spec.calls_of_name name.now))) calls.now }
{
    for es in calls {
        if in_exprs(Sought::Calls(from_ref(name)), es.as_slice()) {
            return true;
        }
    }
    false
}

/// A call stands elsewhere than in the list, or in a subquery or an argument there.
pub(crate) fn misplaces(f: &Function, c: &PartedSelect) -> bool
    ensures { result ≡ spec.misplaces f.now (seen c.now) }
{
    in_select(Sought::Calls(from_ref(&f.name)), &c.select) || in_calls(&f.name, c.calls.as_slice())
}
