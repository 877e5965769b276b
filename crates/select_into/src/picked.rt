//! A select whose items that are the literal NULL have the types of their targets, and whose items have no alias.

ghost use Rattle.std.specs.Prelude.{◌≡◌, IfOk};
ghost use Rattle.std.specs.Option.{option_copied};
ghost use Rattle.select_into.specs.Wrapped as spec;

use away_core::Copied;
use away_trees::{Expr, Item, Select};
use away_values::{NoMemory, Ty};
use sqlite_items::{Boxed, Items};
use std::alloc::Global;

fn null_as(alloc: Global, ty: Option<&Ty>, e: Expr) -> Result<Expr, NoMemory>
    ensures { IfOk result (λ r. r ≡ spec.typed (option_copied ty.entry) e) }
{
    match ty {
        None => Ok(e),
        Some(ty) => match e {
            Expr::Null => Ok(Expr::Cast(Boxed::new(alloc, Expr::Null)?, *ty)),
            _ => Ok(e),
        },
    }
}

fn item_as(alloc: Global, ty: Option<&Ty>, item: &Item) -> Result<Item, NoMemory>
    ensures { IfOk result (λ i. i ≡ spec.item_as (option_copied ty.entry) item.now) }
{
    Ok(Item {
        expr: null_as(alloc, ty, item.expr.copy(alloc)?)?,
        alias: None,
    })
}

fn items_as(alloc: Global, types: &[Ty], items: &[Item]) -> Result<Items<Item>, NoMemory>
    ensures { IfOk result (λ list. list ≡ spec.items_as types.now items.now) }
{
    let mut list = Items::new(alloc);
    for i in 0..items.len() {
        list.push(item_as(alloc, types.get(i), &items[i])?)?;
    }
    Ok(list)
}

fn with_list(s: Select, list: Items<Item>) -> Select
    ensures { result ≡ spec.with_list s list }
{
    Select {
        list,
        from: s.from,
        filter: s.filter,
        order: s.order,
        limit: s.limit,
    }
}

pub(crate) fn picked(alloc: Global, types: &[Ty], s: &Select) -> Result<Select, NoMemory>
    ensures { IfOk result (λ r. r ≡ spec.picked types.now s.now) }
{
    let list = items_as(alloc, types, s.list.as_slice())?;
    Ok(with_list(s.copy(alloc)?, list))
}
