//! Trees, by their parts whose types are found.

ghost use Rattle.std.specs.Prelude.{◌≡◌, IfOk};
ghost use Rattle.away_trees.specs.declared.queries.Item.{roll-Item};
ghost use Rattle.away_trees.specs.declared.queries.Key.{roll-Key};
ghost use Rattle.away_trees.specs.declared.queries.Select.{roll-Select};
ghost use Rattle.away_typing.specs.Typing as typing;
ghost use Rattle.elaboration.specs.Elaborating as spec;

use crate::made::{Made, MadeAll, MadeMaybe, Selected};
use away_names::listings::copy_alias;
use away_trees::{Expr, FromItem, Item, Key, Select};
use away_typing::kind::{Kind, only_if};
use away_typing::shapes::select_kinds;
use away_values::{Name, NoMemory, Ty};
use sqlite_items::Items;
use std::alloc::Global;

pub fn made(kind: Kind, it: Expr) -> Made<Expr>
    ensures { result ≡ spec.made kind it }
{
    Made { kind, it }
}

/// A boolean, where its operands fit.
pub fn truth(fitting: bool, it: Expr) -> Made<Expr>
    ensures { result ≡ spec.truth fitting it }
{
    Made {
        kind: only_if(fitting, Kind::Of(Ty::Boolean)),
        it,
    }
}

pub fn item_of(alloc: Global, alias: &Option<Name>, x: Made<Expr>) -> Result<Made<Item>, NoMemory>
    ensures { IfOk result (λ y. y ≡ record {
      kind = x.kind;
      it = roll-Item (record { expr = x.it; alias = alias.now });
    }) }
{
    Ok(Made {
        kind: x.kind,
        it: Item {
            expr: x.it,
            alias: copy_alias(alloc, alias)?,
        },
    })
}

pub fn key_of(descending: bool, x: Made<Expr>) -> Made<Key>
    ensures { result ≡ record {
      kind = x.kind;
      it = roll-Key (record { expr = x.it; descending = descending });
    } }
{
    Made {
        kind: x.kind,
        it: Key {
            expr: x.it,
            descending,
        },
    }
}

/// A select, over items that all have columns.
pub fn select_of(
    from: Items<FromItem>,
    list: MadeAll<Items<Item>>,
    filter: MadeMaybe,
    order: MadeAll<Items<Key>>,
    limit: MadeMaybe,
) -> Selected<Select>
    ensures { result ≡ record {
      kinds = typing.select_kinds list.kinds filter.kind order.kinds limit.kind;
      it =
          roll-Select (record {
            list = list.it;
            from = from;
            filter = filter.it;
            order = order.it;
            limit = limit.it;
          });
    } }
{
    let kinds = select_kinds(list.kinds, filter.kind, &order.kinds, limit.kind);
    Selected {
        kinds,
        it: Select {
            list: list.it,
            from,
            filter: filter.it,
            order: order.it,
            limit: limit.it,
        },
    }
}
