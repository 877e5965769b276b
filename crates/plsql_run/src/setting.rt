//! What a function runs over.

ghost use Rattle.std.specs.Prelude.{◌≡◌, get_or, slice_get, false};
ghost use Rattle.away_values.specs.Results.{Answers};
ghost use Rattle.plsql_run.specs.Settings.{meant};

use away_trees::{Expr, Select};
use away_types::Slot;
use away_values::{OpError, Tables, Ty, Value};
use sql_eval::{rows_in_body, value_in_body};
use sqlite_items::Items;
use std::alloc::Global;
use std::marker::Model;

/// The tables, and the slots of the function.
#[derive(Drop)]
pub struct Setting<'a> {
    tables: &'a Tables,
    slots: &'a [Slot],
}

impl<'a> Model for Setting<'a> {
    ghost use Rattle.plsql_run.specs.Settings.{Held, not_nulls, types_of};
    ghost use Rattle.sql_meaning.specs.AtBound.{rows_of_tables};

    ghost Value = { Held };

    ghost view = { λ s. record {
      tables = rows_of_tables s.tables.now.list;
      types = types_of s.slots.now;
      not_null = not_nulls s.slots.now;
    } };
}

impl<'a> Setting<'a> {
    ghost use Rattle.plsql_run.specs.Settings.{not_nulls, types_of};
    ghost use Rattle.sql_meaning.specs.AtBound.{rows_of_tables};

    pub(crate) fn new(tables: &'a Tables, slots: &'a [Slot]) -> Setting<'a>
        ensures { result ≡ record {
          tables = rows_of_tables tables.now.list;
          types = types_of slots.now;
          not_null = not_nulls slots.now;
        } }
    {
        Setting { tables, slots }
    }

    /// Whether a slot takes no NULL.
    pub(crate) fn is_not_null(&self, slot: usize) -> bool
        ensures { result ≡ get_or self.now.not_null slot false }
    {
        if slot < self.slots.len() {
            self.slots[slot].not_null
        } else {
            false
        }
    }

    /// The type of a slot.
    pub(crate) fn type_of(&self, slot: usize) -> Option<Ty>
        ensures { result ≡ slice_get self.now.types slot }
    {
        if slot < self.slots.len() {
            Some(self.slots[slot].ty)
        } else {
            None
        }
    }

    /// The value of an expression by the variables.
    pub(crate) fn value(
        &self,
        alloc: Global,
        e: &Expr,
        env: &Items<Value>,
    ) -> Result<Value, OpError>
        ensures { Answers ((meant self.now).value e.now env.now) result }
    {
        value_in_body(alloc, e, env.as_slice(), self.tables)
    }

    /// The rows of a select by the variables.
    pub(crate) fn rows(
        &self,
        alloc: Global,
        s: &Select,
        env: &Items<Value>,
    ) -> Result<Items<Items<Value>>, OpError>
        ensures { Answers ((meant self.now).rows s.now env.now) result }
    {
        rows_in_body(alloc, s, env.as_slice(), self.tables)
    }
}
