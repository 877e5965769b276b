//! The expressions of a function, by their events and the slots that they read.

ghost use Rattle.std.specs.Prelude.{◌≡◌, ◌↔◌, IsTrue, IfOk, List, get_or};
ghost use Rattle.away_trees.specs.declared.queries.Expr.{Expr};
ghost use Rattle.away_trees.specs.declared.queries.Expr.TheVariants as expr;
ghost use Rattle.cte_reads.specs.Entries.{EntryOf, EntriesOf};

use away_trees::Expr;
use away_values::NoMemory;
use block_forms::ExprTable;
use sqlite_items::Items;
use std::alloc::Global;
use tree_events::{Manner, TreeEvent, expr_events, slots_of_events};

/// An expression: its events, its slots in the order of their first occurrence, and whether it is NULL.
#[derive(Drop)]
pub struct Entry {
    pub events: Items<TreeEvent>,
    pub slots: Items<u32>,
    pub is_null: bool,
}

/// The expressions by number, and NULL, which stands where a number has none.
#[derive(Drop)]
pub struct Entries {
    pub list: Items<Entry>,
    pub null: Entry,
}

impl Entries {
    /// The expression with a number.
    pub fn at(&self, number: u32) -> &Entry
        ensures { (table : List Expr) → EntriesOf table self.now
            → EntryOf (get_or table number expr.Null) result.now }
    {
        let number = number as usize;
        if number < self.list.len() {
            &self.list.as_slice()[number]
        } else {
            &self.null
        }
    }
}

fn is_null(e: &Expr) -> bool
    ensures { IsTrue result ↔ (e.now ≡ expr.Null) }
{
    match e {
        Expr::Null => true,
        _ => false,
    }
}

fn entry_of(alloc: Global, e: &Expr) -> Result<Entry, NoMemory>
    ensures { IfOk result (λ x. EntryOf e.now x) }
{
    let read = expr_events(alloc, Manner::Reading, e)?;
    let slots = slots_of_events(alloc, read.as_slice())?;
    Ok(Entry {
        events: expr_events(alloc, Manner::Whole, e)?,
        slots,
        is_null: is_null(e),
    })
}

/// The expressions of a table, and NULL.
pub fn entries_of(alloc: Global, table: &ExprTable) -> Result<Entries, NoMemory>
    ensures { IfOk result (λ x. EntriesOf table.now.list x) }
{
    let exprs = table.list.as_slice();
    let mut list = Items::new(alloc);
    for i in 0..exprs.len() {
        list.push(entry_of(alloc, &exprs[i])?)?;
    }
    Ok(Entries {
        list,
        null: entry_of(alloc, &Expr::Null)?,
    })
}
