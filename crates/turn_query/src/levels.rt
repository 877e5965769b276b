//! Levels: selects one over another, each with one row of expressions over the columns of the one below.

ghost use Rattle.std.specs.Prelude.{◌≡◌, ◌∷◌, ◌++◌, [], false, map, Some, None, IfOk, OnOk};
ghost use Rattle.away_trees.specs.declared.queries.Expr.TheVariants as expr;
ghost use Rattle.away_trees.specs.declared.queries.Expr.TheViews.{roll-Select};
ghost use Rattle.sql_meaning.specs.Template.{count_from};
ghost use Rattle.sql_meaning.specs.Trees as tree;
ghost use Rattle.turn_template.specs.TurnTemplate as turn;
ghost use Rattle.turn_query.specs.Plans.{as_plan};
ghost use Rattle.turn_query.specs.TurnTree as spec;

use crate::conditions::gated;
use crate::names::{level_alias, level_names};
use crate::plans::Plan;
use away_core::Copied;
use away_trees::{Expr, FromItem, Item, Select, Source};
use away_values::{IsTest, NoMemory};
use cte_parts::{add, alone, col, only, select, subquery, sum};
use sqlite_items::{Boxed, Items};
use std::alloc::Global;

/// A list of one item.
pub(crate) fn only_item(alloc: Global, item: Boxed<FromItem>) -> Result<Items<FromItem>, NoMemory>
    ensures { IfOk result (λ list. list ≡ item ∷ []) }
{
    let mut from = Items::new(alloc);
    from.push(item.into_inner())?;
    Ok(from)
}

/// The first columns of an item, as a list.
#[tactic(auto, using(crate::proofs::Numbers::one_more_of))]
pub(crate) fn all_items(alloc: Global, many: usize) -> Result<Items<Item>, NoMemory>
    ensures { IfOk result (λ list. list ≡ map tree.item (turn.all_cells many)) }
{
    let mut list = Items::new(alloc);
    for i in 0..many {
        add(&mut list, col(0, 0, i)?)?;
    }
    Ok(list)
}

/// The rows of an item as they are.
pub(crate) fn all_of(
    alloc: Global,
    columns: usize,
    from: Boxed<FromItem>,
) -> Result<Boxed<Select>, NoMemory>
    ensures { IfOk result (λ s. s ≡ spec.all_of columns from) }
{
    let list = all_items(alloc, sum(columns, 4)?)?;
    let from = only_item(alloc, from)?;
    Ok(Boxed::new(alloc, select(alloc, list, from, None))?)
}

/// SELECT list FROM from LIMIT NULL
fn fenced(
    alloc: Global,
    list: Items<Item>,
    from: Boxed<FromItem>,
) -> Result<Boxed<Select>, NoMemory>
    ensures { IfOk result (λ s. s ≡ roll-Select (record {
      list = list;
      from = from ∷ [];
      filter = None;
      order = [];
      limit = Some expr.Null;
    })) }
{
    let from = only_item(alloc, from)?;
    let select = Select {
        list,
        from,
        filter: None,
        order: Items::new(alloc),
        limit: Some(Expr::Null),
    };
    Ok(Boxed::new(alloc, select)?)
}

/// A select as the item below the next level: its columns are those of a row, and so many steps.
pub(crate) fn level_as(
    alloc: Global,
    columns: usize,
    steps: usize,
    select: Boxed<Select>,
) -> Result<Boxed<FromItem>, NoMemory>
    ensures { IfOk result (λ i. i ≡ spec.level_as columns steps select) }
{
    let alias = level_alias(alloc)?;
    let columns = level_names(alloc, columns, steps)?;
    let query = subquery(alloc, alone(alloc, select.into_inner())?)?;
    let item = FromItem {
        source: Source::Sub(query, false),
        alias,
        columns,
    };
    Ok(Boxed::new(alloc, item)?)
}

/// The columns so far, and a step.
fn step_list(alloc: Global, many: usize, step: &Expr) -> Result<Items<Item>, NoMemory>
    ensures { IfOk result (λ list. list ≡ map tree.item (spec.step_list many step.now)) }
{
    let mut list = all_items(alloc, many)?;
    add(&mut list, step.copy(alloc)?)?;
    Ok(list)
}

/// The level of a step, over an item of so many columns, of which so many are steps.
fn over_step(
    alloc: Global,
    columns: usize,
    steps: usize,
    many: usize,
    step: &Expr,
    from: Boxed<FromItem>,
) -> Result<Boxed<FromItem>, NoMemory>
    ensures { IfOk result (λ i. i ≡ spec.over_step columns steps many step.now from) }
{
    let list = step_list(alloc, many, step)?;
    let level = fenced(alloc, list, from)?;
    level_as(alloc, columns, sum(steps, 1)?, level)
}

/// A level for each step.
fn over_steps(
    alloc: Global,
    columns: usize,
    width: usize,
    steps: &[Expr],
    from: Boxed<FromItem>,
) -> Result<Boxed<FromItem>, NoMemory>
    ensures { IfOk result (λ i. i ≡ spec.over_steps columns 0 width steps.now from) }
{
    let mut item = from;
    for i in 0..steps.len() {
        item = over_step(alloc, columns, i, sum(width, i)?, &steps[i], item)?;
    }
    Ok(item)
}

/// Column j is NULL or isn't.
fn is_there(alloc: Global, j: usize) -> Result<Boxed<Expr>, NoMemory>
    ensures { IfOk result (λ e. e ≡ turn.is_there j) }
{
    let column = Boxed::new(alloc, col(0, 0, j)?)?;
    let null = Boxed::new(alloc, Expr::Is(column, IsTest::Null, false))?;
    Ok(Boxed::new(alloc, Expr::Is(null, IsTest::Null, true))?)
}

/// An expression behind the reading of one more column.
fn behind_read(alloc: Global, j: usize, e: Boxed<Expr>) -> Result<Boxed<Expr>, NoMemory>
    ensures { IfOk result (λ x. x ≡ turn.gated (turn.is_there j) e) }
{
    let there = is_there(alloc, j)?;
    let gated = gated(alloc, there.get(), e.into_inner())?;
    Ok(Boxed::new(alloc, gated)?)
}

/// An expression behind the reading of so many columns from one on.
fn behind_reads(
    alloc: Global,
    first: usize,
    many: usize,
    e: Boxed<Expr>,
) -> Result<Boxed<Expr>, NoMemory>
    ensures { IfOk result (λ x. x ≡ turn.behind_reads (count_from first many) e) }
{
    let mut behind = e;
    let mut left = many;
    while left > 0 {
        left -= 1;
        behind = behind_read(alloc, sum(first, left)?, behind)?;
    }
    Ok(behind)
}

/// Adds cells as they are.
fn add_cells(alloc: Global, list: &mut Items<Item>, cells: &[Expr]) -> Result<(), NoMemory>
    ensures { OnOk result (list.new ≡ list.old ++ map tree.item cells.now) }
{
    for i in 0..cells.len() {
        add(list, cells[i].copy(alloc)?)?;
    }
    Ok(())
}

/// A first cell that reads so many columns from one on, and the cells behind it.
fn first_and_more(
    alloc: Global,
    from: usize,
    many: usize,
    cell: &Expr,
    more: &[Expr],
) -> Result<Items<Item>, NoMemory>
    ensures { IfOk result (λ list. list
        ≡ map tree.item (turn.reads_first (count_from from many) (cell.now ∷ more.now))) }
{
    let copied = Boxed::new(alloc, cell.copy(alloc)?)?;
    let behind = behind_reads(alloc, from, many, copied)?;
    let mut list = only(alloc, behind.into_inner())?;
    add_cells(alloc, &mut list, more)?;
    Ok(list)
}

/// Cells of which the first reads so many columns from one on.
fn reading_first(
    alloc: Global,
    from: usize,
    many: usize,
    cells: &[Expr],
) -> Result<Items<Item>, NoMemory>
    ensures { IfOk result (λ list. list
        ≡ map tree.item (turn.reads_first (count_from from many) cells.now)) }
{
    match cells {
        [] => Ok(Items::new(alloc)),
        [cell, more @ ..] => first_and_more(alloc, from, many, cell, more),
    }
}

/// The cells behind so many columns of the row. The first reads all steps: databases leave out a column that nothing reads, and its fault with it.
fn last_level(alloc: Global, width: usize, plan: &Plan) -> Result<Items<Item>, NoMemory>
    ensures { IfOk result (λ list. list
        ≡ map tree.item (turn.last_level width (as_plan plan.now))) }
{
    reading_first(alloc, width, plan.steps.len(), plan.cells.as_slice())
}

/// The levels of one turn over an item with the columns of a row: one for each step, and one of the cells.
pub(crate) fn over_turn(
    alloc: Global,
    columns: usize,
    width: usize,
    plan: &Plan,
    from: Boxed<FromItem>,
) -> Result<Boxed<FromItem>, NoMemory>
    ensures { IfOk result (λ i. i ≡ spec.over_turn columns width (as_plan plan.now) from) }
{
    let cells = last_level(alloc, width, plan)?;
    let item = over_steps(alloc, columns, width, plan.steps.as_slice(), from)?;
    let last = fenced(alloc, cells, item)?;
    level_as(alloc, columns, 0, last)
}

/// So many turns, one over another.
pub(crate) fn over_turns(
    alloc: Global,
    columns: usize,
    width: usize,
    plan: &Plan,
    turns: usize,
    from: Boxed<FromItem>,
) -> Result<Boxed<FromItem>, NoMemory>
    ensures { IfOk result (λ i. i ≡ spec.over_turns columns width (as_plan plan.now) turns from) }
{
    let mut item = from;
    let mut left = turns;
    while left > 0 {
        left -= 1;
        item = over_turn(alloc, columns, width, plan, item)?;
    }
    Ok(item)
}
