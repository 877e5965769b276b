//! What stands for slots and for columns where a tree is moved.

ghost use Rattle.std.specs.Prelude.{◌≡◌, ◌++◌, pos, IfOk, OnOk};
ghost use Rattle.inline_calls.specs.Leaves as spec;
ghost use Rattle.inline_law.specs.Moved as moved;
ghost use Rattle.inline_law.specs.Written as tree;

use away_core::Copied;
use away_trees::{Col, Expr, FromItem, Query, Select};
use away_values::{ChainOp, CmpOp, IsTest, NoMemory, Ty};
use cte_parts::{after, col, not, null, only, small, sum};
use sqlite_items::{Boxed, Items};
use std::alloc::Global;

/// The arguments of the calls as they stand in their subqueries, the recursive table, and how many of its columns hold values.
#[derive(Clone, Copy)]
pub(crate) struct CallPlaces<'a> {
    pub calls: &'a [Items<Expr>],
    pub table: &'a FromItem,
    pub columns: usize,
}

/// What stands for each slot: the subquery of its call, or NULL of a type. Or slots stay, and columns from outside stand one select further out.
#[derive(Clone, Copy)]
pub(crate) enum Moves<'a> {
    Calls(&'a CallPlaces<'a>),
    Nulls(Ty),
    Outward,
}

/// The column at this place of the recursive table has the value of an expression, or both are NULL.
fn is_argument(alloc: Global, place: usize, e: &Expr) -> Result<Expr, NoMemory>
    ensures { IfOk result (λ x. x ≡ tree.is_argument place e.now) }
{
    let column = Boxed::new(alloc, col(0, 0, place)?)?;
    let value = Boxed::new(alloc, e.copy(alloc)?)?;
    let same = Expr::Compare(CmpOp::Eq, column, value);
    let mut links = Items::new(alloc);
    links.push((ChainOp::Or, are_null(alloc, place, e)?))?;
    Ok(Expr::Chain(Boxed::new(alloc, same)?, links))
}

fn is_null(alloc: Global, e: Expr) -> Result<Expr, NoMemory>
    ensures { IfOk result (λ x. x ≡ spec.is_null e) }
{
    Ok(Expr::Is(Boxed::new(alloc, e)?, IsTest::Null, false))
}

/// The column at this place and the expression are NULL.
fn are_null(alloc: Global, place: usize, e: &Expr) -> Result<Expr, NoMemory>
    ensures { IfOk result (λ x. x ≡ spec.are_null place e.now) }
{
    let first = is_null(alloc, col(0, 0, place)?)?;
    let mut links = Items::new(alloc);
    links.push((ChainOp::And, is_null(alloc, e.copy(alloc)?)?))?;
    Ok(Expr::Chain(Boxed::new(alloc, first)?, links))
}

fn bigint(n: usize) -> Result<i64, NoMemory>
    ensures { IfOk result (λ k. k ≡ pos n) }
{
    match i64::try_from(n) {
        Ok(k) => Ok(k),
        Err(_) => Err(NoMemory),
    }
}

/// The row is that of the call with this number.
fn is_number(alloc: Global, n: usize) -> Result<Expr, NoMemory>
    ensures { IfOk result (λ x. x ≡ spec.is_number n) }
{
    let column = Boxed::new(alloc, col(0, 0, 2)?)?;
    let value = Boxed::new(alloc, Expr::Int(bigint(n)?))?;
    Ok(Expr::Compare(CmpOp::Eq, column, value))
}

/// Adds that the columns from the fourth on have the values of the arguments.
fn add_arguments(
    alloc: Global,
    links: &mut Items<(ChainOp, Expr)>,
    es: &[Expr],
) -> Result<(), NoMemory>
    ensures { OnOk result (links.new ≡ links.old ++ tree.are_arguments 3 es.now) }
{
    for i in 0..es.len() {
        links.push((ChainOp::And, is_argument(alloc, sum(i, 3)?, &es[i])?))?;
    }
    Ok(())
}

/// The row is that of an ended call with this number and these arguments.
fn is_call(alloc: Global, n: usize, es: &[Expr]) -> Result<Expr, NoMemory>
    ensures { IfOk result (λ x. x ≡ tree.is_call n es.now) }
{
    let over = not(alloc, col(0, 0, 0)?)?;
    let mut links = Items::new(alloc);
    links.push((ChainOp::And, is_number(alloc, n)?))?;
    add_arguments(alloc, &mut links, es)?;
    Ok(Expr::Chain(Boxed::new(alloc, over)?, links))
}

/// The select of a call's value.
fn value_select(
    alloc: Global,
    c: &CallPlaces<'_>,
    n: usize,
    es: &[Expr],
) -> Result<Select, NoMemory>
    ensures { IfOk result (λ x. x ≡ tree.value_select c.now.table.now c.now.columns n es.now) }
{
    let place = sum(sum(es.len(), c.columns)?, 3)?;
    let list = only(alloc, col(0, 0, place)?)?;
    let mut from = Items::new(alloc);
    from.push(c.table.copy(alloc)?)?;
    let filter = Some(is_call(alloc, n, es)?);
    Ok(Select {
        list,
        from,
        filter,
        order: Items::new(alloc),
        limit: Some(Expr::Int(1)),
    })
}

/// The subquery of a call's value.
fn value_over(alloc: Global, c: &CallPlaces<'_>, n: usize, es: &[Expr]) -> Result<Expr, NoMemory>
    ensures { IfOk result (λ x. x ≡ tree.value_of_call c.now.table.now c.now.columns n es.now) }
{
    let mut selects = Items::new(alloc);
    selects.push(value_select(alloc, c, n, es)?)?;
    let query = Query {
        recursive: None,
        selects,
    };
    Ok(Expr::Scalar(Boxed::new(alloc, query)?))
}

/// The subquery of the call at a place, which stands in no subquery of the list.
fn call_at(alloc: Global, c: &CallPlaces<'_>, d: usize, i: u32) -> Result<Expr, NoMemory>
    ensures { IfOk result (λ x. x ≡ spec.call_at c.now d i) }
{
    if d > 0 {
        return Err(NoMemory);
    }
    match c.calls.get(i as usize) {
        None => Err(NoMemory),
        Some(es) => value_over(alloc, c, after(i as usize)?, es.as_slice()),
    }
}

/// What stands for a slot inside so many selects.
#[tactic(auto, unfolding(crate::specs::Leaves::leaf_of))]
pub(crate) fn slot(alloc: Global, m: &Moves<'_>, d: usize, i: u32) -> Result<Expr, NoMemory>
    ensures { IfOk result (λ x. x ≡ spec.leaf_of m.now d i) }
{
    match m {
        Moves::Calls(c) => call_at(alloc, *c, d, i),
        Moves::Nulls(ty) => null(alloc, *ty),
        Moves::Outward => Ok(Expr::Slot(i)),
    }
}

/// The column from outside so many selects stands one further out.
fn outward(d: usize, c: Col) -> Result<Expr, NoMemory>
    ensures { IfOk result (λ x. x ≡ moved.outward 1 d c) }
{
    if (c.level as usize) < d {
        return Ok(Expr::Column(c));
    }
    let level = small(after(c.level as usize)?)?;
    Ok(Expr::Column(Col { level, ..c }))
}

/// What stands for a column inside so many selects.
#[tactic(auto, unfolding(crate::specs::Leaves::place_of))]
pub(crate) fn column(m: &Moves<'_>, d: usize, c: Col) -> Result<Expr, NoMemory>
    ensures { IfOk result (λ x. x ≡ spec.place_of m.now d c) }
{
    match m {
        Moves::Calls(_) | Moves::Nulls(_) => Ok(Expr::Column(c)),
        Moves::Outward => outward(d, c),
    }
}
