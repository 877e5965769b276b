//! A select as a subquery in the FROM of another.

ghost use Rattle.std.specs.Prelude.{◌≡◌, ◌+◌, ◌<◌, ◌^◌, IfOk};
ghost use Rattle.away_values.specs.Words.{IsName};
ghost use Rattle.select_into.specs.Wrapped as spec;
ghost use Rattle.sql_meaning.specs.Trees.{one};

use away_trees::{Col, Expr, FromItem, Item, Query, Select, Source};
use away_values::{CmpOp, Name, NoMemory, Ty, name};
use itoa::Buffer;
use sqlite_items::{Boxed, Items};
use std::alloc::Global;

/// The name that a text is.
fn name_that_is(alloc: Global, text: &str) -> Result<Name, NoMemory>
    requires { IsName text.now }
    ensures { IfOk result (λ n. n ≡ text.now) }
{
    match name(alloc, text)? {
        Some(name) => Ok(name),
        None => unreachable!(),
    }
}

/// A column, by its place from 0; the names count from 1.
fn value_name(alloc: Global, place: usize) -> Result<Name, NoMemory>
    requires { place + 1 < 2 ^ 64 }
    ensures { IfOk result (λ n. n ≡ spec.value_name place) }
{
    let mut text = String::from_str(alloc, "away_v")?;
    let mut buffer = Buffer::new();
    text.push_str(buffer.format(place + 1))?;
    name_that_is(alloc, &text)
}

#[tactic(auto, using(crate::proofs::Lists::one_more_name))]
fn value_names(alloc: Global, many: usize) -> Result<Items<Name>, NoMemory>
    ensures { IfOk result (λ all. all ≡ spec.value_names many) }
{
    let mut all = Items::new(alloc);
    for place in 0..many {
        all.push(value_name(alloc, place)?)?;
    }
    Ok(all)
}

/// A query of one select.
pub(crate) fn one(alloc: Global, s: Select) -> Result<Query, NoMemory>
    ensures { IfOk result (λ q. q ≡ one s) }
{
    let mut selects = Items::new(alloc);
    selects.push(s)?;
    Ok(Query {
        recursive: None,
        selects,
    })
}

fn subquery(alloc: Global, s: Select) -> Result<Source, NoMemory>
    ensures { IfOk result (λ source. source ≡ spec.subquery s) }
{
    let query = one(alloc, s)?;
    Ok(Source::Sub(Boxed::new(alloc, query)?, false))
}

fn as_source(alloc: Global, s: Select) -> Result<FromItem, NoMemory>
    ensures { IfOk result (λ f. f ≡ spec.as_source s) }
{
    let columns = value_names(alloc, s.list.len())?;
    let alias = name_that_is(alloc, "away_q")?;
    let source = subquery(alloc, s)?;
    Ok(FromItem {
        source,
        alias,
        columns,
    })
}

fn item(alloc: Global, expr: Expr) -> Result<Items<Item>, NoMemory>
    ensures { IfOk result (λ list. list ≡ spec.only_item expr) }
{
    let mut list = Items::new(alloc);
    list.push(Item { expr, alias: None })?;
    Ok(list)
}

fn from(alloc: Global, s: Select) -> Result<Items<FromItem>, NoMemory>
    ensures { IfOk result (λ list. list ≡ spec.only_source s) }
{
    let mut list = Items::new(alloc);
    list.push(as_source(alloc, s)?)?;
    Ok(list)
}

fn over_source(alloc: Global, expr: Expr, limit: Option<Expr>, s: Select) -> Result<Expr, NoMemory>
    ensures { IfOk result (λ e. e ≡ spec.scalar_over expr limit s) }
{
    let from = from(alloc, s)?;
    let list = item(alloc, expr)?;
    let select = Select {
        list,
        from,
        filter: None,
        order: Items::new(alloc),
        limit,
    };
    let query = one(alloc, select)?;
    Ok(Expr::Scalar(Boxed::new(alloc, query)?))
}

fn compared(alloc: Global, op: CmpOp, s: Select, than: i64) -> Result<Expr, NoMemory>
    ensures { IfOk result (λ e. e ≡ spec.count_compared op s than) }
{
    let count = Boxed::new(alloc, over_source(alloc, Expr::CountRows, None, s)?)?;
    let than = Boxed::new(alloc, Expr::Int(than))?;
    Ok(Expr::Compare(op, count, than))
}

/// Whether the select has no row.
pub(crate) fn no_row(alloc: Global, s: Select) -> Result<Expr, NoMemory>
    ensures { IfOk result (λ e. e ≡ spec.no_row s) }
{
    compared(alloc, CmpOp::Eq, s, 0)
}

/// Whether it has two rows or more.
pub(crate) fn more_rows(alloc: Global, s: Select) -> Result<Expr, NoMemory>
    ensures { IfOk result (λ e. e ≡ spec.more_rows s) }
{
    compared(alloc, CmpOp::Gt, s, 1)
}

/// The value of the first row at a place, or NULL where there is no row.
fn pick(alloc: Global, s: Select, place: u32) -> Result<Expr, NoMemory>
    ensures { IfOk result (λ e. e ≡ spec.pick s place) }
{
    let column = Expr::Column(Col {
        level: 0,
        item: 0,
        column: place,
    });
    over_source(alloc, column, Some(Expr::Int(1)), s)
}

/// The same under a cast, where there is one.
pub(crate) fn pick_as(
    alloc: Global,
    ty: Option<Ty>,
    s: Select,
    place: u32,
) -> Result<Expr, NoMemory>
    ensures { IfOk result (λ e. e ≡ spec.pick_as ty s place) }
{
    let pick = pick(alloc, s, place)?;
    match ty {
        None => Ok(pick),
        Some(ty) => Ok(Expr::Cast(Boxed::new(alloc, pick)?, ty)),
    }
}
