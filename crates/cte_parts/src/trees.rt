//! Small trees that the query is made of.

ghost use Rattle.std.specs.Prelude.{◌≡◌, ◌++◌, ◌∷◌, [], map, length, true, pos, Some, None, IfOk, OnOk};
ghost use Rattle.away_values.specs.declared.operators.CmpOp.TheVariants as cmp;
ghost use Rattle.away_values.specs.Classes.{is_class};
ghost use Rattle.away_values.specs.declared.types.Ty.TheVariants as ty;
ghost use Rattle.away_trees.specs.declared.queries.Expr.TheVariants as expr;
ghost use Rattle.away_trees.specs.declared.queries.Expr.TheViews.{roll-Select, roll-Query};
ghost use Rattle.sql_meaning.specs.Trees as tree;
ghost use Rattle.cte_parts.specs.Names as names;
ghost use Rattle.cte_parts.specs.Trees as spec;

use crate::names::{Known, alias_name, digits, names_carrying};
use crate::numbers::{bigint, small};
use away_trees::{Col, Expr, FromItem, Item, Query, Select, Source};
use away_values::{Class, CmpOp, IsTest, NoMemory, Ty, Word, word};
use sqlite_items::{Boxed, Items};
use std::alloc::Global;

/// A value under a cast to its type.
fn cast(alloc: Global, value: Expr, ty: Ty) -> Result<Expr, NoMemory>
    ensures { IfOk result (λ e. e ≡ tree.cast_to ty value) }
{
    Ok(Expr::Cast(Boxed::new(alloc, value)?, ty))
}

pub fn number(alloc: Global, value: usize) -> Result<Expr, NoMemory>
    ensures { IfOk result (λ e. e ≡ tree.number (pos value)) }
{
    cast(alloc, Expr::Int(bigint(value)?), Ty::Bigint)
}

pub fn truth(alloc: Global, value: bool) -> Result<Expr, NoMemory>
    ensures { IfOk result (λ e. e ≡ tree.truth value) }
{
    cast(alloc, Expr::Bool(value), Ty::Boolean)
}

pub fn null(alloc: Global, ty: Ty) -> Result<Expr, NoMemory>
    ensures { IfOk result (λ e. e ≡ tree.null_of ty) }
{
    cast(alloc, Expr::Null, ty)
}

/// The text of a class.
pub fn class_text(alloc: Global, class: Class) -> Result<Expr, NoMemory>
    requires { is_class class.code ≡ true }
    ensures { IfOk result (λ e. e ≡ tree.cast_to ty.Text (expr.Str class.code)) }
{
    let spelled = spelled(alloc, &class.code)?;
    cast(alloc, Expr::Str(spelled), Ty::Text)
}

fn spelled(alloc: Global, code: &[u8]) -> Result<Word, NoMemory>
    requires { is_class code.now ≡ true }
    ensures { IfOk result (λ w. w ≡ code.now) }
{
    match str::from_utf8(code) {
        Ok(text) => match word(alloc, text)? {
            Some(word) => Ok(word),
            None => unreachable!(),
        },
        Err(_) => unreachable!(),
    }
}

/// A column: so many selects further out, of an item, at a place.
pub fn col(level: u32, item: usize, column: usize) -> Result<Expr, NoMemory>
    ensures { IfOk result (λ e. e ≡ tree.col level item column) }
{
    Ok(Expr::Column(Col {
        level,
        item: small(item)?,
        column: small(column)?,
    }))
}

/// c IS NOT TRUE
pub fn not_true(alloc: Global, c: Expr) -> Result<Expr, NoMemory>
    ensures { IfOk result (λ e. e ≡ spec.is_not_true c) }
{
    Ok(Expr::Is(Boxed::new(alloc, c)?, IsTest::True, true))
}

pub fn not(alloc: Global, c: Expr) -> Result<Expr, NoMemory>
    ensures { IfOk result (λ e. e ≡ expr.Not c) }
{
    Ok(Expr::Not(Boxed::new(alloc, c)?))
}

/// Whether two values are equal.
pub fn equal(alloc: Global, left: Expr, right: Expr) -> Result<Expr, NoMemory>
    ensures { IfOk result (λ e. e ≡ expr.Compare cmp.Eq left right) }
{
    let left = Boxed::new(alloc, left)?;
    Ok(Expr::Compare(CmpOp::Eq, left, Boxed::new(alloc, right)?))
}

/// Adds an item without an alias to a select list.
pub fn add(list: &mut Items<Item>, expr: Expr) -> Result<(), NoMemory>
    ensures { OnOk result (list.new ≡ list.old ++ tree.item expr ∷ []) }
{
    list.push(Item { expr, alias: None })?;
    Ok(())
}

/// A list of this expression alone.
pub fn only(alloc: Global, expr: Expr) -> Result<Items<Item>, NoMemory>
    ensures { IfOk result (λ list. list ≡ tree.item expr ∷ []) }
{
    let mut list = Items::new(alloc);
    add(&mut list, expr)?;
    Ok(list)
}

/// The select of this list, without ORDER BY and LIMIT.
pub fn select(
    alloc: Global,
    list: Items<Item>,
    from: Items<FromItem>,
    filter: Option<Expr>,
) -> Select
    ensures { result ≡ roll-Select
        (record { list = list; from = from; filter = filter; order = []; limit = None }) }
{
    Select {
        list,
        from,
        filter,
        order: Items::new(alloc),
        limit: None,
    }
}

/// A list of one select.
pub fn alone(alloc: Global, select: Select) -> Result<Items<Select>, NoMemory>
    ensures { IfOk result (λ list. list ≡ select ∷ []) }
{
    let mut selects = Items::new(alloc);
    selects.push(select)?;
    Ok(selects)
}

/// The query of these selects.
pub fn subquery(alloc: Global, selects: Items<Select>) -> Result<Boxed<Query>, NoMemory>
    ensures { IfOk result (λ q. q ≡ roll-Query (record { recursive = None; selects = selects })) }
{
    let query = Query {
        recursive: None,
        selects,
    };
    Ok(Boxed::new(alloc, query)?)
}

/// The working table, alone.
pub fn working(alloc: Global, tables: usize, columns: usize) -> Result<Items<FromItem>, NoMemory>
    ensures { IfOk result (λ list. list ≡ spec.working tables columns ∷ []) }
{
    working_carrying(alloc, tables, 0, columns)
}

/// The working table, alone; so many of its columns are carried from row to row.
pub fn working_carrying(
    alloc: Global,
    tables: usize,
    carried: usize,
    columns: usize,
) -> Result<Items<FromItem>, NoMemory>
    ensures { IfOk result (λ list. list ≡ spec.working_carrying tables carried columns ∷ []) }
{
    let mut names = Items::new(alloc);
    names.push(digits(alloc, tables)?)?;
    names.append(names_carrying(alloc, carried, columns)?)?;
    let item = FromItem {
        source: Source::Table(Known::Table.name(alloc)?),
        alias: Known::Table.name(alloc)?,
        columns: names,
    };
    let mut from = Items::new(alloc);
    from.push(item)?;
    Ok(from)
}

/// A row of one column, as an item of a branch.
fn only_as(alloc: Global, alias: usize, select: Select) -> Result<FromItem, NoMemory>
    ensures { IfOk result (λ i. i ≡ spec.only_as alias select) }
{
    let query = subquery(alloc, alone(alloc, select)?)?;
    Ok(FromItem {
        source: Source::Sub(query, true),
        alias: alias_name(alloc, alias)?,
        columns: Known::Only.alone(alloc)?,
    })
}

/// One row where the condition holds, and none elsewhere.
pub fn gate_as(alloc: Global, alias: usize, c: Expr) -> Result<FromItem, NoMemory>
    ensures { IfOk result (λ i. i ≡ spec.gate_as alias c) }
{
    let list = only(alloc, truth(alloc, true)?)?;
    only_as(
        alloc,
        alias,
        select(alloc, list, Items::new(alloc), Some(c)),
    )
}

/// The row that holds a value.
pub fn let_as(alloc: Global, alias: usize, value: Expr) -> Result<FromItem, NoMemory>
    ensures { IfOk result (λ i. i ≡ spec.let_as alias value) }
{
    let list = only(alloc, value)?;
    only_as(alloc, alias, select(alloc, list, Items::new(alloc), None))
}

/// The row of one select or of the other.
pub fn either_as(
    alloc: Global,
    alias: usize,
    columns: usize,
    first: Select,
    second: Select,
) -> Result<FromItem, NoMemory>
    ensures { IfOk result (λ i. i ≡ spec.either_as alias columns first second) }
{
    either_carrying(alloc, alias, 0, columns, first, second)
}

/// The row of one select or of the other, of which so many columns are carried.
pub fn either_carrying(
    alloc: Global,
    alias: usize,
    carried: usize,
    columns: usize,
    first: Select,
    second: Select,
) -> Result<FromItem, NoMemory>
    ensures { IfOk result (λ i. i ≡ spec.either_carrying alias carried columns first second) }
{
    let mut selects = alone(alloc, first)?;
    selects.push(second)?;
    Ok(FromItem {
        source: Source::Sub(subquery(alloc, selects)?, true),
        alias: alias_name(alloc, alias)?,
        columns: names_carrying(alloc, carried, columns)?,
    })
}
