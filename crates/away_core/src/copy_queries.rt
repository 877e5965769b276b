//! Copies of expressions and queries, each equal to what it copies.

ghost use Rattle.std.specs.Prelude.{◌≡◌, IfOk};

use crate::copy_names::{copy_name, copy_names};
use away_trees::{Expr, FromItem, Item, Key, Query, Recursive, Select, Source};
use away_values::{ChainOp, NoMemory};
use sqlite_items::{Boxed, Items};
use std::alloc::Global;

#[cycle(copy_query)]
pub(crate) fn copy_expr(value: &Expr, alloc: Global) -> Result<Expr, NoMemory>
    ensures { IfOk result (λ r. r ≡ value.now) }
{
    match value {
        Expr::Int(n) => Ok(Expr::Int(*n)),
        Expr::Str(text) => Ok(Expr::Str(text.copy(alloc)?)),
        Expr::Bool(b) => Ok(Expr::Bool(*b)),
        Expr::Null => Ok(Expr::Null),
        Expr::Named(name) => Ok(Expr::Named(name.copy(alloc)?)),
        Expr::Dotted(a, c) => Ok(Expr::Dotted(a.copy(alloc)?, c.copy(alloc)?)),
        Expr::Slot(n) => Ok(Expr::Slot(*n)),
        Expr::Column(col) => Ok(Expr::Column(*col)),
        Expr::Param(n, ty) => Ok(Expr::Param(*n, *ty)),
        Expr::Neg(a) => Ok(Expr::Neg(Boxed::new(alloc, copy_expr(a.get(), alloc)?)?)),
        Expr::NegSmall(a) => Ok(Expr::NegSmall(Boxed::new(alloc, copy_expr(a.get(), alloc)?)?)),
        Expr::Not(a) => Ok(Expr::Not(Boxed::new(alloc, copy_expr(a.get(), alloc)?)?)),
        Expr::Is(a, test, not) => Ok(Expr::Is(
            Boxed::new(alloc, copy_expr(a.get(), alloc)?)?,
            *test,
            *not,
        )),
        Expr::Chain(a, rest) => Ok(Expr::Chain(
            Boxed::new(alloc, copy_expr(a.get(), alloc)?)?,
            copy_chain(rest.as_slice(), alloc)?,
        )),
        Expr::Compare(op, a, b) => Ok(Expr::Compare(
            *op,
            Boxed::new(alloc, copy_expr(a.get(), alloc)?)?,
            Boxed::new(alloc, copy_expr(b.get(), alloc)?)?,
        )),
        Expr::Between(not, a, b, c) => Ok(Expr::Between(
            *not,
            Boxed::new(alloc, copy_expr(a.get(), alloc)?)?,
            Boxed::new(alloc, copy_expr(b.get(), alloc)?)?,
            Boxed::new(alloc, copy_expr(c.get(), alloc)?)?,
        )),
        Expr::OneOf(not, a, list) => Ok(Expr::OneOf(
            *not,
            Boxed::new(alloc, copy_expr(a.get(), alloc)?)?,
            copy_exprs(list.as_slice(), alloc)?,
        )),
        Expr::Cast(a, ty) => Ok(Expr::Cast(Boxed::new(alloc, copy_expr(a.get(), alloc)?)?, *ty)),
        Expr::Cases(arms, other) => Ok(Expr::Cases(
            copy_cases(arms.as_slice(), alloc)?,
            copy_other(other, alloc)?,
        )),
        Expr::Call(name, args) => Ok(Expr::Call(
            name.copy(alloc)?,
            copy_exprs(args.as_slice(), alloc)?,
        )),
        Expr::CountRows => Ok(Expr::CountRows),
        Expr::Scalar(query) => Ok(Expr::Scalar(Boxed::new(
            alloc,
            copy_query(query.get(), alloc)?,
        )?)),
        Expr::Exists(query) => Ok(Expr::Exists(Boxed::new(
            alloc,
            copy_query(query.get(), alloc)?,
        )?)),
    }
}

#[cycle(copy_query)]
fn copy_other(value: &Option<Boxed<Expr>>, alloc: Global) -> Result<Option<Boxed<Expr>>, NoMemory>
    ensures { IfOk result (λ r. r ≡ value.now) }
{
    match value {
        None => Ok(None),
        Some(x) => Ok(Some(Boxed::new(alloc, copy_expr(x.get(), alloc)?)?)),
    }
}

#[cycle(copy_query)]
pub(crate) fn copy_filter(value: &Option<Expr>, alloc: Global) -> Result<Option<Expr>, NoMemory>
    ensures { IfOk result (λ r. r ≡ value.now) }
{
    match value {
        None => Ok(None),
        Some(x) => Ok(Some(copy_expr(x, alloc)?)),
    }
}

#[cycle(copy_query)]
fn copy_exprs(list: &[Expr], alloc: Global) -> Result<Items<Expr>, NoMemory>
    ensures { IfOk result (λ r. r ≡ list.now) }
{
    let mut all = Items::new(alloc);
    for i in 0..list.len() {
        all.push(copy_expr(&list[i], alloc)?)?;
    }
    Ok(all)
}

#[cycle(copy_query)]
fn copy_chain(list: &[(ChainOp, Expr)], alloc: Global) -> Result<Items<(ChainOp, Expr)>, NoMemory>
    ensures { IfOk result (λ r. r ≡ list.now) }
{
    let mut all = Items::new(alloc);
    for i in 0..list.len() {
        all.push((list[i].0, copy_expr(&list[i].1, alloc)?))?;
    }
    Ok(all)
}

#[cycle(copy_query)]
fn copy_cases(list: &[(Expr, Expr)], alloc: Global) -> Result<Items<(Expr, Expr)>, NoMemory>
    ensures { IfOk result (λ r. r ≡ list.now) }
{
    let mut all = Items::new(alloc);
    for i in 0..list.len() {
        all.push((copy_expr(&list[i].0, alloc)?, copy_expr(&list[i].1, alloc)?))?;
    }
    Ok(all)
}

#[cycle(copy_query)]
pub(crate) fn copy_item(value: &Item, alloc: Global) -> Result<Item, NoMemory>
    ensures { IfOk result (λ r. r ≡ value.now) }
{
    Ok(Item {
        expr: copy_expr(&value.expr, alloc)?,
        alias: copy_name(&value.alias, alloc)?,
    })
}

#[cycle(copy_query)]
pub(crate) fn copy_source(value: &Source, alloc: Global) -> Result<Source, NoMemory>
    ensures { IfOk result (λ r. r ≡ value.now) }
{
    match value {
        Source::Table(name) => Ok(Source::Table(name.copy(alloc)?)),
        Source::Sub(query, lateral) => Ok(Source::Sub(
            Boxed::new(alloc, copy_query(query.get(), alloc)?)?,
            *lateral,
        )),
    }
}

#[cycle(copy_query)]
pub(crate) fn copy_from_item(value: &FromItem, alloc: Global) -> Result<FromItem, NoMemory>
    ensures { IfOk result (λ r. r ≡ value.now) }
{
    Ok(FromItem {
        source: copy_source(&value.source, alloc)?,
        alias: value.alias.copy(alloc)?,
        columns: copy_names(value.columns.as_slice(), alloc)?,
    })
}

#[cycle(copy_query)]
pub(crate) fn copy_key(value: &Key, alloc: Global) -> Result<Key, NoMemory>
    ensures { IfOk result (λ r. r ≡ value.now) }
{
    Ok(Key {
        expr: copy_expr(&value.expr, alloc)?,
        descending: value.descending,
    })
}

#[cycle(copy_query)]
pub(crate) fn copy_select(value: &Select, alloc: Global) -> Result<Select, NoMemory>
    ensures { IfOk result (λ r. r ≡ value.now) }
{
    Ok(Select {
        list: copy_items(value.list.as_slice(), alloc)?,
        from: copy_from(value.from.as_slice(), alloc)?,
        filter: copy_filter(&value.filter, alloc)?,
        order: copy_keys(value.order.as_slice(), alloc)?,
        limit: copy_filter(&value.limit, alloc)?,
    })
}

#[cycle(copy_query)]
fn copy_items(list: &[Item], alloc: Global) -> Result<Items<Item>, NoMemory>
    ensures { IfOk result (λ r. r ≡ list.now) }
{
    let mut all = Items::new(alloc);
    for i in 0..list.len() {
        all.push(copy_item(&list[i], alloc)?)?;
    }
    Ok(all)
}

#[cycle(copy_query)]
fn copy_from(list: &[FromItem], alloc: Global) -> Result<Items<FromItem>, NoMemory>
    ensures { IfOk result (λ r. r ≡ list.now) }
{
    let mut all = Items::new(alloc);
    for i in 0..list.len() {
        all.push(copy_from_item(&list[i], alloc)?)?;
    }
    Ok(all)
}

#[cycle(copy_query)]
fn copy_keys(list: &[Key], alloc: Global) -> Result<Items<Key>, NoMemory>
    ensures { IfOk result (λ r. r ≡ list.now) }
{
    let mut all = Items::new(alloc);
    for i in 0..list.len() {
        all.push(copy_key(&list[i], alloc)?)?;
    }
    Ok(all)
}

#[cycle(copy_query)]
fn copy_selects(list: &[Select], alloc: Global) -> Result<Items<Select>, NoMemory>
    ensures { IfOk result (λ r. r ≡ list.now) }
{
    let mut all = Items::new(alloc);
    for i in 0..list.len() {
        all.push(copy_select(&list[i], alloc)?)?;
    }
    Ok(all)
}

#[cycle(copy_query)]
pub(crate) fn copy_recursion(value: &Recursive, alloc: Global) -> Result<Recursive, NoMemory>
    ensures { IfOk result (λ r. r ≡ value.now) }
{
    Ok(Recursive {
        name: value.name.copy(alloc)?,
        columns: copy_names(value.columns.as_slice(), alloc)?,
        first: copy_selects(value.first.as_slice(), alloc)?,
        second: copy_select(&value.second, alloc)?,
    })
}

#[cycle(copy_query)]
fn copy_recursive(value: &Option<Recursive>, alloc: Global) -> Result<Option<Recursive>, NoMemory>
    ensures { IfOk result (λ r. r ≡ value.now) }
{
    match value {
        None => Ok(None),
        Some(x) => Ok(Some(copy_recursion(x, alloc)?)),
    }
}

#[cycle(copy_query)]
pub(crate) fn copy_query(value: &Query, alloc: Global) -> Result<Query, NoMemory>
    ensures { IfOk result (λ r. r ≡ value.now) }
{
    Ok(Query {
        recursive: copy_recursive(&value.recursive, alloc)?,
        selects: copy_selects(value.selects.as_slice(), alloc)?,
    })
}
