//! The selects of a query, and the queries inside expressions.

ghost use Rattle.std.specs.Prelude.{◌≤◌, length};
ghost use Rattle.away_grammar.specs.Grammar.{Tree, item, items, from_item, from_items, from_clause, where_clause, key, keys};
ghost use Rattle.away_grammar.specs.Grammar.{order_clause, limit_clause, select, selects, query};
ghost use Rattle.sql_text.specs.Plans.{Gives};
ghost use Rattle.sql_text.specs.Descent.{plan, query_plan, selects_plan, select_plan, items_plan, item_plan, from_clause_plan};
ghost use Rattle.sql_text.specs.Descent.{from_items_plan, from_item_plan, sub_plan, where_plan, limit_plan, order_plan};
ghost use Rattle.sql_text.specs.Descent.{keys_plan, key_plan};

use crate::cursor::Cursor;
use crate::expressions::operand;
use crate::nodes::{is_number, item_with, key_with, may_join, plain_query, unboxed};
use crate::refusal::Refusal;
use crate::tables::{named_subquery, table_item};
use away_grammar::{Level, Mark};
use away_trees::{Expr, FromItem, Item, Key, Query, Select};
use sqlite_items::{Boxed, Items};
use std::alloc::Global;

/// A query inside another, or inside an expression. The manual: 4.2.11, Scalar Subqueries, and 7.2.1.3, Subqueries.
#[cycle(reader)]
pub fn query_of(alloc: Global, tokens: &mut Cursor<'_>) -> Result<Boxed<Query>, Refusal>
    ensures found { Gives Tree plan query query_plan tokens.old result tokens.new }
    ensures shrinks { length tokens.new ≤ length tokens.old }
{
    let selects = selects_of(alloc, tokens)?;
    if !may_join(selects.as_slice()) {
        return Err(Refusal::NoTree);
    }
    Ok(Boxed::new(alloc, plain_query(selects))?)
}

/// Selects with UNION ALL between them. The manual: 7.4, Combining Queries.
#[cycle(reader)]
pub fn selects_of(alloc: Global, tokens: &mut Cursor<'_>) -> Result<Items<Select>, Refusal>
    ensures found { Gives Tree plan selects selects_plan tokens.old result tokens.new }
    ensures shrinks { length tokens.new ≤ length tokens.old }
{
    let mut found = Items::new(alloc);
    loop {
        found.push(select_of(alloc, tokens)?)?;
        if !tokens.eat(Mark::Union) {
            return Ok(found);
        }
        tokens.expect(Mark::All)?;
    }
}

/// SELECT and its clauses.
#[cycle(reader)]
fn select_of(alloc: Global, tokens: &mut Cursor<'_>) -> Result<Select, Refusal>
    ensures found { Gives Tree plan select select_plan tokens.old result tokens.new }
    ensures shrinks { length tokens.new ≤ length tokens.old }
{
    tokens.expect(Mark::Select)?;
    let list = items_of(alloc, tokens)?;
    let from = from_of(alloc, tokens)?;
    let filter = where_of(alloc, tokens)?;
    let order = order_of(alloc, tokens)?;
    let limit = limit_of(alloc, tokens)?;
    Ok(Select {
        list,
        from,
        filter: unboxed(filter),
        order,
        limit: unboxed(limit),
    })
}

/// The items of a select list.
#[cycle(reader)]
pub fn items_of(alloc: Global, tokens: &mut Cursor<'_>) -> Result<Items<Item>, Refusal>
    ensures found { Gives Tree plan items items_plan tokens.old result tokens.new }
    ensures shrinks { length tokens.new ≤ length tokens.old }
{
    let mut found = Items::new(alloc);
    loop {
        found.push(item_of(alloc, tokens)?)?;
        if !tokens.eat(Mark::Comma) {
            return Ok(found);
        }
    }
}

/// An expression, and its alias if one stands there.
#[cycle(reader)]
fn item_of(alloc: Global, tokens: &mut Cursor<'_>) -> Result<Item, Refusal>
    ensures found { Gives Tree plan item item_plan tokens.old result tokens.new }
    ensures shrinks { length tokens.new ≤ length tokens.old }
{
    let expr = operand(alloc, tokens, Level::Or)?;
    if !tokens.eat(Mark::As) {
        return Ok(item_with(expr, None));
    }
    let alias = tokens.name(alloc)?;
    Ok(item_with(expr, Some(alias)))
}

/// FROM and its items, if it stands there.
#[cycle(reader)]
pub fn from_of(alloc: Global, tokens: &mut Cursor<'_>) -> Result<Items<FromItem>, Refusal>
    ensures found { Gives Tree plan from_clause from_clause_plan tokens.old result tokens.new }
    ensures shrinks { length tokens.new ≤ length tokens.old }
{
    if tokens.eat(Mark::From) {
        from_items_of(alloc, tokens)
    } else {
        Ok(Items::new(alloc))
    }
}

/// The items behind FROM.
#[cycle(reader)]
fn from_items_of(alloc: Global, tokens: &mut Cursor<'_>) -> Result<Items<FromItem>, Refusal>
    ensures found { Gives Tree plan from_items from_items_plan tokens.old result tokens.new }
    ensures shrinks { length tokens.new ≤ length tokens.old }
{
    let mut found = Items::new(alloc);
    loop {
        found.push(from_item_of(alloc, tokens)?)?;
        if !tokens.eat(Mark::Comma) {
            return Ok(found);
        }
    }
}

/// A table or a subquery.
#[cycle(reader)]
fn from_item_of(alloc: Global, tokens: &mut Cursor<'_>) -> Result<FromItem, Refusal>
    ensures found { Gives Tree plan from_item from_item_plan tokens.old result tokens.new }
    ensures shrinks { length tokens.new ≤ length tokens.old }
{
    if tokens.eat(Mark::Lateral) {
        tokens.expect(Mark::Open)?;
        subquery(alloc, tokens, true)
    } else if tokens.eat(Mark::Open) {
        subquery(alloc, tokens, false)
    } else {
        table_item(alloc, tokens)
    }
}

/// A subquery behind `(`, its alias, and its column names if they stand there.
#[cycle(reader)]
fn subquery(alloc: Global, tokens: &mut Cursor<'_>, lateral: bool) -> Result<FromItem, Refusal>
    ensures found { Gives Tree plan from_item (sub_plan lateral) tokens.old result tokens.new }
    ensures shrinks { length tokens.new ≤ length tokens.old }
{
    let query = query_of(alloc, tokens)?;
    tokens.expect(Mark::Close)?;
    named_subquery(alloc, tokens, query, lateral)
}

/// WHERE and its condition, if it stands there.
#[cycle(reader)]
pub fn where_of(alloc: Global, tokens: &mut Cursor<'_>) -> Result<Option<Boxed<Expr>>, Refusal>
    ensures found { Gives Tree plan where_clause where_plan tokens.old result tokens.new }
    ensures shrinks { length tokens.new ≤ length tokens.old }
{
    if tokens.eat(Mark::Where) {
        Ok(Some(operand(alloc, tokens, Level::Or)?))
    } else {
        Ok(None)
    }
}

/// LIMIT and its count, if it stands there.
#[cycle(reader)]
pub fn limit_of(alloc: Global, tokens: &mut Cursor<'_>) -> Result<Option<Boxed<Expr>>, Refusal>
    ensures found { Gives Tree plan limit_clause limit_plan tokens.old result tokens.new }
    ensures shrinks { length tokens.new ≤ length tokens.old }
{
    if tokens.eat(Mark::Limit) {
        Ok(Some(operand(alloc, tokens, Level::Or)?))
    } else {
        Ok(None)
    }
}

/// ORDER BY and its keys, if it stands there.
#[cycle(reader)]
pub fn order_of(alloc: Global, tokens: &mut Cursor<'_>) -> Result<Items<Key>, Refusal>
    ensures found { Gives Tree plan order_clause order_plan tokens.old result tokens.new }
    ensures shrinks { length tokens.new ≤ length tokens.old }
{
    if tokens.eat(Mark::Order) {
        tokens.expect(Mark::By)?;
        keys_of(alloc, tokens)
    } else {
        Ok(Items::new(alloc))
    }
}

/// The keys behind ORDER BY.
#[cycle(reader)]
fn keys_of(alloc: Global, tokens: &mut Cursor<'_>) -> Result<Items<Key>, Refusal>
    ensures found { Gives Tree plan keys keys_plan tokens.old result tokens.new }
    ensures shrinks { length tokens.new ≤ length tokens.old }
{
    let mut found = Items::new(alloc);
    loop {
        found.push(key_of(alloc, tokens)?)?;
        if !tokens.eat(Mark::Comma) {
            return Ok(found);
        }
    }
}

/// A key, which is no integer alone, and its direction.
#[cycle(reader)]
fn key_of(alloc: Global, tokens: &mut Cursor<'_>) -> Result<Key, Refusal>
    ensures found { Gives Tree plan key key_plan tokens.old result tokens.new }
    ensures shrinks { length tokens.new ≤ length tokens.old }
{
    let expr = operand(alloc, tokens, Level::Or)?;
    if is_number(expr.get()) {
        return Err(Refusal::NoTree);
    }
    if tokens.eat(Mark::Desc) {
        return Ok(key_with(expr, true));
    }
    tokens.eat(Mark::Asc);
    Ok(key_with(expr, false))
}
