//! The clauses of a select, which stand behind its list (PostgreSQL manual, 7.2, Table Expressions, 7.5, Sorting Rows, and 7.6,
//! LIMIT and OFFSET).

ghost use Rattle.std.specs.Prelude.{◌≡◌, ◌≤◌, length};
ghost use Rattle.away_grammar.specs.FunctionGrammar.{clauses};
ghost use Rattle.away_grammar.specs.Grammar.{items, from_clause, where_clause, order_clause, limit_clause};
ghost use Rattle.sql_text.specs.Plans.{Gives};
ghost use Rattle.plsql_parse.specs.Sorts.{AnyTree, sql, part};
ghost use Rattle.plsql_parse.specs.Bodies.{clauses_plan};
ghost use Rattle.plsql_parse.specs.Plans.{any_plan};

use away_trees::{Expr, FromItem, Item, Key, Select};
use sql_text::{Cursor, Refusal, from_of, items_of, limit_of, order_of, unboxed, where_of};
use sqlite_items::{Boxed, Items};
use std::alloc::Global;

/// The items of a list.
pub(crate) fn list_of(alloc: Global, tokens: &mut Cursor<'_>) -> Result<Items<Item>, Refusal>
    ensures found { Gives AnyTree any_plan (sql items)
        (any_plan (sql items)) tokens.old result tokens.new }
    ensures shrinks { length tokens.new ≤ length tokens.old }
{
    items_of(alloc, tokens)
}

/// FROM and its items, if it stands there.
fn sources_of(alloc: Global, tokens: &mut Cursor<'_>) -> Result<Items<FromItem>, Refusal>
    ensures found { Gives AnyTree any_plan (sql from_clause)
        (any_plan (sql from_clause)) tokens.old result tokens.new }
    ensures shrinks { length tokens.new ≤ length tokens.old }
{
    from_of(alloc, tokens)
}

/// WHERE and its condition, if it stands there.
fn filter_of(alloc: Global, tokens: &mut Cursor<'_>) -> Result<Option<Boxed<Expr>>, Refusal>
    ensures found { Gives AnyTree any_plan (sql where_clause)
        (any_plan (sql where_clause)) tokens.old result tokens.new }
    ensures shrinks { length tokens.new ≤ length tokens.old }
{
    where_of(alloc, tokens)
}

/// ORDER BY and its keys, if it stands there.
fn keys_of(alloc: Global, tokens: &mut Cursor<'_>) -> Result<Items<Key>, Refusal>
    ensures found { Gives AnyTree any_plan (sql order_clause)
        (any_plan (sql order_clause)) tokens.old result tokens.new }
    ensures shrinks { length tokens.new ≤ length tokens.old }
{
    order_of(alloc, tokens)
}

/// LIMIT and its count, if it stands there.
fn count_of(alloc: Global, tokens: &mut Cursor<'_>) -> Result<Option<Boxed<Expr>>, Refusal>
    ensures found { Gives AnyTree any_plan (sql limit_clause)
        (any_plan (sql limit_clause)) tokens.old result tokens.new }
    ensures shrinks { length tokens.new ≤ length tokens.old }
{
    limit_of(alloc, tokens)
}

/// The select of a list, by the clauses behind it.
pub(crate) fn clauses_of(
    alloc: Global,
    tokens: &mut Cursor<'_>,
    list: Items<Item>,
) -> Result<Boxed<Select>, Refusal>
    ensures found { Gives AnyTree any_plan (part (clauses list))
        (clauses_plan list) tokens.old result tokens.new }
    ensures shrinks { length tokens.new ≤ length tokens.old }
{
    let from = sources_of(alloc, tokens)?;
    let filter = filter_of(alloc, tokens)?;
    let order = keys_of(alloc, tokens)?;
    let limit = count_of(alloc, tokens)?;
    Ok(Boxed::new(
        alloc,
        Select {
            list,
            from,
            filter: unboxed(filter),
            order,
            limit: unboxed(limit),
        },
    )?)
}
