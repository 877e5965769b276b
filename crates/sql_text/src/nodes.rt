//! The parts of trees that hold no tree of their own sort.

ghost use Rattle.std.specs.Prelude.{◌≡◌, IfOk, ◌^◌, ◌<◌, pos, true, false, None};
ghost use Rattle.away_grammar.specs.Grammar.{IsChain, Tree, at, chained, literal_of, called};
ghost use Rattle.away_grammar.specs.Grammar as spec;
ghost use Rattle.sql_text.specs.Descent as descent;
ghost use Rattle.sql_text.specs.CodeTerminals.{Found, Numbered};

use crate::refusal::Refusal;
use away_grammar::{Level, Mark};
use away_trees::{Expr, Item, Key, Query, Select};
use away_values::{ChainOp, Name, name};
use sqlite_items::{Boxed, Items};
use std::alloc::Global;

/// The operand alone, or the chain that it begins.
pub fn chain_of(first: Boxed<Expr>, more: Items<(ChainOp, Expr)>) -> Expr
    ensures { result ≡ chained first more }
{
    if more.is_empty() {
        first.into_inner()
    } else {
        Expr::Chain(first, more)
    }
}

/// The integer of this value, which is below 9223372036854775808.
pub fn number(value: u64) -> Result<Expr, Refusal>
    ensures { Numbered value result }
{
    match i64::try_from(value) {
        Ok(value) => Ok(Expr::Int(value)),
        Err(_) => Err(Refusal::NoTree),
    }
}

/// The literal that a reserved word is. The manual: 8.6, Boolean Type, for TRUE and FALSE.
pub fn literal(mark: Mark) -> Option<Expr>
    ensures { result ≡ literal_of mark }
{
    match mark {
        Mark::True => Some(Expr::Bool(true)),
        Mark::False => Some(Expr::Bool(false)),
        Mark::Null => Some(Expr::Null),
        _ => None,
    }
}

/// The name of the function that a reserved word calls. The manual: 9.18, Conditional Expressions (9.18.2 and 9.18.4).
pub fn called_name(alloc: Global, mark: Mark) -> Result<Name, Refusal>
    ensures { Found (called mark) result }
{
    let text = match mark {
        Mark::Coalesce => "coalesce",
        Mark::Greatest => "greatest",
        Mark::Least => "least",
        _ => return Err(Refusal::NoTree),
    };
    match name(alloc, text)? {
        Some(name) => Ok(name),
        None => Err(Refusal::NoMemory),
    }
}

/// Whether the expression is an integer literal. As a key of ORDER BY, it would be the number of a column (the manual: 7.5, Sorting Rows).
pub fn is_number(expr: &Expr) -> bool
    ensures { result ≡ spec.is_number expr.now }
{
    matches!(expr, Expr::Int(_))
}

/// The item of a select list.
pub fn item_with(expr: Boxed<Expr>, alias: Option<Name>) -> Item
    ensures { result ≡ descent.item_with expr alias }
{
    Item {
        expr: expr.into_inner(),
        alias,
    }
}

/// The key of ORDER BY. The manual: 7.5, Sorting Rows.
pub fn key_with(expr: Boxed<Expr>, descending: bool) -> Key
    ensures { result ≡ descent.key_with expr descending }
{
    Key {
        expr: expr.into_inner(),
        descending,
    }
}

/// The expression out of its box.
pub fn unboxed(expr: Option<Boxed<Expr>>) -> Option<Expr>
    ensures { result ≡ expr }
{
    match expr {
        Some(expr) => Some(expr.into_inner()),
        None => None,
    }
}

/// The query of these selects, without WITH.
pub fn plain_query(selects: Items<Select>) -> Query
    ensures { result ≡ descent.query_with None selects }
{
    Query {
        recursive: None,
        selects,
    }
}

/// Whether UNION ALL may join the selects: where there are several, none has ORDER BY or LIMIT.
/// The manual: SELECT, UNION Clause; selects with ORDER BY or LIMIT in parentheses aren't read, which is our own choice.
pub fn may_join(selects: &[Select]) -> bool
    ensures { result ≡ spec.may_join selects.now }
{
    if selects.len() < 2 {
        return selects.len() == 1;
    }
    selects.iter().all(|select| is_plain(select))
}

fn is_plain(select: &Select) -> bool
    ensures { result ≡ spec.is_plain select.now }
{
    select.order.is_empty() && select.limit.is_none()
}
