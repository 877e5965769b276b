//! Whole query files.

ghost use Rattle.std.specs.Prelude.{◌≡◌, ◌≤◌, length, option_map, IfOk, Ok, Some};
ghost use Rattle.away_grammar.specs.Grammar.{Tree, file, recursive};
ghost use Rattle.sql_text.specs.Plans.{Gives};
ghost use Rattle.sql_text.specs.Descent as descent;
ghost use Rattle.sql_text.specs.Descent.{plan, file_plan, file_with, recursive_file_plan, recursive_plan};
ghost use Rattle.sql_text.specs.CodeTerminals.{Found};

use crate::cursor::Cursor;
use crate::nodes::may_join;
use crate::refusal::Refusal;
use crate::selects::{query_of, selects_of};
use crate::tables::names_of;
use away_grammar::Mark;
use away_trees::{Query, Recursive, Select};
use away_values::{Name, NoMemory};
use sqlite_items::{Boxed, Items};
use std::alloc::Global;

/// A query, perhaps behind WITH RECURSIVE, and perhaps with `;` at its end. The manual: 7.8.2, Recursive Queries.
pub fn file_of(alloc: Global, tokens: &mut Cursor<'_>) -> Result<Boxed<Query>, Refusal>
    ensures found { Gives Tree plan file file_plan tokens.old result tokens.new }
    ensures shrinks { length tokens.new ≤ length tokens.old }
{
    if tokens.sees_with() {
        return recursive_file(alloc, tokens);
    }
    let query = query_of(alloc, tokens)?;
    Ok(ended(tokens, query))
}

/// A query behind WITH RECURSIVE.
fn recursive_file(alloc: Global, tokens: &mut Cursor<'_>) -> Result<Boxed<Query>, Refusal>
    ensures found { Gives Tree plan file recursive_file_plan tokens.old result tokens.new }
    ensures shrinks { length tokens.new ≤ length tokens.old }
{
    let recursive = recursive_of(alloc, tokens)?;
    let selects = selects_of(alloc, tokens)?;
    if !may_join(selects.as_slice()) {
        return Err(Refusal::NoTree);
    }
    let query = recursive_query(alloc, recursive, selects)?;
    Ok(ended(tokens, query))
}

/// The query, whether `;` stands behind it or not.
fn ended(tokens: &mut Cursor<'_>, query: Boxed<Query>) -> Boxed<Query>
    ensures found { Gives Tree plan file (file_with query) tokens.old (Ok result) tokens.new }
    ensures shrinks { length tokens.new ≤ length tokens.old }
{
    tokens.eat(Mark::Semicolon);
    query
}

/// The query of these selects behind WITH RECURSIVE.
fn recursive_query(
    alloc: Global,
    recursive: Boxed<Recursive>,
    selects: Items<Select>,
) -> Result<Boxed<Query>, NoMemory>
    ensures { IfOk result (λ query. query ≡ descent.query_with (Some recursive) selects) }
{
    let query = Query {
        recursive: Some(recursive.into_inner()),
        selects,
    };
    Ok(Boxed::new(alloc, query)?)
}

/// WITH RECURSIVE: the last of its selects is the second term.
fn recursive_of(alloc: Global, tokens: &mut Cursor<'_>) -> Result<Boxed<Recursive>, Refusal>
    ensures found { Gives Tree plan recursive recursive_plan tokens.old result tokens.new }
    ensures shrinks { length tokens.new ≤ length tokens.old }
{
    tokens.expect(Mark::With)?;
    tokens.expect(Mark::Recursive)?;
    let name = tokens.name(alloc)?;
    tokens.expect(Mark::Open)?;
    let columns = names_of(alloc, tokens)?;
    tokens.expect(Mark::Close)?;
    tokens.expect(Mark::As)?;
    tokens.expect(Mark::Open)?;
    let selects = selects_of(alloc, tokens)?;
    tokens.expect(Mark::Close)?;
    recursive_with(alloc, name, columns, selects)
}

/// The recursive query of these selects, of which the last is the second term.
fn recursive_with(
    alloc: Global,
    name: Name,
    columns: Items<Name>,
    selects: Items<Select>,
) -> Result<Boxed<Recursive>, Refusal>
    ensures { Found (option_map (descent.recursive_with name columns)
        (descent.parted selects)) result }
{
    let Some((first, second)) = parted(selects) else {
        return Err(Refusal::NoTree);
    };
    let recursive = Recursive {
        name,
        columns,
        first,
        second,
    };
    Ok(Boxed::new(alloc, recursive)?)
}

/// The first selects and the last one, where there are two.
fn parted(mut selects: Items<Select>) -> Option<(Items<Select>, Select)>
    ensures { result ≡ descent.parted selects }
{
    let second = selects.pop()?;
    if selects.is_empty() {
        None
    } else {
        Some((selects, second))
    }
}
