//! FROM items: tables, and what stands behind a subquery.

ghost use Rattle.std.specs.Prelude.{◌≡◌, ◌≤◌, ◌<◌, length, IfOk};
ghost use Rattle.away_grammar.specs.Grammar.{Tree, from_item, names};
ghost use Rattle.sql_text.specs.Plans.{Gives};
ghost use Rattle.sql_text.specs.Descent as descent;
ghost use Rattle.sql_text.specs.Descent.{plan, names_plan, table_plan, columns_plan, alias_plan};
ghost use Rattle.sql_text.specs.SchemaQualified.{NameRead};

use crate::cursor::Cursor;
use crate::refusal::Refusal;
use crate::terminals::is_public;
use away_grammar::Mark;
use away_trees::{FromItem, Query, Source};
use away_values::Name;
use sqlite_items::{Boxed, Items};
use std::alloc::Global;

fn from_with(source: Source, alias: Name, columns: Items<Name>) -> FromItem
    ensures { result ≡ descent.from_with source alias columns }
{
    FromItem {
        source,
        alias,
        columns,
    }
}

/// A table, perhaps behind `public.`, and its alias, which is its name where none is written.
/// The manual: 7.2.1.2, Table and Column Aliases.
pub fn table_item(alloc: Global, tokens: &mut Cursor<'_>) -> Result<FromItem, Refusal>
    ensures found { Gives Tree plan from_item
        (descent.schema_qualified_name table_plan) tokens.old result tokens.new }
    ensures shrinks { length tokens.new ≤ length tokens.old }
{
    let name = schema_qualified_name(alloc, tokens)?;
    aliased_table(alloc, tokens, name)
}

/// A name, perhaps behind `public.`. The manual: 5.9.2, The Public Schema. That no other schema is read is our own choice.
pub fn schema_qualified_name(alloc: Global, tokens: &mut Cursor<'_>) -> Result<Name, Refusal>
    ensures found { NameRead tokens.old result tokens.new }
    ensures shrinks { length tokens.new ≤ length tokens.old }
    ensures shorter { IfOk result (λ _. length tokens.new < length tokens.old) }
{
    let first = tokens.name(alloc)?;
    if is_public(&first) {
        if tokens.eat(Mark::Dot) {
            return tokens.name(alloc);
        }
    }
    Ok(first)
}

/// The alias behind a table's name.
fn aliased_table(alloc: Global, tokens: &mut Cursor<'_>, name: Name) -> Result<FromItem, Refusal>
    ensures found { Gives Tree plan from_item (table_plan name) tokens.old result tokens.new }
    ensures shrinks { length tokens.new ≤ length tokens.old }
{
    if tokens.eat(Mark::As) {
        let alias = tokens.name(alloc)?;
        return Ok(from_with(Source::Table(name), alias, Items::new(alloc)));
    }
    match tokens.perhaps_name(alloc)? {
        Some(alias) => Ok(from_with(Source::Table(name), alias, Items::new(alloc))),
        None => {
            let alias = name.copy(alloc)?;
            Ok(from_with(Source::Table(name), alias, Items::new(alloc)))
        }
    }
}

/// The alias of a subquery, and its column names if they stand there.
/// The manual: 7.2.1.3, Subqueries, where a subquery has to have an alias.
pub fn named_subquery(
    alloc: Global,
    tokens: &mut Cursor<'_>,
    query: Boxed<Query>,
    lateral: bool,
) -> Result<FromItem, Refusal>
    ensures found { Gives Tree plan from_item
        (alias_plan query lateral) tokens.old result tokens.new }
    ensures shrinks { length tokens.new ≤ length tokens.old }
{
    tokens.eat(Mark::As);
    let alias = tokens.name(alloc)?;
    if !tokens.eat(Mark::Open) {
        return Ok(from_with(Source::Sub(query, lateral), alias, Items::new(alloc)));
    }
    let columns = names_of(alloc, tokens)?;
    tokens.expect(Mark::Close)?;
    Ok(from_with(Source::Sub(query, lateral), alias, columns))
}

/// One or more names with commas between them.
pub fn names_of(alloc: Global, tokens: &mut Cursor<'_>) -> Result<Items<Name>, Refusal>
    ensures found { Gives Tree plan names names_plan tokens.old result tokens.new }
    ensures shrinks { length tokens.new ≤ length tokens.old }
{
    let mut found = Items::new(alloc);
    loop {
        found.push(tokens.name(alloc)?)?;
        if !tokens.eat(Mark::Comma) {
            return Ok(found);
        }
    }
}
