//! The tables of a schema.

ghost use Rattle.std.specs.Prelude.{◌≡◌, ◌≤◌, length};
ghost use Rattle.away_grammar.specs.Grammar.{Tree, column, columns, tables};
ghost use Rattle.sql_text.specs.Plans.{Gives};
ghost use Rattle.sql_text.specs.Descent.{plan, column_plan, table_columns_plan, tables_plan};

use crate::cursor::Cursor;
use crate::refusal::Refusal;
use crate::tables::schema_qualified_name;
use away_grammar::Mark;
use away_trees::{ColumnSchema, TableSchema};
use sqlite_items::Items;
use std::alloc::Global;

/// The tables that CREATE TABLE makes, one behind the other. The manual: 5.1, Table Basics, and 5.4.2, Not-Null Constraints.
pub fn tables_of(alloc: Global, tokens: &mut Cursor<'_>) -> Result<Items<TableSchema>, Refusal>
    ensures found { Gives Tree plan tables tables_plan tokens.old result tokens.new }
    ensures shrinks { length tokens.new ≤ length tokens.old }
{
    let mut found = Items::new(alloc);
    while tokens.eat(Mark::Create) {
        tokens.expect(Mark::Table)?;
        let name = schema_qualified_name(alloc, tokens)?;
        tokens.expect(Mark::Open)?;
        let columns = columns_of(alloc, tokens)?;
        tokens.expect(Mark::Close)?;
        tokens.expect(Mark::Semicolon)?;
        found.push(TableSchema { name, columns })?;
    }
    Ok(found)
}

/// One or more columns with commas between them.
fn columns_of(alloc: Global, tokens: &mut Cursor<'_>) -> Result<Items<ColumnSchema>, Refusal>
    ensures found { Gives Tree plan columns table_columns_plan tokens.old result tokens.new }
    ensures shrinks { length tokens.new ≤ length tokens.old }
{
    let mut found = Items::new(alloc);
    loop {
        found.push(column_of(alloc, tokens)?)?;
        if !tokens.eat(Mark::Comma) {
            return Ok(found);
        }
    }
}

/// The name of a column, its type, and NOT NULL if it stands there.
fn column_of(alloc: Global, tokens: &mut Cursor<'_>) -> Result<ColumnSchema, Refusal>
    ensures found { Gives Tree plan column column_plan tokens.old result tokens.new }
    ensures shrinks { length tokens.new ≤ length tokens.old }
{
    let name = tokens.name(alloc)?;
    let ty = tokens.type_name()?;
    let not_null = tokens.eat(Mark::Not);
    if not_null {
        tokens.expect(Mark::Null)?;
    }
    Ok(ColumnSchema { name, ty, not_null })
}
