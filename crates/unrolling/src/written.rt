//! A tree as a text that reads as the tree again.

ghost use Rattle.std.specs.Prelude.{IfOk, string_bytes};
ghost use Rattle.away_grammar.specs.Texts.{ReadsQuery};
ghost use Rattle.sql_text.specs.Refusals.{MayBeRead};
ghost use Rattle.wider_recursion.specs.WrittenForDatabases.{ReadsForDatabases};

use away_trees::Query;
use away_types::CheckedSchema;
use away_values::NoMemory;
use sql_text::read_query;
use sqlite_items::Boxed;
use std::alloc::Global;
use wider_recursion::is_tree_for_databases;
use written_queries::text_of;

/// A query, and its text.
#[derive(Drop)]
pub(crate) struct WrittenQuery {
    pub(crate) query: Boxed<Query>,
    pub(crate) text: String,
}

/// The query that a text reads as.
fn read_back(alloc: Global, text: &str) -> Result<Boxed<Query>, NoMemory>
    ensures { IfOk result (λ q. MayBeRead text.now × ReadsQuery text.now q) }
{
    match read_query(alloc, text.as_bytes()) {
        Ok(query) => Ok(Boxed::new(alloc, query)?),
        Err(_) => Err(NoMemory),
    }
}

/// The text of a tree, and the query that it reads as, by the rules as databases have them.
pub(crate) fn written(
    alloc: Global,
    s: &CheckedSchema,
    tree: &Query,
) -> Result<WrittenQuery, NoMemory>
    ensures { IfOk result
        (λ w. ReadsForDatabases s.now.schema tree.now (string_bytes w.text) w.query) }
{
    let text = text_of(alloc, tree)?;
    let query = read_back(alloc, text.as_str())?;
    if !is_tree_for_databases(alloc, &s.schema, tree, query.get())? {
        return Err(NoMemory);
    }
    Ok(WrittenQuery { query, text })
}
