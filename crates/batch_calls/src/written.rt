//! A tree as a text that reads as the tree again.

ghost use Rattle.std.specs.Prelude.{IfOk, string_bytes};
ghost use Rattle.away_grammar.specs.Texts.{ReadsQuery};
ghost use Rattle.sql_text.specs.Refusals.{MayBeRead};
ghost use Rattle.written_queries.specs.Written.{ReadsAs};

use away_trees::Query;
use away_types::CheckedSchema;
use away_values::NoMemory;
use sql_text::read_query;
use sqlite_items::Boxed;
use std::alloc::Global;
use written_queries::{is_tree, text_of};

/// A query, and its text.
#[derive(Drop)]
pub struct Batch {
    pub query: Boxed<Query>,
    pub text: String,
}

/// The query that a text reads as.
fn read_back(alloc: Global, text: &str) -> Result<Boxed<Query>, NoMemory>
    ensures { IfOk result (λ q. MayBeRead text.now × ReadsQuery text.now q) }
{
    match read_query(alloc, text.as_bytes()) {
        Ok(query) => Ok(Boxed::new(alloc, query)?),
        Err(_) => Err(NoMemory),
    }
}

/// The text of a tree, and the query that it reads as. What is written is read again, and judged: a text that isn't the tree's is never given.
/// That none is such is shown by tests alone, and would be answered as want of memory.
pub(crate) fn written(alloc: Global, s: &CheckedSchema, tree: &Query) -> Result<Batch, NoMemory>
    ensures { IfOk result (λ b. ReadsAs s.now.schema tree.now (string_bytes b.text) b.query) }
{
    let text = text_of(alloc, tree)?;
    let query = read_back(alloc, text.as_str())?;
    if !is_tree(alloc, &s.schema, tree, query.get())? {
        return Err(NoMemory);
    }
    Ok(Batch { query, text })
}
