//! A tree as a text that reads as the tree again.

ghost use Rattle.std.specs.Prelude.{◌≡◌, IfOk, IsTrue, string_bytes};
ghost use Rattle.away_grammar.specs.Printing.{query_text};
ghost use Rattle.away_types.specs.CheckedQueries.{resolved_query};
ghost use Rattle.away_types.specs.CheckedRows.{rows_note};
ghost use Rattle.qualified_names.specs.Trees.{qualified};
ghost use Rattle.written_queries.specs.Written.{ResolvesTo};

use crate::same::same_tree;
use away_names::rule::Rule;
use away_trees::{Query, Schema};
use away_types::resolved_file;
use away_typing::row_queries::judged_rows;
use away_values::NoMemory;
use qualified_names::qualified_query;
use sql_printer::print_query;
use sqlite_items::Boxed;
use std::alloc::Global;

/// The text of a tree with names of its columns.
pub fn text_of(alloc: Global, tree: &Query) -> Result<String, NoMemory>
    ensures { IfOk result (λ text. string_bytes text ≡ query_text (qualified tree.now)) }
{
    let named = Boxed::new(alloc, qualified_query(alloc, tree)?)?;
    print_query(alloc, named.get())
}

/// A resolved query, and the least rule but the one on answers that it breaks.
#[derive(Drop)]
struct ResolvedQuery {
    query: Boxed<Query>,
    broken: Option<Rule>,
}

fn resolved(alloc: Global, s: &Schema, query: &Query) -> Result<ResolvedQuery, NoMemory>
    ensures query { IfOk result (λ r. r.query ≡ resolved_query s.now query.now) }
    ensures broken { IfOk result (λ r. r.broken ≡ (rows_note s.now query.now).least) }
{
    let file = resolved_file(alloc, s, query)?;
    let judged = judged_rows(alloc, s, &file)?;
    Ok(ResolvedQuery {
        query: Boxed::new(alloc, file.query)?,
        broken: judged.note.least,
    })
}

/// Whether a query breaks no rule but perhaps the one on answers, and is the tree once its names are resolved.
pub fn is_tree(alloc: Global, s: &Schema, tree: &Query, query: &Query) -> Result<bool, NoMemory>
    ensures { IfOk result (λ yes. IsTrue yes → ResolvesTo s.now tree.now query.now) }
{
    let found = resolved(alloc, s, query)?;
    if found.broken.is_some() {
        return Ok(false);
    }
    same_tree(alloc, found.query.get(), tree)
}
