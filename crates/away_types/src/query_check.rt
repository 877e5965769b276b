//! The check of queries.

ghost use Rattle.std.specs.Prelude.{◌≡◌, IfOk, IfErr};
ghost use Rattle.away_types.specs.CheckedQueries as spec;
ghost use Rattle.away_types.specs.CheckedQueries.{IsCheckedQuery};
ghost use Rattle.away_types.specs.Refusals.{Refuses};

use crate::checked::RuleRefusal;
use crate::checked_query::CheckedQuery;
use crate::checked_schema::CheckedSchema;
use away_names::files::named_file;
use away_names::note::File;
use away_trees::{Query, Schema};
use away_typing::wholes::{QueryVerdict, judged_file};
use away_values::NoMemory;
use elaboration::whole::marked_whole;
use sqlite_items::Boxed;
use std::alloc::Global;

/// The resolved tree, and what was found.
#[derive(Drop)]
struct Verdict {
    query: Boxed<Query>,
    judged: QueryVerdict,
}

/// The file with the operations of its query marked.
pub fn resolved_file(alloc: Global, s: &Schema, q: &Query) -> Result<File, NoMemory>
    ensures { IfOk result (λ f. f ≡ spec.resolved_file s.now q.now) }
{
    let file = named_file(alloc, s, q)?;
    let query = marked_whole(alloc, s, file.first.refers, &file.query)?;
    Ok(File {
        query,
        first: file.first,
        second: file.second,
        note: file.note,
    })
}

fn judged_tree(alloc: Global, s: &Schema, q: &Query) -> Result<Verdict, NoMemory>
    ensures { IfOk result (λ v. v ≡ record {
      query = spec.resolved_query s.now q.now;
      judged = spec.judged_query s.now q.now;
    }) }
{
    let file = resolved_file(alloc, s, q)?;
    let judged = judged_file(alloc, s, &file)?;
    Ok(Verdict {
        query: Boxed::new(alloc, file.query)?,
        judged,
    })
}

fn checked(alloc: Global, s: &CheckedSchema, q: &Query) -> Result<CheckedQuery, RuleRefusal>
    ensures ok { IfOk result (λ c. IsCheckedQuery s.now.schema q.now c.query c.params c.result) }
    ensures err { IfErr result (λ e. Refuses (spec.query_note s.now.schema q.now) e) }
{
    match judged_tree(alloc, &s.schema, q) {
        Err(NoMemory) => Err(RuleRefusal::NoMemory),
        Ok(Verdict { query, judged }) => {
            let QueryVerdict {
                note,
                params,
                result,
            } = judged;
            match note.least {
                None => Ok(CheckedQuery {
                    query: query.into_inner(),
                    params,
                    result,
                }),
                Some(rule) => Err(RuleRefusal::Broken(rule)),
            }
        }
    }
}

/// The query with what its names stand for and its operations marked, where it breaks no rule. A query has at most one checked tree under a schema.
pub fn check_query(alloc: Global, s: &CheckedSchema, q: Query) -> Result<CheckedQuery, RuleRefusal>
    ensures ok { IfOk result (λ c. IsCheckedQuery s.now.schema q c.query c.params c.result) }
    ensures err { IfErr result (λ e. Refuses (spec.query_note s.now.schema q) e) }
{
    match Boxed::new(alloc, q) {
        Ok(q) => checked(alloc, s, q.get()),
        Err(_) => Err(RuleRefusal::NoMemory),
    }
}
