//! The check of queries for all of their rows.

ghost use Rattle.std.specs.Prelude.{◌≡◌, IfOk, IfErr};
ghost use Rattle.away_types.specs.CheckedQueries.{resolved_query};
ghost use Rattle.away_types.specs.CheckedRows as spec;
ghost use Rattle.away_types.specs.CheckedRows.{IsCheckedRows};
ghost use Rattle.away_types.specs.Refusals.{Refuses};

use crate::checked::RuleRefusal;
use crate::checked_rows::CheckedRows;
use crate::checked_schema::CheckedSchema;
use crate::query_check::resolved_file;
use away_trees::{Query, Schema};
use away_typing::row_queries::{RowsVerdict, judged_rows};
use away_values::NoMemory;
use sqlite_items::Boxed;
use std::alloc::Global;

/// The resolved tree, and what was found.
#[derive(Drop)]
struct Verdict {
    query: Boxed<Query>,
    judged: RowsVerdict,
}

fn judged_tree(alloc: Global, s: &Schema, q: &Query) -> Result<Verdict, NoMemory>
    ensures { IfOk result (λ v. v ≡
        record { query = resolved_query s.now q.now; judged = spec.rows_judged s.now q.now }) }
{
    let file = resolved_file(alloc, s, q)?;
    let judged = judged_rows(alloc, s, &file)?;
    Ok(Verdict {
        query: Boxed::new(alloc, file.query)?,
        judged,
    })
}

fn checked(alloc: Global, s: &CheckedSchema, q: &Query) -> Result<CheckedRows, RuleRefusal>
    ensures ok { IfOk result (λ c. IsCheckedRows s.now.schema q.now c.query c.params c.columns) }
    ensures err { IfErr result (λ e. Refuses (spec.rows_note s.now.schema q.now) e) }
{
    match judged_tree(alloc, &s.schema, q) {
        Err(NoMemory) => Err(RuleRefusal::NoMemory),
        Ok(Verdict { query, judged }) => {
            let RowsVerdict {
                note,
                params,
                columns,
            } = judged;
            match note.least {
                None => Ok(CheckedRows {
                    query: query.into_inner(),
                    params,
                    columns,
                }),
                Some(rule) => Err(RuleRefusal::Broken(rule)),
            }
        }
    }
}

/// The query with what its names stand for, its operations marked, and the types of its columns, where it breaks no rule but perhaps the one on
/// answers.
pub fn check_rows(alloc: Global, s: &CheckedSchema, q: Query) -> Result<CheckedRows, RuleRefusal>
    ensures ok { IfOk result (λ c. IsCheckedRows s.now.schema q c.query c.params c.columns) }
    ensures err { IfErr result (λ e. Refuses (spec.rows_note s.now.schema q) e) }
{
    match Boxed::new(alloc, q) {
        Ok(q) => checked(alloc, s, q.get()),
        Err(_) => Err(RuleRefusal::NoMemory),
    }
}
