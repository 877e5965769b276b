//! The check of the whole query.

ghost use Rattle.std.specs.Prelude.{◌≡◌, ◌↔◌, IsTrue, IfOk, List};
ghost use Rattle.away_trees.specs.declared.queries.Expr.{Expr};
ghost use Rattle.call_forms.specs.Templated.{Templated};
ghost use Rattle.cte_check.specs.Walks as walks;
ghost use Rattle.cte_check.specs.Whole as spec;
ghost use Rattle.cte_reads.specs.Read.{ReadsWhere};

use crate::body::{Given, branch};
use crate::labels::{are_blocks, label_of, label_table};
use crate::whole::{from_branches, up_to_branches};
use away_trees::Query;
use away_types::{CheckedFunction, CheckedQuery};
use away_values::NoMemory;
use block_forms::{Goto, Ssa, expr_table};
use call_forms::{Anf, Tail};
use cte_reads::entries_of;
use std::alloc::Global;
use tree_events::query_events;

fn branches(alloc: Global, g: &Given<'_>, at: Option<usize>) -> Result<Option<usize>, NoMemory>
    ensures { IfOk result (λ to. (table : List Expr) → walks.GivenOf table g.now
        → spec.BranchesRead table g.now at to) }
{
    let mut at = at;
    let labels = g.tail.labels.as_slice();
    for i in 0..labels.len() {
        at = branch(alloc, g, at, i, labels[i])?;
    }
    Ok(at)
}

/// Whether the events are those of the template, from the first to the last.
fn is_query(alloc: Global, g: &Given<'_>, entry: u32, tables: usize) -> Result<bool, NoMemory>
    ensures { IfOk result (λ yes. (table : List Expr) → walks.GivenOf table g.now
        → IsTrue yes ↔ spec.IsTemplate table g.now entry tables) }
{
    let Some(label) = label_of(g, entry) else {
        return Ok(false);
    };
    let at = up_to_branches(g, entry, label, tables);
    let at = branches(alloc, g, at)?;
    match from_branches(g, at, tables) {
        None => Ok(false),
        Some(end) => Ok(end >= g.events.len()),
    }
}

/// Whether the query is that of the tail form of a function, over so many tables.
pub(crate) fn is_templated(
    alloc: Global,
    f: &CheckedFunction,
    g: &Goto,
    s: &Ssa,
    a: &Anf,
    t: &Tail,
    q: &Query,
    tables: usize,
) -> Result<bool, NoMemory>
    ensures { IfOk result (λ yes. IsTrue yes ↔ Templated f.now.function f.now.slots tables g.now s.now a.now t.now q.now) }
{
    if !are_blocks(a.blocks.len(), t.labels.as_slice()) {
        return Ok(false);
    }
    let table = expr_table(alloc, f)?;
    let entries = entries_of(alloc, &table)?;
    let events = query_events(alloc, q)?;
    let labels = label_table(alloc, a.blocks.len(), t.labels.as_slice())?;
    let given = Given {
        events: events.as_slice(),
        entries: &entries,
        slots: f.slots.as_slice(),
        names: s.names.as_slice(),
        result: f.function.result,
        blocks: a.blocks.as_slice(),
        tail: t,
        labels: labels.as_slice(),
    };
    is_query(alloc, &given, g.entry, tables)
}

/// Whether the query is that of the tail form of a function, over so many tables, with names of aliases and columns aside.
pub fn check_templated(
    alloc: Global,
    f: &CheckedFunction,
    g: &Goto,
    s: &Ssa,
    a: &Anf,
    t: &Tail,
    q: &CheckedQuery,
    tables: usize,
) -> Result<bool, NoMemory>
    ensures { IfOk result (λ yes. IsTrue yes ↔ Templated f.now.function f.now.slots tables g.now s.now a.now t.now q.now.query) }
{
    is_templated(alloc, f, g, s, a, t, &q.query, tables)
}
