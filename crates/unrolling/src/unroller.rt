//! The query of a function in which one iteration runs several turns.

ghost use Rattle.std.specs.Prelude.{◌≡◌, ◌<◌, IfOk, string_bytes};
ghost use Rattle.away_trees.specs.declared.statements.Function.{Function};
ghost use Rattle.away_types.specs.CheckedFunctions.{IsChecked};
ghost use Rattle.away_types.specs.CheckedQueries.{resolved_query};
ghost use Rattle.cte_prints.specs.Texts.{IsOfTexts};
ghost use Rattle.sql_meaning.specs.Names.{bare};
ghost use Rattle.unrolling.specs.InTurns.{IsInTurns};
ghost use Rattle.unrolling.specs.Unrolled.{EquivalentWithin, IsUnrolled};

use crate::trees::tree_in_turns;
use crate::written::{WrittenQuery, written};
use away_names::note::File;
use away_trees::{Query, Schema};
use away_types::{CheckedFunction, CheckedSchema, resolved_file};
use away_values::NoMemory;
use compiling::{Compiled, compile};
use sqlite_items::Boxed;
use std::alloc::Global;
use turn_equivalence::forms_in_turns_are_equivalent;
use wider_recursion::strict_recursion_is_taken;

/// A query in which one iteration runs several turns, its text, and the tree that it is once its names are resolved.
#[derive(Drop)]
pub struct Unrolled {
    pub query: Boxed<Query>,
    pub text: String,
    pub tree: Boxed<Query>,
}

/// A tree in which one iteration runs up to so many turns, as a query. What is written is read again, and judged: a text that isn't the tree's is
/// never given. That none is such is shown by tests alone, and would be answered as want of memory.
fn in_turns(
    alloc: Global,
    s: &CheckedSchema,
    f: &CheckedFunction,
    turns: usize,
    tree: Boxed<Query>,
) -> Result<Unrolled, NoMemory>
    requires { IsInTurns s.now.schema f.now.function f.now.slots turns tree }
    ensures unrolled { IfOk result
        (λ u. IsUnrolled s.now.schema u.query (string_bytes u.text)) }
    ensures tree { IfOk result
        (λ u. bare (resolved_query s.now.schema u.query) ≡ bare u.tree) }
    ensures equivalent { IfOk result
        (λ u. (written : Function) → IsChecked s.now.schema written f.now.function f.now.slots
        → EquivalentWithin s.now.schema f.now.function f.now.slots turns
        (resolved_query s.now.schema u.query)) }
{
    forms_in_turns_are_equivalent(f);
    let _count = s.schema.tables.len();
    let WrittenQuery { query, text } = written(alloc, s, tree.get())?;
    Ok(Unrolled { query, text, tree })
}

/// The query with its names resolved.
fn resolved(alloc: Global, s: &Schema, q: &Query) -> Result<Boxed<Query>, NoMemory>
    ensures { IfOk result (λ tree. tree ≡ resolved_query s.now q.now) }
{
    let File { query, .. } = resolved_file(alloc, s, q)?;
    Ok(Boxed::new(alloc, query)?)
}

/// The query that the function is compiled to, of which an iteration runs one turn at most.
fn compiled(alloc: Global, s: &CheckedSchema, f: &CheckedFunction) -> Result<Unrolled, NoMemory>
    requires { IsOfTexts s.now.schema f.now.function f.now.slots }
    ensures unrolled { IfOk result
        (λ u. IsUnrolled s.now.schema u.query (string_bytes u.text)) }
    ensures tree { IfOk result
        (λ u. bare (resolved_query s.now.schema u.query) ≡ bare u.tree) }
    ensures equivalent { IfOk result
        (λ u. (written : Function) → IsChecked s.now.schema written f.now.function f.now.slots
        → EquivalentWithin s.now.schema f.now.function f.now.slots 1
        (resolved_query s.now.schema u.query)) }
{
    strict_recursion_is_taken();
    let Compiled {
        query,
        text,
        cert: _,
    } = compile(alloc, s, f)?;
    let tree = resolved(alloc, &s.schema, query.get())?;
    Ok(Unrolled { query, text, tree })
}

/// The query of a function in which one iteration runs up to so many turns: fewer where their selects would nest too deep, and that of `compile` where
/// those of one turn would, or where so many labels are called that this is the faster one. The function is that of a text, checked under the schema.
pub fn unroll(
    alloc: Global,
    s: &CheckedSchema,
    f: &CheckedFunction,
    turns: usize,
) -> Result<Unrolled, NoMemory>
    requires some { 0 < turns }
    requires texts { IsOfTexts s.now.schema f.now.function f.now.slots }
    ensures unrolled { IfOk result
        (λ u. IsUnrolled s.now.schema u.query (string_bytes u.text)) }
    // With its names resolved the query is the tree, names of aliases and columns aside.
    ensures tree { IfOk result
        (λ u. bare (resolved_query s.now.schema u.query) ≡ bare u.tree) }
    ensures equivalent { IfOk result
        (λ u. (written : Function) → IsChecked s.now.schema written f.now.function f.now.slots
        → EquivalentWithin s.now.schema f.now.function f.now.slots turns
        (resolved_query s.now.schema u.query)) }
{
    match tree_in_turns(alloc, s, f, turns)? {
        Some(tree) => in_turns(alloc, s, f, turns, tree),
        None => compiled(alloc, s, f),
    }
}
