//! The query in which the calls of a function are subqueries over one recursive table.

ghost use Rattle.std.specs.Prelude.{◌≡◌, IfErr, IfOk, length, string_bytes};
ghost use Rattle.away_grammar.specs.Texts.{ReadsQuery};
ghost use Rattle.block_forms.specs.Lowered.{Lowered};
ghost use Rattle.block_forms.specs.Named.{Named};
ghost use Rattle.call_forms.specs.Called.{Called};
ghost use Rattle.call_forms.specs.Columned.{Columned};
ghost use Rattle.call_forms.specs.Merged.{Merged};
ghost use Rattle.inline_calls.specs.Reading as reading;
ghost use Rattle.inline_calls.specs.Seen.{seen};
ghost use Rattle.inline_calls.specs.Written as spec;
ghost use Rattle.sql_text.specs.Refusals.{MayBeRead};

use crate::check::check_calls;
use crate::forms::PartedSelect;
use crate::refusals::{CallsRefusal, InlineRefusal};
use crate::resolving::resolved;
use crate::tree::tree_of;
use away_lex::ReadRefusal;
use away_trees::Query;
use away_types::{CheckedFunction, CheckedSchema};
use away_values::NoMemory;
use call_forms::Forms;
use sql_text::read_query;
use sqlite_items::Boxed;
use std::alloc::Global;
use written_queries::{is_tree, text_of};

/// A query, and its text.
#[derive(Drop)]
pub struct Inlined {
    pub query: Boxed<Query>,
    pub text: String,
}

/// Why a text that isn't read isn't written.
fn outgrown(error: ReadRefusal) -> InlineRefusal
    ensures { reading.IsOutgrown error result }
{
    match error {
        ReadRefusal::Limit { which: _, found } => InlineRefusal::Nesting(found),
        _ => InlineRefusal::NoMemory,
    }
}

fn boxed(alloc: Global, query: Query) -> Result<Boxed<Query>, NoMemory>
    ensures { IfOk result (λ b. b ≡ query) }
{
    Ok(Boxed::new(alloc, query)?)
}

/// The query that a text reads as.
fn read_again(alloc: Global, text: &str) -> Result<Boxed<Query>, InlineRefusal>
    ensures ok { IfOk result (λ q. MayBeRead text.now × ReadsQuery text.now q) }
    ensures err { IfErr result (reading.RefusesReading text.now) }
{
    match read_query(alloc, text.as_bytes()) {
        Ok(query) => Ok(boxed(alloc, query)?),
        Err(error) => Err(outgrown(error)),
    }
}

/// The query of calls, which are in the forms of the function. What is written is read again, judged, and compared with what it is to be: a text
/// that isn't it is never given. That none is such is shown by tests alone, and would be answered as want of memory.
fn written(
    alloc: Global,
    s: &CheckedSchema,
    f: &CheckedFunction,
    forms: &Forms,
    c: &PartedSelect,
) -> Result<Inlined, InlineRefusal>
    requires lowered { Lowered f.now.function f.now.slots forms.now.goto }
    requires named { Named (length f.now.slots) (length f.now.function.params)
        forms.now.goto forms.now.ssa }
    requires called { Called forms.now.goto forms.now.ssa forms.now.anf }
    requires merged { Merged forms.now.goto forms.now.anf forms.now.tail }
    requires columned { Columned f.now.slots forms.now.ssa forms.now.anf forms.now.tail }
    ensures ok { IfOk result (λ x. spec.ReadsInlined s.now.schema f.now.function f.now.slots
        forms.now.goto forms.now.ssa forms.now.anf forms.now.tail (seen c.now)
        (string_bytes x.text) x.query) }
    ensures err { IfErr result (spec.RefusesText s.now.schema f.now.function f.now.slots
        forms.now.goto forms.now.ssa forms.now.anf forms.now.tail (seen c.now)) }
{
    let tables = s.schema.tables.len();
    let tree = boxed(alloc, tree_of(alloc, f, forms, tables, c)?)?;
    let text = text_of(alloc, tree.get())?;
    let query = read_again(alloc, text.as_str())?;
    let calls = resolved(alloc, &s.schema, &f.function, c)?;
    let wanted = boxed(alloc, tree_of(alloc, f, forms, tables, calls.get())?)?;
    if is_tree(alloc, &s.schema, wanted.get(), query.get())? {
        Ok(Inlined { query, text })
    } else {
        Err(InlineRefusal::NoMemory)
    }
}

/// A refusal of the check.
fn refused(error: CallsRefusal) -> InlineRefusal
    ensures { reading.IsRefused error result }
{
    match error {
        CallsRefusal::Form => InlineRefusal::Form,
        CallsRefusal::Place => InlineRefusal::Place,
        CallsRefusal::Rule(rule) => InlineRefusal::Rule(rule),
        CallsRefusal::Faults => InlineRefusal::Faults,
        CallsRefusal::NoMemory => InlineRefusal::NoMemory,
    }
}

/// The query in which each call of the function in the list is a correlated subquery over one recursive table, whose first rows are those of all
/// calls at each row of the query. The function was checked under the schema, and the forms are its own.
pub fn inline(
    alloc: Global,
    s: &CheckedSchema,
    q: &Query,
    f: &CheckedFunction,
    forms: &Forms,
) -> Result<Inlined, InlineRefusal>
    requires lowered { Lowered f.now.function f.now.slots forms.now.goto }
    requires named { Named (length f.now.slots) (length f.now.function.params)
        forms.now.goto forms.now.ssa }
    requires called { Called forms.now.goto forms.now.ssa forms.now.anf }
    requires merged { Merged forms.now.goto forms.now.anf forms.now.tail }
    requires columned { Columned f.now.slots forms.now.ssa forms.now.anf forms.now.tail }
    ensures ok { IfOk result (λ x. spec.IsInlined s.now.schema f.now.function f.now.slots
        forms.now.goto forms.now.ssa forms.now.anf forms.now.tail q.now
        (string_bytes x.text) x.query) }
    ensures err { IfErr result (spec.Refuses s.now.schema f.now.function f.now.slots
        forms.now.goto forms.now.ssa forms.now.anf forms.now.tail q.now) }
{
    match check_calls(alloc, &s.schema, q, &f.function, &forms.goto) {
        Err(error) => Err(refused(error)),
        Ok(calls) => written(alloc, s, f, forms, calls.get()),
    }
}
