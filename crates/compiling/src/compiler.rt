//! The compiler.

ghost use Rattle.std.specs.Prelude.{◌≡◌, IfOk, string_bytes};
ghost use Rattle.away_trees.specs.declared.statements.Function.{Function};
ghost use Rattle.away_types.specs.CheckedFunctions.{IsChecked};
ghost use Rattle.away_types.specs.CheckedQueries.{resolved_query};
ghost use Rattle.compiling.specs.Compiled.{IsCompiled};
ghost use Rattle.compiling.specs.WrittenQuery.{IsWritten};
ghost use Rattle.qualified_names.specs.Trees.{qualified};
ghost use Rattle.equivalence.specs.Accepted.{EquivalentWith};
ghost use Rattle.cte_prints.specs.Texts.{IsOfTexts};

use crate::forms::{Translated, translate};
use away_trees::Query;
use away_types::{CheckedFunction, CheckedSchema};
use away_values::NoMemory;
use call_forms::Forms;
use cte_prints::trees_read_again;
use equivalence::accepted_forms_are_equivalent;
use qualified_names::qualified_query;
use sql_printer::print_query;
use sqlite_items::Boxed;
use std::alloc::Global;

/// A compiled function: its query, the text of it, and the forms between the function and the query.
#[derive(Drop)]
pub struct Compiled {
    pub query: Boxed<Query>,
    pub text: String,
    pub cert: Forms,
}

/// A query and its text.
#[derive(Drop)]
struct WrittenQuery {
    query: Boxed<Query>,
    text: String,
}

/// A tree with names of its columns.
fn named(alloc: Global, tree: &Query) -> Result<Boxed<Query>, NoMemory>
    ensures { IfOk result (λ q. q ≡ qualified tree.now) }
{
    let named = qualified_query(alloc, tree)?;
    Ok(Boxed::new(alloc, named)?)
}

/// A tree with names of its columns, and the text of that.
fn text_of(alloc: Global, tree: &Query) -> Result<WrittenQuery, NoMemory>
    ensures { IfOk result (IsWritten tree.now) }
{
    let query = named(alloc, tree)?;
    let text = print_query(alloc, query.get())?;
    Ok(WrittenQuery { query, text })
}

/// The query of a function, with its text, and with forms that show that the query is equivalent to the function, if that was checked under the
/// schema. The function is that of a text, checked under the schema.
pub fn compile(alloc: Global, s: &CheckedSchema, f: &CheckedFunction) -> Result<Compiled, NoMemory>
    requires texts { IsOfTexts s.now.schema f.now.function f.now.slots }
    ensures compiled { IfOk result (λ c. IsCompiled s.now.schema f.now.function f.now.slots c.query
        (string_bytes c.text) c.cert) }
    ensures equivalent { IfOk result
        (λ c. (written : Function) → IsChecked s.now.schema written f.now.function f.now.slots
        → EquivalentWith s.now.schema f.now.function f.now.slots
        (resolved_query s.now.schema c.query)) }
{
    accepted_forms_are_equivalent(f);
    trees_read_again();
    let _count = s.schema.tables.len();
    let Translated { forms, tree } = translate(alloc, s, f)?;
    let WrittenQuery { query, text } = text_of(alloc, tree.get())?;
    Ok(Compiled {
        query,
        text,
        cert: forms,
    })
}
