//! The query of a function.

ghost use Rattle.std.specs.Prelude.{◌≡◌, IfOk, List, length, string_bytes, ℕ};
ghost use Rattle.away_types.specs.CheckedQueries.{resolved_query};
ghost use Rattle.demonstration.specs.CompiledQuery.{IsCompiledQuery, HasText};
ghost use Rattle.cte_prints.specs.Texts.{IsOfTexts};

use away_trees::Query;
use away_types::{CheckedFunction, CheckedQuery, CheckedSchema, check_query};
use away_values::NoMemory;
use compiling::{Compiled, compile};
use sqlite_items::Boxed;
use std::alloc::Global;

/// The query of a function, with its names resolved, and the length of its text.
#[derive(Drop)]
pub(crate) struct CompiledQuery {
    pub(crate) query: Boxed<CheckedQuery>,
    pub(crate) bytes: u64,
}

/// Compiles the function.
pub(crate) fn compiled_query(
    alloc: Global,
    schema: &CheckedSchema,
    function: &CheckedFunction,
) -> Result<CompiledQuery, NoMemory>
    requires texts { IsOfTexts schema.now.schema function.now.function function.now.slots }
    ensures { IfOk result (λ told. (text : List ℕ)
        × IsCompiledQuery schema.now.schema function.now.function function.now.slots text told) }
{
    let compiled = compile(alloc, schema, function)?;
    with_length(alloc, schema, compiled)
}

fn with_length(
    alloc: Global,
    schema: &CheckedSchema,
    compiled: Compiled,
) -> Result<CompiledQuery, NoMemory>
    ensures { IfOk result (HasText schema.now.schema compiled.query (string_bytes compiled.text)) }
{
    let bytes = compiled.text.len() as u64;
    Ok(CompiledQuery {
        query: resolved(alloc, schema, compiled.query)?,
        bytes,
    })
}

/// The query with its names resolved.
fn resolved(
    alloc: Global,
    schema: &CheckedSchema,
    query: Boxed<Query>,
) -> Result<Boxed<CheckedQuery>, NoMemory>
    ensures { IfOk result (λ c. c.query ≡ resolved_query schema.now.schema query) }
{
    match check_query(alloc, schema, query.into_inner()) {
        Ok(checked) => Ok(Boxed::new(alloc, checked)?),
        Err(_) => Err(NoMemory),
    }
}
