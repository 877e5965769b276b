//! A case that is read and judged.

ghost use Rattle.std.specs.Prelude.{◌≡◌, ◌∷◌, [], IfOk, List};
ghost use Rattle.away_gen.specs.Valid.{IsFunctionText, IsSchemaText, IsTableFile};
ghost use Rattle.away_trees.specs.declared.statements.Function.{Function as FunctionTree};
ghost use Rattle.away_values.specs.declared.values.Value.{Value as SqlValue};
ghost use Rattle.demonstration.specs.Trial.{IsCounted, IsTrial};
ghost use Rattle.sql_meaning.specs.AtBound.{rows_of_tables};

use away_gen::DemoCase;
use away_trees::{Schema, nodes};
use away_types::{CheckedFunction, CheckedSchema, check_function, check_schema};
use away_values::{NoMemory, Tables};
use csv_tables::read_table;
use plsql_parse::read_function;
use sql_text::read_schema;
use sqlite_items::{Boxed, Items};
use std::alloc::Global;

/// A checked function, with the nodes of the function as it is written.
#[derive(Drop)]
pub(crate) struct Counted {
    pub(crate) function: Boxed<CheckedFunction>,
    pub(crate) nodes: u64,
}

/// What a case's texts read as.
#[derive(Drop)]
pub(crate) struct Trial {
    pub(crate) schema: Boxed<CheckedSchema>,
    pub(crate) counted: Counted,
    pub(crate) tables: Tables,
}

/// The case, read and judged. A case that were refused would stand for want of memory; the cases that are made are none.
pub(crate) fn trial_of(alloc: Global, case: &DemoCase) -> Result<Trial, NoMemory>
    ensures { IfOk result (IsTrial case.now) }
{
    let schema = schema_of(alloc, &case.schema)?;
    let counted = function_of(alloc, schema.get(), &case.function)?;
    let tables = tables_of(alloc, &schema.get().schema, &case.table)?;
    Ok(Trial {
        schema,
        counted,
        tables,
    })
}

fn schema_of(alloc: Global, bytes: &[u8]) -> Result<Boxed<CheckedSchema>, NoMemory>
    ensures { IfOk result (λ c. IsSchemaText bytes.now c.schema) }
{
    let Ok(schema) = read_schema(alloc, bytes) else {
        return Err(NoMemory);
    };
    match check_schema(alloc, schema) {
        Ok(checked) => Ok(Boxed::new(alloc, checked)?),
        Err(_) => Err(NoMemory),
    }
}

fn function_of(alloc: Global, schema: &CheckedSchema, bytes: &[u8]) -> Result<Counted, NoMemory>
    ensures { IfOk result (λ c. (written : FunctionTree)
        × IsFunctionText schema.now.schema bytes.now written
        × IsCounted schema.now.schema written c) }
{
    let Ok(function) = read_function(alloc, bytes) else {
        return Err(NoMemory);
    };
    let count = nodes(&function);
    match check_function(alloc, schema, function) {
        Ok(checked) => Ok(Counted {
            function: Boxed::new(alloc, checked)?,
            nodes: count,
        }),
        Err(_) => Err(NoMemory),
    }
}

/// The table of the schema's one table.
fn tables_of(alloc: Global, schema: &Schema, bytes: &[u8]) -> Result<Tables, NoMemory>
    ensures { IfOk result (λ tables. (rows : List (List SqlValue))
        × IsTableFile schema.now bytes.now rows
        × (rows_of_tables tables.list ≡ rows ∷ [])) }
{
    match schema.tables.as_slice() {
        [only] => match read_table(alloc, only, bytes) {
            Ok(table) => {
                let mut list = Items::new(alloc);
                list.push(table)?;
                Ok(Tables { list })
            }
            Err(_) => Err(NoMemory),
        },
        _ => Err(NoMemory),
    }
}
