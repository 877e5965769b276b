//! Whether a case runs: its texts are read again and judged.

ghost use Rattle.std.specs.Prelude.{◌≡◌, IfOk, IsTrue, OnOk};
ghost use Rattle.away_trees.specs.declared.statements.Function.{Function as FunctionTree};
ghost use Rattle.away_gen.specs.Valid.{HaveTypes, IsFunctionText, IsSchemaText, IsTableFile, IsValid, two_bigints, types_of};

use crate::DemoCase;
use away_trees::Schema;
use away_types::{CheckedFunction, CheckedSchema, check_function, check_schema};
use away_values::{Name, NoMemory, Table, Ty};
use csv_tables::read_table;
use plsql_parse::read_function;
use sql_text::read_schema;
use sqlite_items::Boxed;
use std::alloc::Global;

/// Goes on where the case runs, if its arguments are two bigints.
pub fn judge(alloc: Global, case: &DemoCase) -> Result<(), NoMemory>
    requires { HaveTypes two_bigints case.now.args }
    ensures { OnOk result (IsValid case.now) }
{
    let schema = schema_of(alloc, &case.schema)?;
    let function = function_of(alloc, &schema, &case.function)?;
    let _table = table_of(alloc, &schema.schema, &case.table)?;
    if are_two_bigints(function.get().function.params.as_slice()) {
        Ok(())
    } else {
        Err(NoMemory)
    }
}

fn are_two_bigints(params: &[(Name, Ty)]) -> bool
    ensures { IsTrue result → types_of params.now ≡ two_bigints }
{
    match params {
        [(_, Ty::Bigint), (_, Ty::Bigint)] => true,
        _ => false,
    }
}

fn schema_of(alloc: Global, bytes: &[u8]) -> Result<CheckedSchema, NoMemory>
    ensures { IfOk result (λ c. IsSchemaText bytes.now c.schema) }
{
    let Ok(schema) = read_schema(alloc, bytes) else {
        return Err(NoMemory);
    };
    match check_schema(alloc, schema) {
        Ok(checked) => Ok(checked),
        Err(_) => Err(NoMemory),
    }
}

fn function_of(
    alloc: Global,
    schema: &CheckedSchema,
    bytes: &[u8],
) -> Result<Boxed<CheckedFunction>, NoMemory>
    ensures { IfOk result (λ c. (f : FunctionTree) × IsFunctionText schema.now.schema bytes.now f
        × (c.function.params ≡ f.params)) }
{
    let Ok(function) = read_function(alloc, bytes) else {
        return Err(NoMemory);
    };
    match check_function(alloc, schema, function) {
        Ok(checked) => Ok(Boxed::new(alloc, checked)?),
        Err(_) => Err(NoMemory),
    }
}

/// The table of the schema's one table.
fn table_of(alloc: Global, schema: &Schema, bytes: &[u8]) -> Result<Table, NoMemory>
    ensures { IfOk result (λ table. IsTableFile schema.now bytes.now table.rows) }
{
    match schema.tables.as_slice() {
        [only] => match read_table(alloc, only, bytes) {
            Ok(table) => Ok(table),
            Err(_) => Err(NoMemory),
        },
        _ => Err(NoMemory),
    }
}
