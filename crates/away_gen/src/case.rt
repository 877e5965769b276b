//! The case of a number.

ghost use Rattle.std.specs.Prelude.{◌≡◌, ◌<◌, ◌∷◌, [], IfOk, pos};
ghost use Rattle.away_gen.specs.Texts.{IsCase};
ghost use Rattle.away_gen.specs.Valid.{HaveTypes, IsValid, two_bigints};
ghost use Rattle.away_values.specs.declared.values.Value.TheVariants as val;

use crate::judging::judge;
use crate::parts::draw_parts;
use crate::texts::{function_text, schema_text, table_text};
use away_values::{NoMemory, Value};
use sqlite_items::Items;
use std::alloc::Global;

/// The texts of a schema and of a function over it, the file of the schema's table, and the function's arguments.
#[derive(Drop)]
pub struct DemoCase {
    pub schema: Vec<u8>,
    pub function: Vec<u8>,
    pub table: Vec<u8>,
    pub args: Items<Value>,
}

/// The case of a number. Its texts read and break no rule, its table fits, and its arguments are the function's: the case is
/// read again before it is handed out, and where a text were refused there would be none. No such number is known.
pub fn make_case(alloc: Global, number: u64) -> Result<DemoCase, NoMemory>
    ensures texts { IfOk result (IsCase number) }
    ensures valid { IfOk result IsValid }
{
    let made = written_case(alloc, number)?;
    judge(alloc, &made)?;
    Ok(made)
}

/// The case as it is written, not yet read again.
fn written_case(alloc: Global, number: u64) -> Result<DemoCase, NoMemory>
    ensures texts { IfOk result (IsCase number) }
    ensures bigints { IfOk result (λ made. HaveTypes two_bigints made.args) }
{
    let parts = draw_parts(alloc, number)?;
    Ok(DemoCase {
        schema: schema_text(alloc)?.into_bytes(),
        function: function_text(alloc, parts.statements.as_slice())?.into_bytes(),
        table: table_text(alloc, parts.rows.as_slice())?.into_bytes(),
        args: arguments(alloc, parts.first, parts.second)?,
    })
}

fn arguments(alloc: Global, first: u64, second: u64) -> Result<Items<Value>, NoMemory>
    requires first { first < 1000 }
    requires second { second < 1000 }
    ensures values { IfOk result (λ args. args ≡ val.Int (pos first) ∷ val.Int (pos second) ∷ []) }
    ensures bigints { IfOk result (HaveTypes two_bigints) }
{
    let mut args = Items::new(alloc);
    args.push(Value::Int(first as i64))?;
    args.push(Value::Int(second as i64))?;
    Ok(args)
}
