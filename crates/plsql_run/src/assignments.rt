//! Assignments and declarations.

ghost use Rattle.std.specs.Prelude.{◌≡◌, ◌+◌, ◌<◌, ◌^◌, length, slice_set, Ok};
ghost use Rattle.away_values.specs.Results.{Answers};
ghost use Rattle.plsql_meaning.specs.Statements as meaning;
ghost use Rattle.plsql_run.specs.Continues.{Does};
ghost use Rattle.plsql_run.specs.Settings.{meant};

use crate::setting::Setting;
use away_trees::{Decl, Expr};
use away_values::{OpError, Value, sqlstate};
use lateral_rows::is_null;
use sqlite_items::Items;
use std::alloc::Global;

/// Puts a value into a slot, where there is one.
pub(crate) fn put_at(env: &mut Items<Value>, slot: usize, v: Value)
    ensures { env.new ≡ slice_set env.old slot v }
{
    if slot < env.len() {
        env.set(slot, v);
    }
}

/// Puts a value into a slot, unless it is NULL where it may not be.
pub(crate) fn put(
    setting: &Setting<'_>,
    env: &mut Items<Value>,
    slot: usize,
    v: Value,
) -> Result<(), OpError>
    ensures { Does (meaning.put (meant setting.now) slot (Ok v)) env.old env.new result }
{
    if setting.is_not_null(slot) && is_null(&v) {
        return Err(OpError::Class(sqlstate::NULL_VALUE_NOT_ALLOWED));
    }
    put_at(env, slot, v);
    Ok(())
}

/// The default of a declaration.
fn initial(
    alloc: Global,
    setting: &Setting<'_>,
    default: &Option<Expr>,
    env: &Items<Value>,
) -> Result<Value, OpError>
    ensures { Answers (meaning.initial (meant setting.now).value default.now env.now) result }
{
    match default {
        None => Ok(Value::Null),
        Some(e) => setting.value(alloc, e, env),
    }
}

/// Sets declared variables to their defaults, in order, from a slot on.
pub(crate) fn declare(
    alloc: Global,
    setting: &Setting<'_>,
    env: &mut Items<Value>,
    decls: &[Decl],
    at: usize,
) -> Result<(), OpError>
    requires { at + length decls.now < 2 ^ 64 }
    ensures { Does (meaning.declare (meant setting.now) decls.now at) env.old env.new result }
{
    for i in 0..decls.len() {
        let v = initial(alloc, setting, &decls[i].default, env)?;
        put(setting, env, at + i, v)?;
    }
    Ok(())
}
