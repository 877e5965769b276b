//! SELECT INTO.

ghost use Rattle.std.specs.Prelude.{◌≡◌, IfOk, IfErr, Ok, drop};
ghost use Rattle.away_values.specs.declared.errors.OpError.TheVariants.{NoMemory};
ghost use Rattle.away_values.specs.Results.{Answers};
ghost use Rattle.std.specs.Option.{option_copied};
ghost use Rattle.plsql_meaning.specs.Conversions as conversions;
ghost use Rattle.plsql_meaning.specs.Statements as meaning;
ghost use Rattle.plsql_run.specs.Continues.{Does, Ended};
ghost use Rattle.plsql_run.specs.Settings.{meant};

use crate::assignments::put;
use crate::frames::{Signal, Way};
use crate::setting::Setting;
use away_trees::{Item, Select};
use away_values::{Class, Name, OpError, TextOp, Ty, Value, small, sqlstate, text_op};
use sqlite_items::Items;
use std::alloc::Global;

/// The value at a place of a row, NULL where the row ends before it.
fn value_at(alloc: Global, row: &[Value], i: usize) -> Result<Value, OpError>
    ensures value { IfOk result (λ v. v ≡ meaning.head_or_null (drop i row.now)) }
    ensures memory { IfErr result (λ e. e ≡ NoMemory) }
{
    if i < row.len() {
        Ok(row[i].copy(alloc)?)
    } else {
        Ok(Value::Null)
    }
}

/// The type that the value of a target is converted to, where the item at its place is marked.
fn conversion(setting: &Setting<'_>, slot: Option<u32>, item: Option<&Item>) -> Option<Ty>
    ensures { result ≡ conversions.conversion_by (meant setting.now).types slot
        (option_copied item.entry) }
{
    let item = item?;
    if item.alias.is_none() {
        return None;
    }
    match slot {
        None => None,
        Some(slot) => setting.type_of(slot as usize),
    }
}

fn of_class(answer: Result<Value, Class>) -> Result<Value, OpError>
    ensures { Answers answer result }
{
    match answer {
        Ok(v) => Ok(v),
        Err(class) => Err(OpError::Class(class)),
    }
}

/// The manual: 43.5.1, Assignment. 22003 is an integer out of range.
fn converted_value(alloc: Global, ty: Option<Ty>, v: Value) -> Result<Value, OpError>
    ensures { Answers (conversions.converted_value ty v) result }
{
    match ty {
        None => Ok(v),
        Some(ty) => match ty {
            Ty::Bigint | Ty::Boolean => Ok(v),
            Ty::Integer => of_class(small(&v)),
            Ty::Text => text_op(alloc, TextOp::ToText, &[v]),
        },
    }
}

/// The values of the targets from left to right, converted where the items are marked.
fn converted_row(
    alloc: Global,
    setting: &Setting<'_>,
    targets: &[(Name, Option<u32>)],
    items: &[Item],
    row: &[Value],
) -> Result<Items<Value>, OpError>
    ensures { Answers (conversions.converted_row
        (conversions.conversions (meant setting.now).types targets.now items.now) row.now) result }
{
    let mut done = Items::new(alloc);
    for i in 0..targets.len() {
        let v = value_at(alloc, row, i)?;
        let ty = conversion(setting, targets[i].1, items.get(i));
        done.push(converted_value(alloc, ty, v)?)?;
    }
    Ok(done)
}

/// Sets a target, once it has a slot.
fn put_in(
    setting: &Setting<'_>,
    env: &mut Items<Value>,
    slot: Option<u32>,
    v: Value,
) -> Result<(), OpError>
    ensures { Does (meaning.assign (meant setting.now) slot (Ok v)) env.old env.new result }
{
    match slot {
        None => Ok(()),
        Some(slot) => put(setting, env, slot as usize, v),
    }
}

/// Sets the targets from left to right.
#[tactic(auto, using(crate::proofs::Targets::rest_of_drop))]
fn put_all(
    alloc: Global,
    setting: &Setting<'_>,
    env: &mut Items<Value>,
    targets: &[(Name, Option<u32>)],
    row: &[Value],
) -> Result<(), OpError>
    ensures { Does (meaning.put_all
        (meant setting.now) targets.now row.now) env.old env.new result }
{
    for i in 0..targets.len() {
        let v = value_at(alloc, row, i)?;
        put_in(setting, env, targets[i].1, v)?;
    }
    Ok(())
}

/// Converts the values of a row, and then sets the targets.
fn put_row(
    alloc: Global,
    setting: &Setting<'_>,
    env: &mut Items<Value>,
    targets: &[(Name, Option<u32>)],
    items: &[Item],
    row: &[Value],
) -> Result<(), OpError>
    ensures { Does (meaning.put_row (meant setting.now)
        (conversions.conversions (meant setting.now).types targets.now items.now)
        targets.now row.now) env.old env.new result }
{
    let values = converted_row(alloc, setting, targets, items, row)?;
    put_all(alloc, setting, env, targets, values.as_slice())
}

pub(crate) fn select_into<'a>(
    alloc: Global,
    setting: &Setting<'_>,
    env: &mut Items<Value>,
    strict: bool,
    targets: &[(Name, Option<u32>)],
    query: &Select,
) -> Result<Signal<'a>, OpError>
    ensures { Ended (λ env n. meaning.into (meant setting.now) strict targets.now
        query.now ((meant setting.now).rows query.now env) env n) env.old env.new result }
{
    let rows = setting.rows(alloc, query, env)?;
    let rows = rows.as_slice();
    if rows.is_empty() {
        if strict {
            return Err(OpError::Class(sqlstate::NO_DATA_FOUND));
        }
        put_row(alloc, setting, env, targets, query.list.as_slice(), &[])?;
        return Ok(Signal::Ends(Way::Normal));
    }
    if strict && rows.len() > 1 {
        return Err(OpError::Class(sqlstate::TOO_MANY_ROWS));
    }
    put_row(
        alloc,
        setting,
        env,
        targets,
        query.list.as_slice(),
        rows[0].as_slice(),
    )?;
    Ok(Signal::Ends(Way::Normal))
}
