//! FOR begins: its bounds and its step.

ghost use Rattle.std.specs.Prelude.{◌≡◌, List, Ok, pos, ℕ};
ghost use Rattle.away_values.specs.declared.values.Value.{Value};
ghost use Rattle.away_values.specs.declared.values.Value.TheVariants as val;
ghost use Rattle.away_values.specs.declared.operators.CmpOp.TheVariants as cmp;
ghost use Rattle.away_values.specs.Operators.{compare, is_true};
ghost use Rattle.away_trees.specs.declared.statements.LoopKind.TheVariants as kind;
ghost use Rattle.plsql_meaning.specs.Statements as meaning;
ghost use Rattle.plsql_run.specs.Continues.{GoesOn, IfEnds, Passes, body_of};
ghost use Rattle.plsql_run.specs.Settings.{meant};

use crate::frames::{Counting, Frame, Signal, Stretch};
use crate::loops::begin_count;
use crate::setting::Setting;
use away_trees::Expr;
use away_values::{CmpOp, Name, OpError, Value, compare, sqlstate};
use lateral_rows::{is_null, is_true};
use sqlite_items::Items;
use std::alloc::Global;

fn not_null(v: Value) -> Result<Value, OpError>
    ensures { (env : List Value) → Passes (meaning.with_bound (Ok v)) env result }
{
    if is_null(&v) {
        return Err(OpError::Class(sqlstate::NULL_VALUE_NOT_ALLOWED));
    }
    Ok(v)
}

/// A bound or a step, which may not be NULL.
fn bound(
    alloc: Global,
    setting: &Setting<'_>,
    env: &Items<Value>,
    e: &Expr,
) -> Result<Value, OpError>
    ensures { Passes (meaning.with_bound ((meant setting.now).value e.now env.now)) env.now result }
{
    not_null(setting.value(alloc, e, env)?)
}

fn positive(v: Value) -> Result<Value, OpError>
    ensures { (env : List Value) → Passes
        (λ go. meaning.judged (is_true (compare cmp.Le v (val.Int (pos 0)))) v go) env result }
{
    if is_true(&compare(CmpOp::Le, &v, &Value::Int(0))) {
        return Err(OpError::Class(sqlstate::INVALID_PARAMETER_VALUE));
    }
    Ok(v)
}

fn step(
    alloc: Global,
    setting: &Setting<'_>,
    env: &Items<Value>,
    by: &Option<Expr>,
) -> Result<Value, OpError>
    ensures { Passes (meaning.with_step (meant setting.now) by.now) env.now result }
{
    match by {
        None => Ok(Value::Int(1)),
        Some(e) => positive(bound(alloc, setting, env, e)?),
    }
}

/// The body stands behind the variable, whose slot is `var`.
pub(crate) fn enter_count<'a>(
    alloc: Global,
    setting: &Setting<'_>,
    stack: &mut Items<Frame<'a>>,
    env: &mut Items<Value>,
    label: &'a Option<Name>,
    reverse: bool,
    first: &Expr,
    last: &Expr,
    by: &Option<Expr>,
    var: usize,
    body: Stretch<'a>,
) -> Result<Signal<'a>, OpError>
    ensures runs { (name : List ℕ) → let set = meant setting.now
        in GoesOn set stack.old
        (λ n. meaning.loop set (kind.Count name reverse first.now last.now by.now) label.now var
        (body_of set body.entry) env.old n)
        stack.new env.new result }
    ensures ends { IfEnds result (stack.new ≡ stack.old) }
{
    let from = bound(alloc, setting, env, first)?;
    let to = bound(alloc, setting, env, last)?;
    let step = step(alloc, setting, env, by)?;
    let counting = Counting {
        label,
        reverse,
        last: to,
        step,
        var,
        body,
    };
    begin_count(alloc, stack, env, from, counting)
}
