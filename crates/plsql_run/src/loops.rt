//! Loops: how they begin a turn, and whether they go on after one.

ghost use Rattle.std.specs.Prelude.{◌≡◌};
ghost use Rattle.plsql_meaning.specs.Loops as spec;
ghost use Rattle.plsql_meaning.specs.Outcomes.{Env};
ghost use Rattle.plsql_meaning.specs.Statements.{Setting as Meant};
ghost use Rattle.plsql_run.specs.Continues.{GoesOn, IfEnds, body_of, count_of, count_run, outcome, resumed, told};
ghost use Rattle.plsql_run.specs.Settings.{meant};

use crate::assignments::put_at;
use crate::frames::{Counting, Frame, Signal, Stretch, Way};
use crate::names::names_loop;
use crate::setting::Setting;
use away_trees::Expr;
use away_values::{Class, CmpOp, IntOp, Name, OpError, Value, compare, int_op, small};
use lateral_rows::is_true;
use sqlite_items::Items;
use std::alloc::Global;

/// Whether a loop goes on after its body, by how that ended; where it doesn't, how the loop ends.
pub(crate) fn verdict<'a>(way: Way<'a>, own: &Option<Name>) -> Option<Way<'a>>
    ensures { told result ≡ spec.verdict own.now (outcome way.entry) }
{
    match way {
        Way::Normal => None,
        Way::Exits(label) => {
            if names_loop(label, own) {
                Some(Way::Normal)
            } else {
                Some(Way::Exits(label))
            }
        }
        Way::Continues(label) => {
            if names_loop(label, own) {
                None
            } else {
                Some(Way::Continues(label))
            }
        }
    }
}

/// A turn begins, behind which the frame goes on.
fn begin<'a>(
    stack: &mut Items<Frame<'a>>,
    behind: Frame<'a>,
    body: Stretch<'a>,
) -> Result<Signal<'a>, OpError>
    ensures runs { (set : Meant) (env : Env)
        → GoesOn set stack.old (λ n. spec.taken env n
        (λ e m. resumed set behind.entry (body_of set body.entry e m))) stack.new env result }
    ensures turn { IfEnds result ⊥ }
{
    stack.push(behind)?;
    stack.push(Frame::Rest(body))?;
    Ok(Signal::Turn)
}

/// LOOP begins a turn.
pub(crate) fn begin_plain<'a>(
    stack: &mut Items<Frame<'a>>,
    label: &'a Option<Name>,
    body: Stretch<'a>,
) -> Result<Signal<'a>, OpError>
    ensures runs { (set : Meant) (env : Env)
        → GoesOn set stack.old (λ n. spec.turning spec.always label.now
        (body_of set body.entry) tt env n) stack.new env result }
    ensures ends { IfEnds result (stack.new ≡ stack.old) }
{
    let first = body.again();
    begin(stack, Frame::Plain(label, body), first)
}

/// WHILE begins a turn, or ends.
pub(crate) fn begin_while<'a>(
    alloc: Global,
    setting: &Setting<'_>,
    stack: &mut Items<Frame<'a>>,
    env: &Items<Value>,
    label: &'a Option<Name>,
    test: &'a Expr,
    body: Stretch<'a>,
) -> Result<Signal<'a>, OpError>
    ensures runs { let set = meant setting.now
        in GoesOn set stack.old (λ n. spec.turning (spec.while (set.value test.now)) label.now
        (body_of set body.entry) tt env.now n) stack.new env.now result }
    ensures ends { IfEnds result (stack.new ≡ stack.old) }
{
    let v = setting.value(alloc, test, env)?;
    if !is_true(&v) {
        return Ok(Signal::Ends(Way::Normal));
    }
    let first = body.again();
    begin(stack, Frame::While(label, test, body), first)
}

fn reaches(reverse: bool, counter: &Value, last: &Value) -> Value
    ensures { result ≡ spec.reaches reverse counter.now last.now }
{
    if reverse {
        compare(CmpOp::Ge, counter, last)
    } else {
        compare(CmpOp::Le, counter, last)
    }
}

/// FOR begins a turn, or ends.
pub(crate) fn begin_count<'a>(
    alloc: Global,
    stack: &mut Items<Frame<'a>>,
    env: &mut Items<Value>,
    counter: Value,
    counting: Counting<'a>,
) -> Result<Signal<'a>, OpError>
    ensures runs { (set : Meant) → GoesOn set stack.old
        (λ n. count_run set counting.entry counter env.old n) stack.new env.new result }
    ensures ends { IfEnds result (stack.new ≡ stack.old) }
{
    if !is_true(&reaches(counting.reverse, &counter, &counting.last)) {
        return Ok(Signal::Ends(Way::Normal));
    }
    let first = counting.body.again();
    put_at(env, counting.var, counter.copy(alloc)?);
    begin(stack, Frame::Count(counter, counting), first)
}

/// An operation on integers alone.
fn small_op(op: IntOp, x: &Value, y: &Value) -> Result<Value, Class>
    ensures { result ≡ spec.small_op op x.now y.now }
{
    let v = int_op(op, x, y)?;
    small(&v)
}

/// Whether the next counter would leave the range of integer. Over the least integer the sum is bigint's, as over the literal that it is written as.
fn leaves(reverse: bool, step: &Value, counter: &Value) -> Result<Value, Class>
    ensures { result ≡ spec.leaves reverse step.now counter.now }
{
    if reverse {
        let end = int_op(IntOp::Add, &Value::Int(-2_147_483_648), step)?;
        Ok(compare(CmpOp::Gt, &end, counter))
    } else {
        let end = small_op(IntOp::Sub, &Value::Int(2_147_483_647), step)?;
        Ok(compare(CmpOp::Lt, &end, counter))
    }
}

fn counted(reverse: bool, counter: &Value, step: &Value) -> Result<Value, Class>
    ensures { result ≡ spec.counted reverse counter.now step.now }
{
    if reverse {
        small_op(IntOp::Sub, counter, step)
    } else {
        small_op(IntOp::Add, counter, step)
    }
}

/// The counter of the next turn, or nothing where it would leave the range of integer.
fn next_count(reverse: bool, counter: &Value, step: &Value) -> Result<Option<Value>, Class>
    ensures { result ≡ spec.advanced (spec.leaves reverse step.now counter.now)
        (spec.counted reverse counter.now step.now) }
{
    let end = leaves(reverse, step, counter)?;
    if is_true(&end) {
        return Ok(None);
    }
    Ok(Some(counted(reverse, counter, step)?))
}

/// FOR goes on with its next turn.
pub(crate) fn resume_count<'a>(
    alloc: Global,
    stack: &mut Items<Frame<'a>>,
    env: &mut Items<Value>,
    counter: Value,
    counting: Counting<'a>,
) -> Result<Signal<'a>, OpError>
    ensures runs { (set : Meant)
        → GoesOn set stack.old (λ n. spec.moved ((count_of counting.entry).next counter)
        (count_run set counting.entry) env.old n) stack.new env.new result }
    ensures ends { IfEnds result (stack.new ≡ stack.old) }
{
    match next_count(counting.reverse, &counter, &counting.step) {
        Err(class) => Err(OpError::Class(class)),
        Ok(None) => Ok(Signal::Ends(Way::Normal)),
        Ok(Some(next)) => begin_count(alloc, stack, env, next, counting),
    }
}
