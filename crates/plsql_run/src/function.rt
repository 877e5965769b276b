//! Runs a function within a bound on its turns.

ghost use Rattle.std.specs.Prelude.{◌≡◌, ◌+◌, ◌<◌, ◌^◌, ◌++◌, ◌&&◌, [], IfOk, replicate};
ghost use Rattle.std.specs.List.{list_any};
ghost use Rattle.away_values.specs.declared.values.Value.TheVariants as val;
ghost use Rattle.away_values.specs.Operators.{is_null};
ghost use Rattle.sql_meaning.specs.AtBound.{rows_of_tables};
ghost use Rattle.plsql_meaning.specs.Functions.{function_answer, over};
ghost use Rattle.plsql_meaning.specs.Slots.{slots_of};
ghost use Rattle.plsql_meaning.specs.Statements.{meaning};
ghost use Rattle.plsql_run.specs.Continues.{Answered, GoesOn, IfEnds};
ghost use Rattle.plsql_run.specs.Layouts.{layout_of};
ghost use Rattle.away_types.specs.TypedSlots.{typed_slots};
ghost use Rattle.plsql_run.specs.Settings.{meant};

use crate::enter::enter;
use crate::frames::{Frame, Signal, Way};
use crate::layout::{Layout, layout_of, plus};
use crate::machine::run_until_turn;
use crate::setting::Setting;
use away_trees::{Function, Stmt};
use away_types::CheckedFunction;
use away_values::{Answer, NoMemory, OpError, Tables, Value, sqlstate};
use lateral_rows::is_null;
use sqlite_items::Items;
use std::alloc::Global;

/// The body runs until its first turn.
fn start<'a>(
    alloc: Global,
    setting: &Setting<'_>,
    stack: &mut Items<Frame<'a>>,
    env: &mut Items<Value>,
    body: &'a Stmt,
    layout: &'a Layout,
    at: usize,
) -> Result<Signal<'a>, OpError>
    requires few { at + slots_of body.now < 2 ^ 64 }
    requires laid { layout.now ≡ layout_of body.now }
    ensures runs { let set = meant setting.now in GoesOn set stack.old
        (λ n. (meaning set body.now).run at env.old n) stack.new env.new result }
    ensures ends { IfEnds result (stack.new ≡ []) }
{
    match enter(alloc, setting, stack, env, body, layout, at)? {
        Signal::Ends(way) => run_until_turn(alloc, setting, stack, env, way),
        Signal::Returns(v) => Ok(Signal::Returns(v)),
        Signal::Turn => Ok(Signal::Turn),
    }
}

/// The body runs to its end, or until it wants a turn that isn't left.
fn run_body(
    alloc: Global,
    setting: &Setting<'_>,
    env: &mut Items<Value>,
    body: &Stmt,
    layout: &Layout,
    at: usize,
    bound: u64,
) -> Result<Answer, OpError>
    requires few { at + slots_of body.now < 2 ^ 64 }
    requires laid { layout.now ≡ layout_of body.now }
    ensures { Answered ((meaning (meant setting.now) body.now).run at env.old bound) result }
{
    let mut stack = Items::new(alloc);
    let mut left = bound;
    let mut signal = start(alloc, setting, &mut stack, env, body, layout, at)?;
    'turns: loop {
        match signal {
            Signal::Ends(_) => return Ok(Answer::Fault(
                sqlstate::FUNCTION_EXECUTED_NO_RETURN_STATEMENT,
            )),
            Signal::Returns(v) => return Ok(Answer::Value(v)),
            Signal::Turn => {
                if left == 0 {
                    return Ok(Answer::More);
                }
                left -= 1;
                signal = run_until_turn(alloc, setting, &mut stack, env, Way::Normal)?;
            }
        }
    }
}

/// The arguments, and NULL in each other slot.
fn first_values(alloc: Global, args: &[Value], slots: usize) -> Result<Items<Value>, NoMemory>
    ensures { IfOk result (λ env. env ≡ args.now ++ replicate slots val.Null) }
{
    let mut env = Items::new(alloc);
    for i in 0..args.len() {
        env.push(args[i].copy(alloc)?)?;
    }
    for _ in 0..slots {
        env.push(Value::Null)?;
    }
    Ok(env)
}

fn any_null(args: &[Value]) -> bool
    ensures { result ≡ list_any is_null args.now }
{
    for i in 0..args.len() {
        if is_null(&args[i]) {
            return true;
        }
    }
    false
}

/// Whether the function answers NULL without running.
fn is_null_for(f: &Function, args: &[Value]) -> bool
    ensures { result ≡ (f.now.strict && list_any is_null args.now) }
{
    f.strict && any_null(args)
}

pub(crate) fn run_over(
    alloc: Global,
    setting: &Setting<'_>,
    f: &Function,
    args: &[Value],
    bound: u64,
) -> Result<Answer, NoMemory>
    ensures { IfOk result (λ a. a ≡ function_answer (meant setting.now) f.now args.now bound) }
{
    if is_null_for(f, args) {
        return Ok(Answer::Value(Value::Null));
    }
    let layout = layout_of(alloc, &f.body)?;
    plus(f.params.len(), layout.slots)?;
    let mut env = first_values(alloc, args, layout.slots)?;
    match run_body(
        alloc,
        setting,
        &mut env,
        &f.body,
        &layout,
        f.params.len(),
        bound,
    ) {
        Ok(answer) => Ok(answer),
        Err(OpError::Class(class)) => Ok(Answer::Fault(class)),
        Err(OpError::NoMemory) => Err(NoMemory),
    }
}

/// What a checked function answers over tables and arguments within so many turns of its loops: a value, the class of a fault, or that it needs
/// more turns. A bound of 0 runs what stands before the first turn. Nothing is asked of tables and arguments: where they fit the schema and the
/// parameters' types, the answer is that of the function as it is written.
/// The bound is in turns over all loops, which is our own choice. The manual: 43.5, Basic Statements, and 43.6, Control Structures.
pub fn run_function(
    alloc: Global,
    f: &CheckedFunction,
    tables: &Tables,
    args: &[Value],
    bound: u64,
) -> Result<Answer, NoMemory>
    ensures { IfOk result (λ a. a ≡ function_answer (over (rows_of_tables tables.now.list)
        (typed_slots f.now.slots)) f.now.function args.now bound) }
{
    let setting = Setting::new(tables, f.slots.as_slice());
    run_over(alloc, &setting, &f.function, args, bound)
}
