//! Statements that hold no others.

ghost use Rattle.std.specs.Prelude.{◌≡◌, IfOk, IfErr, Ok};
ghost use Rattle.away_values.specs.declared.errors.OpError.TheVariants.{NoMemory};
ghost use Rattle.plsql_meaning.specs.Outcomes.{done, faults};
ghost use Rattle.plsql_meaning.specs.Statements as meaning;
ghost use Rattle.plsql_run.specs.Continues.{Ended, outcome};
ghost use Rattle.plsql_run.specs.Settings.{meant};

use crate::assignments::put;
use crate::frames::{Signal, Way};
use crate::setting::Setting;
use away_trees::{Expr, Raised};
use away_values::{Class, OpError, Value, sqlstate};
use lateral_rows::is_true;
use sql_eval::class_of;
use sqlite_items::Items;
use std::alloc::Global;

pub(crate) fn assign<'a>(
    alloc: Global,
    setting: &Setting<'_>,
    env: &mut Items<Value>,
    slot: Option<u32>,
    e: &Expr,
) -> Result<Signal<'a>, OpError>
    ensures { Ended (λ env n. meaning.assign (meant setting.now) slot
        ((meant setting.now).value e.now env) env n) env.old env.new result }
{
    match slot {
        None => Ok(Signal::Ends(Way::Normal)),
        Some(slot) => {
            let v = setting.value(alloc, e, env)?;
            put(setting, env, slot as usize, v)?;
            Ok(Signal::Ends(Way::Normal))
        }
    }
}

/// EXIT and CONTINUE, which are taken only where their condition is true.
pub(crate) fn jump<'a>(
    alloc: Global,
    setting: &Setting<'_>,
    env: &Items<Value>,
    when: &Option<Expr>,
    way: Way<'a>,
) -> Result<Signal<'a>, OpError>
    ensures { Ended (meaning.jump (meant setting.now) when.now
        (outcome way.entry)) env.now env.now result }
{
    match when {
        None => Ok(Signal::Ends(way)),
        Some(e) => {
            let v = setting.value(alloc, e, env)?;
            if is_true(&v) {
                Ok(Signal::Ends(way))
            } else {
                Ok(Signal::Ends(Way::Normal))
            }
        }
    }
}

pub(crate) fn give<'a>(
    alloc: Global,
    setting: &Setting<'_>,
    env: &Items<Value>,
    e: &Expr,
) -> Result<Signal<'a>, OpError>
    ensures { Ended (λ env n. meaning.give
        ((meant setting.now).value e.now env) env n) env.now env.now result }
{
    Ok(Signal::Returns(setting.value(alloc, e, env)?))
}

/// The class that RAISE raises.
#[tactic(auto, using(crate::proofs::Raising::raising_rules))]
fn raised_class(alloc: Global, raised: &Raised) -> Result<Class, OpError>
    ensures class { IfOk result (λ c. c ≡ meaning.class_of raised.now) }
    ensures memory { IfErr result (λ e. e ≡ NoMemory) }
{
    match raised {
        Raised::Message(_) => Ok(sqlstate::RAISE_EXCEPTION),
        Raised::State(code) => match class_of(alloc, code)? {
            Some(class) => Ok(class),
            None => Ok(sqlstate::RAISE_EXCEPTION),
        },
    }
}

pub(crate) fn raise<'a>(
    alloc: Global,
    raised: &Raised,
    env: &Items<Value>,
) -> Result<Signal<'a>, OpError>
    ensures { Ended (λ env n.
        done (faults (meaning.class_of raised.now)) env n) env.now env.now result }
{
    let class = raised_class(alloc, raised)?;
    Err(OpError::Class(class))
}
