//! The names of the levels and of their columns.

ghost use Rattle.std.specs.Prelude.{◌≡◌, IfOk};
ghost use Rattle.turn_query.specs.TurnTree as spec;

use away_values::{Name, NoMemory, name};
use cte_parts::row_names;
use itoa::Buffer;
use sqlite_items::Items;
use std::alloc::Global;

/// The name that a text is. There is no memory for a text that is none.
fn name_that_is(alloc: Global, text: &str) -> Result<Name, NoMemory>
    ensures { IfOk result (λ n. n ≡ text.now) }
{
    match name(alloc, text)? {
        Some(name) => Ok(name),
        None => Err(NoMemory),
    }
}

/// The alias of each level.
pub(crate) fn level_alias(alloc: Global) -> Result<Name, NoMemory>
    ensures { IfOk result (λ n. n ≡ spec.level_alias) }
{
    name_that_is(alloc, "away_k")
}

/// The column of a step, by its place among the steps.
fn step_name(alloc: Global, place: usize) -> Result<Name, NoMemory>
    ensures { IfOk result (λ n. n ≡ spec.step_name place) }
{
    let mut text = String::from_str(alloc, "away_v")?;
    let mut buffer = Buffer::new();
    text.push_str(buffer.format(place))?;
    name_that_is(alloc, &text)
}

#[tactic(auto, using(crate::proofs::Numbers::one_more_step))]
fn step_names(alloc: Global, steps: usize) -> Result<Items<Name>, NoMemory>
    ensures { IfOk result (λ all. all ≡ spec.step_names steps) }
{
    let mut all = Items::new(alloc);
    for place in 0..steps {
        all.push(step_name(alloc, place)?)?;
    }
    Ok(all)
}

/// The columns of a level: those of a row of which so many hold values, and so many steps behind them.
pub(crate) fn level_names(
    alloc: Global,
    columns: usize,
    steps: usize,
) -> Result<Items<Name>, NoMemory>
    ensures { IfOk result (λ all. all ≡ spec.level_names columns steps) }
{
    let mut all = row_names(alloc, columns)?;
    all.append(step_names(alloc, steps)?)?;
    Ok(all)
}
