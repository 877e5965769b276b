//! Whether a checked function has the calls of a program expanded. Both trees are walked side by side.

ghost use Rattle.std.specs.Prelude.{◌≡◌, IfOk, IfSome, IsTrue};
ghost use Rattle.away_types.specs.TypedSlots.{typed_slots};
ghost use Rattle.call_answers.specs.Calling as call;
ghost use Rattle.call_answers.specs.Laws.{HasCallsExpanded};
ghost use Rattle.call_answers.specs.Walking as spec;
ghost use Rattle.call_meaning.specs.Expands.{IsExpanded};
ghost use Rattle.call_meaning.specs.Renamed.{renaming};

use crate::becoming::stmt_becomes;
use crate::parts::standing_parts;
use crate::related::params_in_sight;
use crate::walking::{Calls, Expansion, Left, Spot, StandingPart, Walk};
use away_names::lookups::narrow;
use away_trees::{Function, Schema, Stmt};
use away_types::CheckedFunction;
use away_values::NoMemory;
use std::alloc::Global;

/// Where the main body stands: behind the parameters, as they are.
fn behind_own(n: usize) -> Option<Spot>
    ensures at { IfSome result (λ p. p.at ≡ n) }
    ensures new { IfSome result (λ p. p.new ≡ n) }
{
    let at = narrow(n).ok()?;
    Some(Spot { at, new: at })
}

fn main_body_stands(alloc: Global, w: &Walk<'_>, x: &Stmt) -> Result<bool, NoMemory>
    ensures { IfOk result (λ yes. IsTrue yes → call.MainBodyStands w.now x.now) }
{
    let params = w.f.params.as_slice();
    let c = params_in_sight(alloc, params)?;
    let Some(p) = behind_own(params.len()) else {
        return Ok(false);
    };
    match stmt_becomes(alloc, w, &c, p, x, w.body)? {
        None => Ok(false),
        Some(_) => Ok(true),
    }
}

/// The calls of the first part are expanded, by the parts as their calls stand.
fn expands(
    alloc: Global,
    parts: &[StandingPart],
    main: &StandingPart,
    c: &CheckedFunction,
) -> Result<bool, NoMemory>
    ensures { IfOk result (λ yes. IsTrue yes → call.FirstIs main.now parts.now
        → IsExpanded (spec.program parts.now) renaming c.now.function (typed_slots c.now.slots)) }
{
    let f = &main.function;
    if c.function.strict != f.strict || c.function.params.len() != f.params.len() {
        return Ok(false);
    }
    let Some(depth) = parts.len().checked_sub(1) else {
        return Ok(false);
    };
    let w = Walk {
        name: f.name.text(),
        f,
        body: &f.body,
        own: main.slots.as_slice(),
        slots: c.slots.as_slice(),
        calls: Calls::Expanded(Expansion {
            parts,
            depth,
            left: Left::Whole,
        }),
    };
    main_body_stands(alloc, &w, &c.function.body)
}

/// The calls of the first function are expanded.
pub(crate) fn has_calls_expanded(
    alloc: Global,
    s: &Schema,
    fs: &[Function],
    c: &CheckedFunction,
) -> Result<bool, NoMemory>
    ensures { IfOk result (λ yes. IsTrue yes
        → HasCallsExpanded s.now fs.now c.now.function c.now.slots) }
{
    let parts = standing_parts(alloc, s, fs)?;
    let list = parts.as_slice();
    if list.is_empty() {
        return Ok(false);
    }
    expands(alloc, list, &list[0], c)
}
