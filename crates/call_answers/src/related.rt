//! Whether a checked function has a function's calls of itself as turns of a loop. Both trees are walked side by side.

ghost use Rattle.std.specs.Prelude.{◌≡◌, ◌+◌, [], ◌∷◌, IfOk, IfSome, IsTrue, length};
ghost use Rattle.away_types.specs.TypedSlots.{typed_slots};
ghost use Rattle.call_answers.specs.Laws.{HasSelfCallsAsTurns};
ghost use Rattle.call_answers.specs.Walking as spec;
ghost use Rattle.call_expand.specs.Parts.{own_name as spec_own_name};
ghost use Rattle.call_meaning.specs.Renamed.{renaming};
ghost use Rattle.call_meaning.specs.Untails.{IsUntailed, plain_decls};

use crate::becoming::stmt_becomes;
use crate::ends::falls_off;
use crate::leaf_pairs::is_nullable;
use crate::standing::standing_body;
use crate::walking::{Calls, InSight, Spot, Walk};
use away_names::function::function;
use away_names::lookups::narrow;
use away_trees::{Decl, Function, LoopKind, Schema, Stmt};
use away_types::{CheckedFunction, NamedBody, Slot, named_body};
use away_values::{Name, NoMemory, Ty};
use call_expand::judged::Callees;
use sqlite_items::Items;
use std::alloc::Global;

/// Declarations without a default, of slots that may be NULL.
#[tactic(auto, using(crate::proofs::TurnLists::plain_step, crate::proofs::TurnLists::plain_end))]
fn are_plain(slots: &[Slot], list: &[Decl], from: usize) -> bool
    ensures { IsTrue result → plain_decls (typed_slots slots.now) from list.now }
{
    let mut slot = from;
    for d in list {
        let Ok(i) = narrow(slot) else {
            return false;
        };
        if d.default.is_some() || !is_nullable(slots, i) {
            return false;
        }
        let Some(more) = slot.checked_add(1) else {
            return false;
        };
        slot = more;
    }
    true
}

/// What the old body has in sight: the parameters as they are.
pub(crate) fn params_in_sight(alloc: Global, params: &[(Name, Ty)]) -> Result<InSight, NoMemory>
    ensures { IfOk result (λ c. spec.SeesParameters (length params.now) c) }
{
    let mut slots = Items::new(alloc);
    for i in 0..params.len() {
        let slot = narrow(i)?;
        slots.push((slot, slot))?;
    }
    Ok(InSight {
        slots,
        exits: Items::new(alloc),
        continues: Items::new(alloc),
        looped: false,
    })
}

/// Where the old body stands: behind the parameters and as many slots more.
fn behind_params(n: usize) -> Option<Spot>
    ensures at { IfSome result (λ p. p.at ≡ n) }
    ensures new { IfSome result (λ p. p.new ≡ n + n) }
{
    let at = narrow(n).ok()?;
    let new = at.checked_add(at)?;
    Some(Spot { at, new })
}

fn old_body_stands(alloc: Global, w: &Walk<'_>, x: &Stmt) -> Result<bool, NoMemory>
    ensures { IfOk result (λ yes. IsTrue yes → spec.OldBodyStands w.now x.now) }
{
    let params = w.f.params.as_slice();
    let c = params_in_sight(alloc, params)?;
    let Some(p) = behind_params(params.len()) else {
        return Ok(false);
    };
    match stmt_becomes(alloc, w, &c, p, x, w.body)? {
        None => Ok(false),
        Some(_) => Ok(true),
    }
}

/// The name by which a function calls itself: none, where it is that of an operator's function.
fn own_name(f: &Function) -> &str
    ensures { result.now ≡ spec_own_name f.now }
{
    if function(&f.name).is_some() {
        ""
    } else {
        f.name.text()
    }
}

/// The declarations and the statements of a block without a label.
fn in_block(x: &Stmt) -> Option<(&[Decl], &[Stmt])>
    ensures { IfSome result (λ r. spec.IsBlockOf r.0.now r.1.now x.now) }
{
    match x {
        Stmt::Block {
            label,
            decls,
            body,
            closing: _,
        } => match label {
            None => Some((decls.as_slice(), body.as_slice())),
            Some(_) => None,
        },
        _ => None,
    }
}

/// The label and the statements of a loop.
fn in_loop(x: &Stmt) -> Option<(&Name, &[Stmt])>
    ensures { IfSome result (λ r. spec.IsLoopOf r.0.now r.1.now x.now) }
{
    match x {
        Stmt::Loop {
            label,
            kind,
            body,
            closing: _,
        } => match kind {
            LoopKind::Plain => match label {
                None => None,
                Some(l) => Some((l, body.as_slice())),
            },
            LoopKind::While(_) | LoopKind::Count { .. } => None,
        },
        _ => None,
    }
}

/// The one statement of a list.
fn one_of(list: &[Stmt]) -> Option<&Stmt>
    ensures { IfSome result (λ x. list.now ≡ x.now ∷ []) }
{
    if list.len() == 1 {
        Some(&list[0])
    } else {
        None
    }
}

/// The two statements of a list.
fn two_of(list: &[Stmt]) -> Option<(&Stmt, &Stmt)>
    ensures { IfSome result (λ r. list.now ≡ r.0.now ∷ r.1.now ∷ []) }
{
    if list.len() == 2 {
        Some((&list[0], &list[1]))
    } else {
        None
    }
}

/// The function's calls of itself are turns of a loop, by its body with its calls and its slots.
fn has_turns(
    alloc: Global,
    f: &Function,
    body: &Stmt,
    own: &[Slot],
    c: &CheckedFunction,
) -> Result<bool, NoMemory>
    ensures { IfOk result (λ yes. IsTrue yes → IsUntailed (spec.own_part f.now body.now own.now)
        renaming c.now.function (typed_slots c.now.slots)) }
{
    let n = f.params.len();
    if c.function.strict != f.strict || c.function.params.len() != n {
        return Ok(false);
    }
    let Some((decls, outer)) = in_block(&c.function.body) else {
        return Ok(false);
    };
    let slots = c.slots.as_slice();
    if decls.len() != n || !are_plain(slots, decls, n) {
        return Ok(false);
    }
    let Some(one) = one_of(outer) else {
        return Ok(false);
    };
    let Some((label, turn)) = in_loop(one) else {
        return Ok(false);
    };
    let Some((old, end)) = two_of(turn) else {
        return Ok(false);
    };
    if !falls_off(end) {
        return Ok(false);
    }
    let name = own_name(f);
    let w = Walk {
        name,
        f,
        body,
        own,
        slots,
        calls: Calls::Turns(label),
    };
    old_body_stands(alloc, &w, old)
}

/// The function's calls of itself are turns of a loop.
pub(crate) fn has_self_calls_as_turns(
    alloc: Global,
    s: &Schema,
    f: &Function,
    c: &CheckedFunction,
) -> Result<bool, NoMemory>
    ensures { IfOk result (λ yes. IsTrue yes
        → HasSelfCallsAsTurns s.now f.now c.now.function c.now.slots) }
{
    let NamedBody { body, slots } = named_body(alloc, s, f)?;
    let standing = standing_body(
        alloc,
        s,
        Callees::Own(f),
        f.result,
        slots.as_slice(),
        body.get(),
    )?;
    has_turns(alloc, f, standing.get(), slots.as_slice(), c)
}
