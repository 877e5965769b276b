//! The blocks of a FOR.

ghost use Rattle.std.specs.Prelude.{◌≡◌, ◌+◌, OnOk, length, IfOk};
ghost use Rattle.goto_lower.specs.Building as spec;
ghost use Rattle.goto_lower.specs.Drafts.{extended, count_begun};

use crate::assignments::{Target, push_set};
use crate::counts::step_many;
use crate::draft::Draft;
use crate::shapes::{branches, fails, sets};
use crate::sizes::count_size;
use crate::sums::sum;
use crate::terms::{copy, in_range, leaves_range, moved, not_positive, one, source_term};
use away_trees::Expr;
use away_values::{NoMemory, Ty, sqlstate};
use block_forms::{Numbers, Position, Term};
use std::alloc::Global;

/// The expressions of a FOR.
#[derive(Clone, Copy)]
pub(crate) struct Bounds<'a> {
    pub(crate) first: &'a Expr,
    pub(crate) last: &'a Expr,
    pub(crate) step: &'a Option<Expr>,
}

fn cur_at(numbers: Numbers, p: Position) -> Result<u32, NoMemory>
    ensures { IfOk result (λ k. k ≡ spec.cur_at numbers p) }
{
    let two = sum(p.fors, p.fors)?;
    sum(numbers.counters, sum(p.fors, two)?)
}

/// The number of the head, where the FOR begins at a block.
pub(crate) fn head_at(step: &Option<Expr>, start: u32) -> Result<u32, NoMemory>
    ensures { IfOk result (λ k. k ≡ spec.head_at step.now start) }
{
    sum(sum(start, 6)?, step_many(step))
}

/// Sets a bound, which may not be NULL; the next block follows.
#[tactic(auto, using(crate::proofs::DraftRules::draft_rules))]
fn push_bound(
    alloc: Global,
    numbers: Numbers,
    draft: &mut Draft,
    slot: u32,
    term: Term,
) -> Result<(), NoMemory>
    ensures { OnOk result (draft.new
        ≡ extended (spec.bound_blocks numbers slot term (length draft.old.blocks)) draft.old) }
{
    let next = sum(draft.here()?, 3)?;
    let target = Target {
        ty: Ty::Integer,
        slot,
        term,
    };
    push_set(alloc, numbers, draft, true, target, next)
}

#[tactic(auto, using(crate::proofs::DraftRules::draft_rules))]
fn push_step(
    alloc: Global,
    numbers: Numbers,
    draft: &mut Draft,
    step: &Option<Expr>,
    k: u32,
    slot: u32,
    head: u32,
) -> Result<(), NoMemory>
    ensures { OnOk result (draft.new ≡ extended
        (spec.step_blocks numbers step.now k slot head (length draft.old.blocks)) draft.old) }
{
    match step {
        None => draft.push(sets(slot, one(alloc, numbers.fixed)?, head)),
        Some(e) => {
            let test = sum(draft.here()?, 3)?;
            let fault = sum(test, 1)?;
            push_bound(alloc, numbers, draft, slot, source_term(alloc, k, e)?)?;
            let wrong = not_positive(alloc, numbers.fixed, slot)?;
            draft.push(branches(false, wrong, fault, head))?;
            draft.push(fails(sqlstate::INVALID_PARAMETER_VALUE))
        }
    }
}

/// The head, the start of a turn, the test after a turn and the next counter.
#[tactic(auto, using(crate::proofs::DraftRules::draft_rules))]
fn push_turns(
    alloc: Global,
    numbers: Numbers,
    draft: &mut Draft,
    reverse: bool,
    at: Position,
    body: u32,
    next: u32,
) -> Result<(), NoMemory>
    ensures { OnOk result (draft.new ≡ extended
        (spec.turn_blocks numbers reverse at body next (length draft.old.blocks)) draft.old) }
{
    let fixed = numbers.fixed;
    let head = draft.here()?;
    let turn = sum(head, 1)?;
    let back = sum(sum(turn, 1)?, 1)?;
    let cur = cur_at(numbers, at)?;
    let last = sum(cur, 1)?;
    let step = sum(cur, 2)?;
    let inside = in_range(alloc, fixed, reverse, cur, last)?;
    draft.push(branches(true, inside, turn, next))?;
    draft.push(sets(at.slot, copy(alloc, fixed, cur)?, body))?;
    let leaves = leaves_range(alloc, fixed, reverse, step, cur)?;
    draft.push(branches(false, leaves, next, back))?;
    draft.push(sets(cur, moved(alloc, fixed, reverse, cur, step)?, head))
}

/// All blocks of a FOR but its body's.
#[tactic(auto, using(crate::proofs::DraftRules::draft_rules))]
pub(crate) fn push_count(
    alloc: Global,
    numbers: Numbers,
    draft: &mut Draft,
    reverse: bool,
    bounds: &Bounds<'_>,
    body: u32,
    next: u32,
) -> Result<(), NoMemory>
    ensures { OnOk result (draft.new ≡ count_begun numbers reverse bounds.now.first.now bounds.now.last.now bounds.now.step.now body next draft.old) }
{
    let at = draft.place;
    let start = draft.here()?;
    let cur = cur_at(numbers, at)?;
    let head = head_at(bounds.step, start)?;
    draft.begin(count_size(bounds.step), start)?;
    let first = source_term(alloc, at.expr, bounds.first)?;
    push_bound(alloc, numbers, draft, cur, first)?;
    let last = source_term(alloc, sum(at.expr, 1)?, bounds.last)?;
    push_bound(alloc, numbers, draft, sum(cur, 1)?, last)?;
    let k = sum(at.expr, 2)?;
    push_step(alloc, numbers, draft, bounds.step, k, sum(cur, 2)?, head)?;
    push_turns(alloc, numbers, draft, reverse, at, body, next)
}
