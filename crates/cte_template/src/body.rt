//! The bodies of labels: the blocks that are merged into one another, as items of selects.

ghost use Rattle.std.specs.Prelude.{◌≡◌, ◌+◌, IfOk};
ghost use Rattle.block_forms.specs.Places.{Each};
ghost use Rattle.call_forms.specs.Bodies.{picks};
ghost use Rattle.call_law.specs.Terms.{FailsByClass, EndHasClass};
ghost use Rattle.cte_template.specs.CarriedWalks as spec;
ghost use Rattle.cte_template.specs.Making.{making};
ghost use Rattle.cte_template.specs.Places.{place_of as standing};
ghost use Rattle.cte_template.specs.Steps as steps;

use crate::draft::{
    Draft, Gated, Next, add_let, assigned, behind_call, either, elsewhere, fault_row, unended,
    value_row, where_true,
};
use crate::places::ItemColumn;
use crate::writer::Writer;
use away_trees::Item;
use away_values::{NoMemory, Ty};
use block_forms::Term;
use call_forms::{Call, CallEnd};
use cte_parts::after;
use sqlite_items::Items;
use std::alloc::Global;

/// The end of a block.
#[cycle(bodies)]
fn left_by(
    alloc: Global,
    w: &Writer<'_>,
    left: usize,
    depth: usize,
    pairs: &[(u32, ItemColumn)],
    draft: &mut Draft,
    end: &CallEnd,
) -> Result<Next, NoMemory>
    requires classes { Each FailsByClass w.now.anf.now.blocks }
    requires class { EndHasClass end.now }
    ensures { IfOk result (λ next.
        steps.reached (making w.now) w.now.carried.now depth left next draft.new
        ≡ spec.rest (making w.now) w.now.carried.now depth (standing pairs.now) draft.old
        (spec.from_end (making w.now) left end.now)) }
{
    match end {
        CallEnd::Go(call) => behind_call(alloc, w, left, depth, pairs, draft, call),
        CallEnd::Pick(term, yes, no) => {
            let list = picked(alloc, w, left, depth, pairs, draft, term, yes, no)?;
            Ok(Next::Row(list))
        }
        CallEnd::Return(term) => {
            let list = value_row(alloc, w, depth, pairs, draft, term)?;
            Ok(Next::Row(list))
        }
        CallEnd::Fail(class) => {
            let list = fault_row(alloc, w, depth, *class)?;
            Ok(Next::Row(list))
        }
    }
}

/// A block: what it assigns, and its end.
#[cycle(bodies)]
fn visited(
    alloc: Global,
    w: &Writer<'_>,
    left: usize,
    depth: usize,
    block: u32,
    pairs: Items<(u32, ItemColumn)>,
    draft: &mut Draft,
) -> Result<Next, NoMemory>
    requires classes { Each FailsByClass w.now.anf.now.blocks }
    ensures { IfOk result (λ next.
        steps.reached (making w.now) w.now.carried.now depth left next draft.new
        ≡ spec.rest (making w.now) w.now.carried.now depth (standing pairs) draft.old
        (spec.from_block (making w.now) (left + 1) block)) }
{
    let Some(x) = w.anf.blocks.get(block as usize) else {
        return Ok(Next::Row(unended(alloc, w, depth)?));
    };
    let pairs = assigned(alloc, w, depth, pairs, draft, &x.set)?;
    left_by(alloc, w, left, depth, pairs.as_slice(), draft, &x.end)
}

/// The items and the list from a block on, through so many blocks.
#[cycle(bodies)]
pub(crate) fn body_of(
    alloc: Global,
    w: &Writer<'_>,
    most: usize,
    depth: usize,
    block: u32,
    pairs: Items<(u32, ItemColumn)>,
    draft: &mut Draft,
) -> Result<Items<Item>, NoMemory>
    requires classes { Each FailsByClass w.now.anf.now.blocks }
    ensures { IfOk result (λ list. spec.written draft.new list
        ≡ spec.rest (making w.now) w.now.carried.now depth (standing pairs) draft.old
        (spec.from_block (making w.now) most block)) }
{
    let mut pairs = pairs;
    let mut block = block;
    let mut left = most;
    while left > 0 {
        left -= 1;
        match visited(alloc, w, left, depth, block, pairs, draft)? {
            Next::Row(list) => return Ok(list),
            Next::On(next, places) => {
                block = next;
                pairs = places;
            }
        }
    }
    unended(alloc, w, depth)
}

/// The list of a call: its row, or what the blocks write that are entered.
#[cycle(bodies)]
fn through(
    alloc: Global,
    w: &Writer<'_>,
    left: usize,
    depth: usize,
    pairs: &[(u32, ItemColumn)],
    draft: &mut Draft,
    call: &Call,
) -> Result<Items<Item>, NoMemory>
    requires classes { Each FailsByClass w.now.anf.now.blocks }
    ensures { IfOk result (λ list. spec.written draft.new list
        ≡ spec.rest (making w.now) w.now.carried.now depth (standing pairs.now) draft.old
        (spec.from_call (making w.now) left call.now)) }
{
    match behind_call(alloc, w, left, depth, pairs, draft, call)? {
        Next::Row(list) => Ok(list),
        Next::On(block, places) => body_of(alloc, w, left, depth, block, places, draft),
    }
}

/// One arm of a test: a select behind its gate.
#[cycle(bodies)]
fn arm(
    alloc: Global,
    w: &Writer<'_>,
    left: usize,
    depth: usize,
    pairs: &[(u32, ItemColumn)],
    gate: Draft,
    call: &Call,
) -> Result<Gated, NoMemory>
    requires classes { Each FailsByClass w.now.anf.now.blocks }
    ensures { IfOk result (λ a. a ≡ steps.arm_of (spec.rest (making w.now) w.now.carried.now depth
        (standing pairs.now) gate (spec.from_call (making w.now) left call.now))) }
{
    let mut draft = gate;
    let list = through(alloc, w, left, depth, pairs, &mut draft, call)?;
    Ok(Gated {
        items: draft.items,
        list,
        next: draft.next,
    })
}

/// A test: its term, and an item of two selects, of which one has a row.
#[cycle(bodies)]
fn picked(
    alloc: Global,
    w: &Writer<'_>,
    left: usize,
    depth: usize,
    pairs: &[(u32, ItemColumn)],
    draft: &mut Draft,
    term: &Term,
    yes: &Call,
    no: &Call,
) -> Result<Items<Item>, NoMemory>
    requires classes { Each FailsByClass w.now.anf.now.blocks }
    ensures { IfOk result (λ list. spec.written draft.new list
        ≡ spec.rest (making w.now) w.now.carried.now depth (standing pairs.now) draft.old
        (picks term.now (spec.from_call (making w.now) left yes.now)
        (spec.from_call (making w.now) left no.now))) }
{
    let item = draft.items.len();
    add_let(alloc, w, depth, pairs, draft, Ty::Boolean, term)?;
    let inside = after(depth)?;
    let gate = where_true(alloc, after(draft.next)?, item)?;
    let first = arm(alloc, w, left, inside, pairs, gate, yes)?;
    let other = elsewhere(alloc, first.next, item)?;
    let second = arm(alloc, w, left, inside, pairs, other, no)?;
    either(alloc, w, draft, item, first, second)
}
