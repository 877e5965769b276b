//! The walk over a label's blocks beside its branch.

ghost use Rattle.std.specs.Prelude.{◌≡◌, ◌<◌, ◌+◌, ◌≤◌, IfOk, List, suc, Some, length};
ghost use Rattle.away_trees.specs.declared.queries.Expr.{Expr};
ghost use Rattle.call_forms.specs.Bodies as bodies;
ghost use Rattle.cte_check.specs.Walks as spec;
ghost use Rattle.cte_check.specs.Walks.{GivenOf, Sound, StepRead, GoesSoundly, ArmRead, BodyRead, WalkRead, BranchRead};

use crate::labels::{label_refs, params_of, places_of};
use crate::steps::{assign, fail_end, go, return_end};
use away_types::Slot;
use away_values::{NoMemory, Ty};
use block_forms::Term;
use call_forms::{AnfBlock, Call, CallEnd, Tail};
use cte_reads::{
    Entries, Gate, Scope, all_of, close, close_lateral, end_of_body, open_body, open_lateral, term,
    to_list,
};
use sqlite_items::Items;
use std::alloc::Global;
use tree_events::TreeEvent;

/// What a walk reads: the query's events, the expressions, the types, the forms, and the label of each block.
#[derive(Clone, Copy)]
pub(crate) struct Given<'a> {
    pub(crate) events: &'a [TreeEvent],
    pub(crate) entries: &'a Entries,
    pub(crate) slots: &'a [Slot],
    pub(crate) names: &'a [u32],
    pub(crate) result: Ty,
    pub(crate) blocks: &'a [AnfBlock],
    pub(crate) tail: &'a Tail,
    pub(crate) labels: &'a [Option<usize>],
}

/// Where a walk is: the block, the place in the query, how many items stand to the left, how many selects of the branch enclose the
/// place, how many blocks may still follow, and the names.
#[derive(Drop)]
pub(crate) struct Walk<'a> {
    pub(crate) block: u32,
    pub(crate) at: Option<usize>,
    pub(crate) items: usize,
    pub(crate) depth: usize,
    pub(crate) fuel: usize,
    pub(crate) scope: Scope<'a>,
}

/// What comes of one piece of a body: the walk goes on, or it is over.
#[derive(Drop)]
pub(crate) enum Step<'a> {
    Goes(Walk<'a>),
    Ends(Option<usize>),
}

/// The walk at the beginning of a test's arm, one select further in.
fn inner<'a>(alloc: Global, w: &Walk<'a>, at: Option<usize>) -> Result<Walk<'a>, NoMemory>
    requires { w.now.depth < 18446744073709551615 }
    ensures { IfOk result (λ next. next ≡ spec.inner_walk w.now at) }
{
    Ok(Walk {
        block: w.block,
        at,
        items: 1,
        depth: w.depth + 1,
        fuel: w.fuel,
        scope: Scope {
            set: w.scope.set,
            names: w.scope.names,
            refs: Items::from_slice(alloc, w.scope.refs.as_slice())?,
        },
    })
}

/// One arm of a test: a body behind its gate.
#[cycle(walk)]
fn arm<'a>(
    alloc: Global,
    g: &Given<'a>,
    w: &Walk<'a>,
    at: Option<usize>,
    by: Gate,
    call: &Call,
) -> Result<Option<usize>, NoMemory>
    requires sound { Sound g.now w.now }
    requires further { w.now.depth + suc w.now.fuel ≤ length g.now.blocks.now }
    ensures { IfOk result (λ to. (table : List Expr) → GivenOf table g.now
        → ArmRead table g.now w.now by (bodies.goes (spec.anf_of g.now) g.now.tail.now
        (spec.further_blocks g.now w.now) call.now) at to) }
{
    let next = inner(alloc, w, open_body(g.events, at, by))?;
    match go(alloc, g, next, call)? {
        Step::Ends(at) => Ok(end_of_body(g.events, at)),
        Step::Goes(next) => {
            let at = body(alloc, g, next)?;
            Ok(end_of_body(g.events, at))
        }
    }
}

/// A test and its two bodies, behind which the row of their item is the list.
#[cycle(walk)]
fn pick<'a>(
    alloc: Global,
    g: &Given<'a>,
    w: &Walk<'a>,
    t: &Term,
    yes: &Call,
    no: &Call,
) -> Result<Option<usize>, NoMemory>
    requires sound { Sound g.now w.now }
    requires further { w.now.depth + suc w.now.fuel ≤ length g.now.blocks.now }
    ensures { IfOk result (λ to. (table : List Expr) → GivenOf table g.now
        → BodyRead table g.now w.now (spec.pick_body g.now w.now t.now yes.now no.now) to) }
{
    let at = term(
        alloc,
        g.events,
        w.at,
        g.entries,
        &w.scope,
        t,
        Ty::Boolean,
        w.depth,
    )?;
    if at.is_none() {
        return Ok(None);
    }
    let at = open_lateral(g.events, at);
    let at = arm(alloc, g, w, at, Gate::Yes(w.items), yes)?;
    let at = arm(alloc, g, w, at, Gate::No(w.items), no)?;
    let at = to_list(g.events, close_lateral(g.events, at));
    let columns = g.tail.columns.as_slice();
    let at = all_of(g.events, at, w.items + 1, columns.len() + 4);
    Ok(close(g.events, at))
}

/// The end of a block.
#[cycle(walk)]
fn end<'a>(alloc: Global, g: &Given<'a>, w: Walk<'a>, end: &CallEnd) -> Result<Step<'a>, NoMemory>
    requires sound { Sound g.now w }
    requires further { w.depth + suc w.fuel ≤ length g.now.blocks.now }
    ensures sound { IfOk result (λ s. GoesSoundly g.now w.entry.fuel s) }
    ensures read { IfOk result (λ s. (table : List Expr) → GivenOf table g.now
        → StepRead table g.now w.entry (bodies.end_body (spec.anf_of g.now) g.now.tail.now
        (spec.further_blocks g.now w.entry) end.now) s) }
{
    match end {
        CallEnd::Go(call) => go(alloc, g, w, call),
        CallEnd::Pick(t, yes, no) => Ok(Step::Ends(pick(alloc, g, &w, t, yes, no)?)),
        CallEnd::Return(t) => Ok(Step::Ends(return_end(alloc, g, &w, t)?)),
        CallEnd::Fail(class) => Ok(Step::Ends(fail_end(g, &w, *class))),
    }
}

/// One block: its assignment and its end.
#[cycle(walk)]
fn block<'a>(alloc: Global, g: &Given<'a>, w: Walk<'a>, x: &AnfBlock) -> Result<Step<'a>, NoMemory>
    requires sound { Sound g.now w }
    requires fresh { spec.Fresh w }
    requires further { w.depth + suc w.fuel ≤ length g.now.blocks.now }
    requires room { w.items + w.fuel ≤ length g.now.blocks.now }
    ensures sound { IfOk result (λ s. GoesSoundly g.now w.entry.fuel s) }
    ensures read { IfOk result (λ s. (table : List Expr) → GivenOf table g.now
        → StepRead table g.now w.entry (bodies.block_body (spec.anf_of g.now) g.now.tail.now
        (spec.further_blocks g.now w.entry) (Some x.now)) s) }
{
    match &x.set {
        None => end(alloc, g, w, &x.end),
        Some(set) => {
            let next = assign(alloc, g, w, set.0, &set.1)?;
            end(alloc, g, next, &x.end)
        }
    }
}

/// One step of a walk: its block, if one may follow.
#[cycle(walk)]
fn advance<'a>(alloc: Global, g: &Given<'a>, w: Walk<'a>) -> Result<Step<'a>, NoMemory>
    requires sound { Sound g.now w }
    requires fresh { spec.Fresh w }
    ensures sound { IfOk result (λ s. spec.GoesFurther g.now w.entry.fuel s) }
    ensures read { IfOk result (λ s. (table : List Expr) → GivenOf table g.now
        → StepRead table g.now w.entry (spec.further_blocks g.now w.entry w.entry.block) s) }
{
    if w.at.is_none() {
        return Ok(Step::Ends(None));
    }
    if w.fuel == 0 {
        return Ok(Step::Ends(None));
    }
    let number = w.block as usize;
    if number >= g.blocks.len() {
        return Ok(Step::Ends(None));
    }
    let inside = Walk {
        block: w.block,
        at: w.at,
        items: w.items,
        depth: w.depth,
        fuel: w.fuel - 1,
        scope: w.scope,
    };
    block(alloc, g, inside, &g.blocks[number])
}

/// The items and the list from a block on, through as many blocks as may follow: the place behind the list.
#[cycle(walk)]
fn body<'a>(alloc: Global, g: &Given<'a>, start: Walk<'a>) -> Result<Option<usize>, NoMemory>
    requires sound { Sound g.now start }
    requires fresh { spec.Fresh start }
    ensures { IfOk result (λ to. (table : List Expr) → GivenOf table g.now
        → WalkRead table g.now start.entry to) }
{
    let mut w = start;
    'onward: loop {
        match advance(alloc, g, w)? {
            Step::Ends(at) => return Ok(at),
            Step::Goes(next) => w = next,
        }
    }
}

/// The branch of a label, counted from 0.
pub(crate) fn branch(
    alloc: Global,
    g: &Given<'_>,
    at: Option<usize>,
    label: usize,
    of: u32,
) -> Result<Option<usize>, NoMemory>
    ensures { IfOk result (λ to. (table : List Expr) → GivenOf table g.now
        → BranchRead table g.now label of at to) }
{
    let params = params_of(g, of);
    let start = Walk {
        block: of,
        at: open_body(g.events, at, Gate::Label(label)),
        items: 1,
        depth: 0,
        fuel: g.blocks.len(),
        scope: Scope {
            set: None,
            names: params,
            refs: label_refs(alloc, params, places_of(g, label))?,
        },
    };
    let at = body(alloc, g, start)?;
    Ok(end_of_body(g.events, at))
}
