//! How much an expanded function has of what is limited, counted without building it. A count that doesn't fit into 64 bits is
//! none.

ghost use Rattle.std.specs.Prelude.{◌≡◌, ◌≤◌, ◌<◌, ◌+◌, ◌*◌, ◌^◌, false, true, length, min, sum_by, IfNone, IfOk, IfSome};
ghost use Rattle.call_expand.specs.CallPlaces.{called};
ghost use Rattle.expanded_sizes.specs.Sizes as sizes;
ghost use Rattle.expanded_sizes.specs.Weighing as spec;

use away_trees::{Arm, Expr, Function, LoopKind, Stmt};
use away_values::NoMemory;
use call_expand::places::{Place, call_place};
use sqlite_items::Items;
use std::alloc::Global;

/// How much each kind of node weighs, and the counter of a FOR loop beside its statement.
#[derive(Clone, Copy)]
pub struct Weights {
    pub statement: u64,
    pub declaration: u64,
    pub arm: u64,
    pub target: u64,
    pub counter: u64,
}

/// The functions of a program, and the weights of their bodies as those of called functions, in which calls nest less than so
/// deep; and whether the body that is weighed is a called function's.
#[derive(Clone, Copy)]
pub struct Weighing<'a> {
    pub weights: Weights,
    pub fs: &'a [Function],
    pub depth: usize,
    pub callees: &'a [Option<u64>],
    pub inside: bool,
}

pub fn of_nodes() -> Weights
    ensures { result ≡ sizes.of_nodes }
{
    Weights {
        statement: 1,
        declaration: 1,
        arm: 1,
        target: 1,
        counter: 0,
    }
}

pub fn of_variables() -> Weights
    ensures { result ≡ sizes.of_variables }
{
    Weights {
        statement: 0,
        declaration: 1,
        arm: 0,
        target: 0,
        counter: 0,
    }
}

pub fn of_loops() -> Weights
    ensures { result ≡ sizes.of_loops }
{
    Weights {
        statement: 0,
        declaration: 0,
        arm: 0,
        target: 0,
        counter: 1,
    }
}

/// So many more of one weight.
fn with_many(before: u64, n: usize, weight: u64) -> Option<u64>
    ensures some { IfSome result (λ m. m ≡ before + n * weight) }
    ensures none { IfNone result (2 ^ 64 ≤ before + n * weight) }
{
    before.checked_add((n as u64).checked_mul(weight)?)
}

/// What goes on with a value: a statement, or the block that a RETURN becomes in a called function's body.
fn with_tail(w: Weights, before: u64, leaves: bool) -> Option<u64>
    ensures some { IfSome result (λ m. m ≡ before + sizes.of_return w leaves) }
    ensures none { IfNone result (2 ^ 64 ≤ before + sizes.of_return w leaves) }
{
    let one = before.checked_add(w.statement)?;
    if leaves {
        one.checked_add(w.statement)?.checked_add(w.statement)
    } else {
        Some(one)
    }
}

/// The test of a STRICT function with so many parameters.
fn with_test(w: Weights, before: u64, strict: bool, n: usize) -> Option<u64>
    ensures some { IfSome result (λ m. m ≡ before + sizes.of_strict_test w strict n) }
    ensures none { IfNone result (2 ^ 64 ≤ before + sizes.of_strict_test w strict n) }
{
    if !strict || n == 0 {
        return Some(before);
    }
    before
        .checked_add(w.statement)?
        .checked_add(w.arm)?
        .checked_add(w.statement)
}

/// The blocks of a call of a function with so many parameters, of which so many are given, without the function's body and what
/// goes on behind it.
fn with_frame(w: Weights, before: u64, strict: bool, n: usize, given: usize) -> Option<u64>
    ensures some { IfSome result (λ m. m ≡ before + sizes.of_frame w strict n given) }
    ensures none { IfNone result (2 ^ 64 ≤ before + sizes.of_frame w strict n given) }
{
    let blocks = before
        .checked_add(w.statement)?
        .checked_add(w.declaration)?
        .checked_add(w.statement)?
        .checked_add(w.statement)?;
    with_test(w, with_many(blocks, given, w.declaration)?, strict, n)
}

/// As many as the parameters that arguments are given for.
fn given(f: &Function, args: &[Expr]) -> usize
    ensures { result ≡ min (length f.now.params) (length args.now) }
{
    f.params.len().min(args.len())
}

/// The blocks of a call, without the function's body and what goes on behind it.
fn with_blocks(w: Weights, before: u64, f: &Function, args: &[Expr]) -> Option<u64>
    ensures some { IfSome result (λ m. m ≡ before + sizes.of_blocks w f.now args.now) }
    ensures none { IfNone result (2 ^ 64 ≤ before + sizes.of_blocks w f.now args.now) }
{
    with_frame(w, before, f.strict, f.params.len(), given(f, args))
}

/// The block of a call, without what goes on behind it.
#[tactic(auto, using(crate::proofs::WeighingRules::call_is, crate::proofs::WeighingRules::callee_inside))]
fn with_call(g: Weighing<'_>, before: u64, c: Place<'_>) -> Option<u64>
    requires known { spec.KnowsCallees g }
    requires inside { c.part < length g.fs.now }
    ensures some { IfSome result (λ m. m ≡ before + spec.at_call g.entry (called c.entry)) }
    ensures none { IfNone result (2 ^ 64 ≤ before + spec.at_call g.entry (called c.entry)) }
{
    let fs = g.fs;
    let callees = g.callees;
    let f = &fs[c.part];
    let callee = callees[c.part]?;
    with_blocks(g.weights, before, f, c.args)?.checked_add(callee)
}

/// A place: an assignment, or a RETURN that leaves a called function's body.
#[tactic(auto, using(crate::proofs::WeighingRules::plain_place, crate::proofs::WeighingRules::call_weight))]
fn with_place(g: Weighing<'_>, before: u64, leaves: bool, e: &Expr) -> Option<u64>
    requires known { spec.KnowsCallees g }
    ensures some { IfSome result (λ m. m
        ≡ before + spec.at_place g.entry (sizes.of_return g.entry.weights leaves) e.now) }
    ensures none { IfNone result (2 ^ 64
        ≤ before + spec.at_place g.entry (sizes.of_return g.entry.weights leaves) e.now) }
{
    match call_place(g.fs, e) {
        None => with_tail(g.weights, before, leaves),
        Some(c) => with_tail(g.weights, with_call(g, before, c)?, leaves),
    }
}

/// A loop's own weight.
fn with_head(w: Weights, before: u64, kind: &LoopKind) -> Option<u64>
    ensures some { IfSome result (λ m. m ≡ before + w.statement + sizes.of_kind w kind.now) }
    ensures none { IfNone result (2 ^ 64 ≤ before + w.statement + sizes.of_kind w kind.now) }
{
    let one = before.checked_add(w.statement)?;
    match kind {
        LoopKind::Plain | LoopKind::While(_) => Some(one),
        LoopKind::Count { .. } => one.checked_add(w.counter),
    }
}

/// The count with the weight of a statement and of what stands in it.
#[cycle(weighing)]
#[tactic(auto, using(crate::proofs::WeighingRules::weight_rules))]
fn with_statement(g: Weighing<'_>, before: u64, s: &Stmt) -> Option<u64>
    requires known { spec.KnowsCallees g }
    ensures some { IfSome result (λ n. n ≡ before + spec.weight_of g.entry s.now) }
    ensures none { IfNone result (2 ^ 64 ≤ before + spec.weight_of g.entry s.now) }
{
    let w = g.weights;
    match s {
        Stmt::Block { decls, body, .. } => {
            let own = before.checked_add(w.statement)?;
            let count = with_many(own, decls.len(), w.declaration)?;
            with_statements(g, count, body.as_slice())
        }
        Stmt::If(arms, other) | Stmt::Cases(arms, other) => {
            let count = with_arms(g, before.checked_add(w.statement)?, arms.as_slice())?;
            match other {
                None => Some(count),
                Some(body) => with_statements(g, count.checked_add(w.arm)?, body.as_slice()),
            }
        }
        Stmt::Loop { kind, body, .. } => {
            with_statements(g, with_head(w, before, kind)?, body.as_slice())
        }
        Stmt::Assign(_, _, e) => with_place(g, before, false, e),
        Stmt::Return(e) => with_place(g, before, g.inside, e),
        Stmt::Into { targets, .. } => {
            with_many(before.checked_add(w.statement)?, targets.len(), w.target)
        }
        Stmt::Exit(_, _) | Stmt::Continue(_, _) | Stmt::Raise(_) | Stmt::Nothing => {
            before.checked_add(w.statement)
        }
    }
}

#[cycle(weighing)]
#[tactic(auto, using(crate::proofs::WeighingRules::weight_rules))]
fn with_statements(g: Weighing<'_>, before: u64, list: &[Stmt]) -> Option<u64>
    requires known { spec.KnowsCallees g }
    ensures some { IfSome result (λ n. n ≡ before + sum_by (spec.weight_of g.entry) list.now) }
    ensures none { IfNone result (2 ^ 64 ≤ before + sum_by (spec.weight_of g.entry) list.now) }
{
    let mut count = before;
    for i in 0..list.len() {
        count = with_statement(g, count, &list[i])?;
    }
    Some(count)
}

#[cycle(weighing)]
#[tactic(auto, using(crate::proofs::WeighingRules::weight_rules))]
fn with_arms(g: Weighing<'_>, before: u64, list: &[Arm]) -> Option<u64>
    requires known { spec.KnowsCallees g }
    ensures some { IfSome result (λ n. n ≡ before + sum_by (spec.weight_of_arm g.entry) list.now) }
    ensures none { IfNone result (2 ^ 64 ≤ before + sum_by (spec.weight_of_arm g.entry) list.now) }
{
    let mut count = before;
    for i in 0..list.len() {
        count = with_arm(g, count, &list[i])?;
    }
    Some(count)
}

#[cycle(weighing)]
#[tactic(auto, using(crate::proofs::WeighingRules::weight_rules))]
fn with_arm(g: Weighing<'_>, before: u64, arm: &Arm) -> Option<u64>
    requires known { spec.KnowsCallees g }
    ensures some { IfSome result (λ n. n ≡ before + spec.weight_of_arm g.entry arm.now) }
    ensures none { IfNone result (2 ^ 64 ≤ before + spec.weight_of_arm g.entry arm.now) }
{
    with_statements(g, before.checked_add(g.weights.arm)?, arm.body.as_slice())
}

/// The weight of the body of the function with a number, in which calls nest one deeper than is known.
#[tactic(auto, using(crate::proofs::WeighingRules::body_is))]
fn of_body(g: Weighing<'_>, i: usize) -> Option<u64>
    requires known { spec.KnowsCallees g }
    requires inside { i < length g.fs.now }
    ensures { spec.IsCount (sizes.expanded_weight g.entry.weights g.entry.fs.now
        (g.entry.depth + 1) g.entry.inside i) result }
{
    let fs = g.fs;
    with_statement(g, 0, &fs[i].body)
}

/// The weights of all bodies, as those of called functions in which calls nest one deeper than is known.
fn one_deeper(alloc: Global, g: Weighing<'_>) -> Result<Items<Option<u64>>, NoMemory>
    requires known { spec.KnowsCallees g }
    requires inside { g.inside ≡ true }
    ensures { IfOk result (λ all.
        spec.AreWeights g.entry.weights g.entry.fs.now (g.entry.depth + 1) all) }
{
    let mut all = Items::new(alloc);
    let fs = g.fs;
    for i in 0..fs.len() {
        all.push(of_body(g, i))?;
    }
    Ok(all)
}

/// The weights of all bodies where none is entered.
fn entering_none(alloc: Global, w: Weights, fs: &[Function]) -> Result<Items<Option<u64>>, NoMemory>
    ensures { IfOk result (λ all. spec.AreWeights w fs.now 0 all) }
{
    let mut all = Items::new(alloc);
    for _ in 0..fs.len() {
        all.push(Some(w.statement))?;
    }
    Ok(all)
}

/// The weights of all bodies, as those of called functions in which calls nest less than so deep.
fn callees_to(
    alloc: Global,
    w: Weights,
    fs: &[Function],
    depth: usize,
) -> Result<Items<Option<u64>>, NoMemory>
    ensures { IfOk result (λ all. spec.AreWeights w fs.now depth all) }
{
    let mut all = entering_none(alloc, w, fs)?;
    for d in 0..depth {
        let g = Weighing {
            weights: w,
            fs,
            depth: d,
            callees: all.as_slice(),
            inside: true,
        };
        all = one_deeper(alloc, g)?;
    }
    Ok(all)
}

/// The weight of the first function's body with its calls expanded, where it fits into 64 bits.
pub fn expanded_weight(alloc: Global, w: Weights, fs: &[Function]) -> Result<Option<u64>, NoMemory>
    ensures { IfOk result (λ n. spec.IsCount
        (sizes.expanded_weight w fs.now (length fs.now) false 0) n) }
{
    let n = fs.len();
    if n == 0 {
        return Err(NoMemory);
    }
    let depth = n - 1;
    let callees = callees_to(alloc, w, fs, depth)?;
    let g = Weighing {
        weights: w,
        fs,
        depth,
        callees: callees.as_slice(),
        inside: false,
    };
    Ok(of_body(g, 0))
}
