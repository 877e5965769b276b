//! The block that a self call becomes: the arguments into slots of their own, these into the parameters, the test of STRICT, and the next
//! turn of the loop.

ghost use Rattle.std.specs.Prelude.{◌≡◌, ◌++◌, IsTrue, Some, None, [], ◌∷◌, length};
ghost use Rattle.away_trees.specs.declared.statements.Stmt.TheVariants as stmt;
ghost use Rattle.call_meaning.specs.Expands.{slots_from};
ghost use Rattle.call_meaning.specs.Renamed.{renaming};
ghost use Rattle.call_meaning.specs.Untails.{moves_slots, null_ends, sets_arguments};
ghost use Rattle.moved_slots.specs.Moved.{slots_by};
ghost use Rattle.call_answers.specs.Walking as spec;

use crate::leaf_pairs::{is_nullable, same_expr};
use crate::nulls::is_null_test;
use crate::walking::{Found, Walk};
use away_trees::{Arm, Expr, Stmt};
use away_values::Name;

fn is_called(name: &str, e: &Expr) -> bool
    ensures { result ≡ spec.calls name.now e.now }
{
    match e {
        Expr::Call(called, _) => name == called.text(),
        _ => false,
    }
}

/// What an expression calls.
pub(crate) fn found<'a>(name: &str, e: &'a Expr) -> Found<'a>
    ensures { spec.IsFound name.now e.now result }
{
    match e {
        Expr::Call(called, args) => {
            if name == called.text() {
                Found::Itself(args.as_slice())
            } else {
                Found::Nobody
            }
        }
        Expr::Cast(inner, _) => {
            if is_called(name, inner.get()) {
                Found::Converted
            } else {
                Found::Nobody
            }
        }
        _ => Found::Nobody,
    }
}

/// An assignment of an argument to a slot that may be NULL.
fn sets(w: &Walk<'_>, pairs: &[(u32, u32)], i: usize, a: &Expr, x: &Stmt) -> bool
    ensures { IsTrue result
        → spec.SetsArgument (spec.typed w.now) (slots_by pairs.now) i a.now x.now }
{
    match x {
        Stmt::Assign(_, Some(j), y) => {
            *j as usize == i && is_nullable(w.slots, *j) && same_expr(pairs, a, y)
        }
        _ => false,
    }
}

/// Assignments of the arguments, from a slot on.
#[tactic(auto, using(crate::proofs::TurnLists::sets_step, crate::proofs::TurnLists::sets_end))]
fn sets_stand(w: &Walk<'_>, pairs: &[(u32, u32)], args: &[Expr], xs: &[Stmt], from: usize) -> bool
    ensures { IsTrue result → sets_arguments renaming (spec.typed w.now) (slots_by pairs.now)
        from args.now xs.now }
{
    if args.len() != xs.len() {
        return false;
    }
    let mut slot = from;
    for i in 0..args.len() {
        if !sets(w, pairs, slot, &args[i], &xs[i]) {
            return false;
        }
        let Some(more) = slot.checked_add(1) else {
            return false;
        };
        slot = more;
    }
    true
}

/// An assignment of a slot to a slot that may be NULL.
fn moves(w: &Walk<'_>, i: usize, j: usize, x: &Stmt) -> bool
    ensures { IsTrue result → spec.MovesSlot (spec.typed w.now) i j x.now }
{
    match x {
        Stmt::Assign(_, Some(k), Expr::Slot(l)) => {
            *k as usize == i && is_nullable(w.slots, *k) && *l as usize == j
        }
        _ => false,
    }
}

/// Assignments of as many slots from one on to those from 0 on.
#[tactic(auto, using(crate::proofs::TurnLists::moves_step, crate::proofs::TurnLists::moves_end))]
fn moves_stand(w: &Walk<'_>, xs: &[Stmt], from: usize) -> bool
    ensures { IsTrue result
        → moves_slots (spec.typed w.now) (length xs.now) 0 from xs.now }
{
    let mut slot = from;
    for i in 0..xs.len() {
        if !moves(w, i, slot, &xs[i]) {
            return false;
        }
        let Some(more) = slot.checked_add(1) else {
            return false;
        };
        slot = more;
    }
    true
}

fn returns_null(xs: &[Stmt]) -> bool
    ensures { IsTrue result → xs.now ≡ spec.null_returned }
{
    match xs {
        [Stmt::Return(Expr::Null)] => true,
        _ => false,
    }
}

fn is_null_arm(n: usize, a: &Arm) -> bool
    ensures { IsTrue result → a.now ≡ spec.null_arm n }
{
    is_null_test(n, 0, &a.test) && returns_null(a.body.as_slice())
}

/// STRICT ends with NULL where a parameter is NULL.
fn is_null_end(n: usize, x: &Stmt) -> bool
    ensures { IsTrue result → x.now ≡ stmt.If (spec.null_arm n ∷ []) None }
{
    match x {
        Stmt::If(arms, None) => match arms.as_slice() {
            [a] => is_null_arm(n, a),
            _ => false,
        },
        _ => false,
    }
}

fn goes_on(label: &Name, x: &Stmt) -> bool
    ensures { IsTrue result → x.now ≡ stmt.Continue (Some label.now) None }
{
    match x {
        Stmt::Continue(Some(l), None) => l.text() == label.text(),
        _ => false,
    }
}

/// What stands behind the assignments.
fn ends_turn(w: &Walk<'_>, label: &Name, n: usize, xs: &[Stmt]) -> bool
    ensures { IsTrue result → xs.now ≡ null_ends w.now.f.now.strict (slots_from n 0)
        ++ (stmt.Continue (Some label.now) None ∷ []) }
{
    if w.f.strict && n > 0 {
        match xs {
            [a, b] => is_null_end(n, a) && goes_on(label, b),
            _ => false,
        }
    } else {
        match xs {
            [b] => goes_on(label, b),
            _ => false,
        }
    }
}

/// The statements of the block.
fn turns(w: &Walk<'_>, label: &Name, pairs: &[(u32, u32)], args: &[Expr], xs: &[Stmt]) -> bool
    ensures { IsTrue result
        → spec.IsTurn w.now label.now (slots_by pairs.now) (length args.now) args.now xs.now }
{
    let n = args.len();
    if xs.len() < n {
        return false;
    }
    let (qs, behind) = xs.split_at(n);
    if behind.len() < n {
        return false;
    }
    let (ps, end) = behind.split_at(n);
    sets_stand(w, pairs, args, qs, n) && moves_stand(w, ps, n) && ends_turn(w, label, n, end)
}

/// The block that a self call becomes.
#[tactic(auto, using(crate::proofs::LeafRules::is_next_turn_rule))]
pub(crate) fn is_next_turn(
    w: &Walk<'_>,
    label: &Name,
    pairs: &[(u32, u32)],
    args: &[Expr],
    x: &Stmt,
) -> bool
    ensures { IsTrue result
        → spec.IsNextTurn w.now label.now (slots_by pairs.now) args.now x.now }
{
    match x {
        Stmt::Block {
            label: None,
            decls,
            body,
            closing: _,
        } => {
            decls.is_empty()
                && args.len() == w.f.params.len()
                && turns(w, label, pairs, args, body.as_slice())
        }
        _ => false,
    }
}
