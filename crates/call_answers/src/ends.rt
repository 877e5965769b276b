//! The ends of a body: the fault of one without a RETURN, and the test of STRICT before it.

ghost use Rattle.std.specs.Prelude.{◌≡◌, [], ◌∷◌, IfSome, IsTrue, None, Some};
ghost use Rattle.away_trees.specs.declared.statements.Stmt.TheVariants as stmt;
ghost use Rattle.plsql_meaning.specs.Outcomes.{no_return};
ghost use Rattle.plsql_meaning.specs.Statements.{class_of};
ghost use Rattle.call_answers.specs.Calling as call;
ghost use Rattle.call_answers.specs.Walking as spec;

use crate::nulls::is_null_test;
use away_trees::{Arm, Raised, Stmt};
use away_values::Name;

/// The SQLSTATE of a body that ends without a RETURN.
fn is_no_return(raised: &Raised) -> bool
    ensures { IsTrue result → class_of raised.now ≡ no_return }
{
    match raised {
        Raised::State(code) => code.text() == "2F005",
        Raised::Message(_) => false,
    }
}

/// The fault of a body that ends without a RETURN.
pub(crate) fn falls_off(x: &Stmt) -> bool
    ensures { IsTrue result → spec.FallsOff x.now }
{
    match x {
        Stmt::Raise(raised) => is_no_return(raised),
        _ => false,
    }
}

pub(crate) fn is_exit(label: &Name, x: &Stmt) -> bool
    ensures { IsTrue result → x.now ≡ stmt.Exit (Some label.now) None }
{
    match x {
        Stmt::Exit(Some(l), None) => l.text() == label.text(),
        _ => false,
    }
}

fn exits(label: &Name, xs: &[Stmt]) -> bool
    ensures { IsTrue result → xs.now ≡ stmt.Exit (Some label.now) None ∷ [] }
{
    match xs {
        [x] => is_exit(label, x),
        _ => false,
    }
}

fn is_null_arm(n: usize, from: usize, label: &Name, a: &Arm) -> bool
    ensures { IsTrue result → a.now ≡ call.null_exit_arm n from label.now }
{
    is_null_test(n, from, &a.test) && exits(label, a.body.as_slice())
}

/// STRICT leaves where a parameter is NULL.
fn leaves_where_null(n: usize, from: usize, label: &Name, x: &Stmt) -> bool
    ensures { IsTrue result → x.now ≡ call.null_exit n from label.now }
{
    match x {
        Stmt::If(arms, None) => match arms.as_slice() {
            [a] => is_null_arm(n, from, label, a),
            _ => false,
        },
        _ => false,
    }
}

/// The place of a body before the fault of one without a RETURN, where nothing stands before it.
#[tactic(auto, using(crate::proofs::CallBlockRules::alone_rule))]
fn alone(xs: &[Stmt]) -> Option<usize>
    ensures { IfSome result (λ k. call.EndsWith [] xs.now k) }
{
    match xs {
        [_, end] => { if falls_off(end) { Some(0) } else { None } }
        _ => None,
    }
}

/// The place of a body behind the test of STRICT.
#[tactic(auto, using(crate::proofs::CallBlockRules::tested_rule))]
fn tested(n: usize, from: usize, label: &Name, xs: &[Stmt]) -> Option<usize>
    ensures { IfSome result (λ k. call.EndsWith (call.null_exit n from label.now ∷ []) xs.now k) }
{
    match xs {
        [a, _, end] => {
            if leaves_where_null(n, from, label, a) && falls_off(end) {
                Some(1)
            } else {
                None
            }
        }
        _ => None,
    }
}

/// The place of a body among the statements of the block with its parameters.
pub(crate) fn body_place(
    strict: bool,
    n: usize,
    from: usize,
    label: &Name,
    xs: &[Stmt],
) -> Option<usize>
    ensures { IfSome result (λ k. call.BodyStands strict n from label.now xs.now k) }
{
    if !strict {
        return alone(xs);
    }
    if n == 0 {
        return alone(xs);
    }
    tested(n, from, label, xs)
}
