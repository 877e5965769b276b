//! The test of STRICT: whether one of some slots is NULL.

ghost use Rattle.std.specs.Prelude.{◌≡◌, IsTrue, length};
ghost use Rattle.call_meaning.specs.Expands.{null_of, null_test, slots_from};
ghost use Rattle.call_answers.specs.Walking as spec;

use away_trees::Expr;
use away_values::{ChainOp, IsTest};

/// A slot is NULL.
fn is_null_of(i: usize, e: &Expr) -> bool
    ensures { IsTrue result → e.now ≡ null_of i }
{
    match e {
        Expr::Is(a, IsTest::Null, false) => match a.get() {
            Expr::Slot(j) => *j as usize == i,
            _ => false,
        },
        _ => false,
    }
}

#[tactic(auto, using(crate::proofs::TurnLists::nulls_step, crate::proofs::TurnLists::nulls_end))]
fn further_nulls(links: &[(ChainOp, Expr)], from: usize) -> bool
    ensures { IsTrue result → links.now ≡ spec.nulls_from from (length links.now) }
{
    let mut slot = from;
    for i in 0..links.len() {
        if links[i].0 != ChainOp::Or || !is_null_of(slot, &links[i].1) {
            return false;
        }
        let Some(more) = slot.checked_add(1) else {
            return false;
        };
        slot = more;
    }
    true
}

/// One of so many slots from one on is NULL.
#[tactic(auto, using(crate::proofs::TurnLists::null_test_chain))]
pub(crate) fn is_null_test(n: usize, from: usize, e: &Expr) -> bool
    ensures { IsTrue result → e.now ≡ null_test (slots_from n from) }
{
    if n == 1 {
        return is_null_of(from, e);
    }
    let Some(more) = from.checked_add(1) else {
        return false;
    };
    match e {
        Expr::Chain(first, links) => {
            n > 1
                && links.len() == n - 1
                && is_null_of(from, first.get())
                && further_nulls(links.as_slice(), more)
        }
        _ => false,
    }
}
