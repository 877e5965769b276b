//! The patterns of loops, without what their bodies ask.

ghost use Rattle.std.specs.Prelude.{◌≡◌, ◌+◌, ◌*◌, ◌≤◌, ◌<◌, ◌^◌};
ghost use Rattle.block_forms.specs.FixedList.{many};
ghost use Rattle.block_forms.specs.Laid.{after, kind_size, again_of, kind_parts};
ghost use Rattle.block_forms.specs.Patterns.{bound_parts, step_parts, turn_parts, for_parts, head_after, for_test};
ghost use Rattle.goto_check.specs.Asking.{IsAsked, numbers_in, setting_in};
ghost use Rattle.goto_check.specs.AnswerRuns.{answer_run};
ghost use Rattle.goto_check.specs.Room.{here, Room};
ghost use Rattle.goto_check.specs.Wanted.{wanted};

use crate::asking::{Asking, Question, ask_own, ask_shared};
use crate::patterns::{entry_term, is_null, source_term};
use crate::read::{after_bound, first_test, jump_of, no_of, node, yes_of};
use crate::runs::{Run, join};
use crate::shapes::{Reads, Shape, Wanted};
use crate::spots::Spot;
use away_trees::{Expr, LoopKind};
use away_values::{Ty, sqlstate};
use block_forms::{Fixed, Goto};

/// A bound is set, and is not NULL.
#[tactic(auto, using(crate::proofs::AnswerRules::answer_rules))]
fn ask_bound(a: &Asking<'_>, b: usize, slot: usize, want: &Wanted<'_>, next: usize) -> Run
    requires { a.now.fixed + many ≤ 2 ^ 64 }
    ensures { result ≡ answer_run a.now
        (bound_parts a.now.goto.now (numbers_in a.now) b slot (wanted want.now) next) }
{
    let test = jump_of(a.goto, b);
    let fault = yes_of(a.goto, test);
    let null = is_null(a.fixed, Ty::Integer, slot);
    join(
        ask_own(a, b, &Shape::Sets(slot, want, test)),
        join(
            ask_own(a, test, &Shape::Branch(false, &null, fault, next)),
            ask_shared(a, fault, &Shape::Fail(sqlstate::NULL_VALUE_NOT_ALLOWED)),
        ),
    )
}

fn head_after(g: &Goto, step: &Option<Expr>, b: usize) -> usize
    ensures { result ≡ head_after g.now step.now b }
{
    match step {
        None => jump_of(g, b),
        Some(_) => no_of(g, no_of(g, jump_of(g, b))),
    }
}

#[tactic(auto, using(crate::proofs::AnswerRules::answer_rules))]
fn ask_step(
    a: &Asking<'_>,
    by: &Option<Expr>,
    expr: usize,
    b: usize,
    step: usize,
    head: usize,
) -> Run
    requires { a.now.fixed + many ≤ 2 ^ 64 }
    ensures { result ≡ answer_run a.now
        (step_parts a.now.goto.now (numbers_in a.now) by.now expr b step head) }
{
    match by {
        None => {
            let one = entry_term(a.fixed, Fixed::One, Reads::Nothing);
            ask_own(a, b, &Shape::Sets(step, &one, head))
        }
        Some(e) => {
            let test = no_of(a.goto, jump_of(a.goto, b));
            let fault = yes_of(a.goto, test);
            let not_positive = entry_term(a.fixed, Fixed::NotPositive, Reads::One(step));
            join(
                ask_bound(a, b, step, &source_term(expr, e), test),
                join(
                    ask_own(a, test, &Shape::Branch(false, &not_positive, fault, head)),
                    ask_shared(a, fault, &Shape::Fail(sqlstate::INVALID_PARAMETER_VALUE)),
                ),
            )
        }
    }
}

/// The slots of a FOR: its variable and its hidden ones.
#[derive(Clone, Copy)]
struct Counter {
    var: usize,
    cur: usize,
    last: usize,
    step: usize,
}

#[tactic(auto, using(crate::proofs::AnswerRules::answer_rules))]
fn ask_turn(
    a: &Asking<'_>,
    reverse: bool,
    c: Counter,
    head: usize,
    test: usize,
    body: usize,
    next: usize,
) -> Run
    requires { a.now.fixed + many ≤ 2 ^ 64 }
    ensures { result ≡ answer_run a.now (turn_parts a.now.goto.now
        (numbers_in a.now) reverse c.var c.cur c.last c.step head test body next) }
{
    let in_range = entry_term(a.fixed, Fixed::in_range(reverse), Reads::Two(c.cur, c.last));
    let copy = entry_term(a.fixed, Fixed::Copy, Reads::One(c.cur));
    let past_end = Fixed::past_end(reverse);
    let leaves_range = entry_term(a.fixed, past_end, Reads::Two(c.step, c.cur));
    let moved = entry_term(a.fixed, Fixed::next(reverse), Reads::Two(c.cur, c.step));
    let turn = yes_of(a.goto, head);
    let back = no_of(a.goto, test);
    join(
        ask_own(a, head, &Shape::Branch(true, &in_range, turn, next)),
        join(
            ask_own(a, turn, &Shape::Sets(c.var, &copy, body)),
            join(
                ask_own(a, test, &Shape::Branch(false, &leaves_range, next, back)),
                ask_own(a, back, &Shape::Sets(c.cur, &moved, head)),
            ),
        ),
    )
}

fn for_test(a: &Asking<'_>, reverse: bool, p: Spot) -> usize
    requires { Room (numbers_in a.now) (here p) }
    ensures { result ≡ for_test a.now.goto.now (numbers_in a.now) reverse p.fors }
{
    let cur = a.counters + 3 * p.fors;
    let leaves_range = a.fixed + Fixed::past_end(reverse).position() as usize;
    first_test(leaves_range, cur + 2, cur, a.goto.blocks.as_slice())
}

#[tactic(auto, using(crate::proofs::AnswerRules::answer_rules))]
fn ask_for(
    a: &Asking<'_>,
    reverse: bool,
    first: &Expr,
    last: &Expr,
    by: &Option<Expr>,
    p: Spot,
    body: usize,
    next: usize,
) -> Run
    requires room { Room (numbers_in a.now) (here p) }
    requires more { p.expr + 2 < 2 ^ 64 }
    ensures { result ≡ answer_run a.now (for_parts a.now.goto.now
        (numbers_in a.now) reverse first.now last.now by.now (here p) body next) }
{
    let cur = a.counters + 3 * p.fors;
    let counter = Counter {
        var: p.slot,
        cur,
        last: cur + 1,
        step: cur + 2,
    };
    let set_first = node(a.goto, p.node);
    let set_last = after_bound(a.goto, set_first);
    let set_step = after_bound(a.goto, set_last);
    let head = head_after(a.goto, by, set_step);
    let test = for_test(a, reverse, p);
    let from = source_term(p.expr, first);
    let to = source_term(p.expr + 1, last);
    join(
        ask_bound(a, set_first, counter.cur, &from, set_last),
        join(
            ask_bound(a, set_last, counter.last, &to, set_step),
            join(
                ask_step(a, by, p.expr + 2, set_step, counter.step, head),
                ask_turn(a, reverse, counter, head, test, body, next),
            ),
        ),
    )
}

fn again_of(a: &Asking<'_>, kind: &LoopKind, p: Spot) -> usize
    requires { Room (numbers_in a.now) (here p) }
    ensures { result ≡ again_of (setting_in a.now) kind.now (here p) }
{
    match kind {
        LoopKind::Plain => node(a.goto, p.node),
        LoopKind::While(_) => node(a.goto, p.node),
        LoopKind::Count { reverse, .. } => for_test(a, *reverse, p),
    }
}

/// The block to which the body of a loop leads, where the question asks for what follows.
pub(crate) fn turns_to(a: &Asking<'_>, kind: &LoopKind, p: Spot) -> usize
    requires { Room (numbers_in a.now) (here p) }
    ensures { IsAsked a.now result (again_of (setting_in a.now) kind.now (here p)) }
{
    match a.question {
        Question::Fails => again_of(a, kind, p),
        Question::Owns(_) => 0,
        Question::Shares(_) => 0,
        Question::Which => 0,
    }
}

/// The blocks of a loop, but its body's.
pub(crate) fn ask_kind(a: &Asking<'_>, kind: &LoopKind, p: Spot, body: usize, next: usize) -> Run
    requires { Room (numbers_in a.now) (after (here p) (kind_size kind.now)) }
    ensures { result ≡ answer_run a.now
        (kind_parts (setting_in a.now) kind.now (here p) body next) }
{
    match kind {
        LoopKind::Plain => ask_own(a, node(a.goto, p.node), &Shape::Jump(true, body)),
        LoopKind::While(e) => {
            let test = source_term(p.expr, e);
            ask_own(
                a,
                node(a.goto, p.node),
                &Shape::Branch(true, &test, body, next),
            )
        }
        LoopKind::Count {
            reverse,
            first,
            last,
            step,
            ..
        } => ask_for(a, *reverse, first, last, step, p, body, next),
    }
}
