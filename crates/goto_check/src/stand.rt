//! What the patterns of statements ask.

ghost use Rattle.std.specs.Prelude.{◌≡◌, ◌<◌, Some, None};
ghost use Rattle.block_forms.specs.Laid as l;
ghost use Rattle.block_forms.specs.Patterns as form;
ghost use Rattle.block_forms.specs.Laid.{a_node, after, laid, laid_row, laid_arms, row_size, arms_size, decls_size, kind_size, row_parts, arms_parts};
ghost use Rattle.goto_check.specs.Asking.{IsAsked, numbers_in, setting_in};
ghost use Rattle.goto_check.specs.AnswerRuns.{answer_run};
ghost use Rattle.goto_check.specs.Enclosing.{around_of};
ghost use Rattle.goto_check.specs.Room.{here, Room, Small};
ghost use Rattle.goto_check.specs.Runs.{join};

use crate::asking::{Answer, Asking, Question, ask_own, ask_same, ask_shared};
use crate::enclosing::{Enclosing, again_to, exit_to};
use crate::leaves::{ask_assign, ask_decls, ask_raise, ask_return, first_block};
use crate::loops::{ask_kind, turns_to};
use crate::patterns::{ask_exit, ask_leave, source_term};
use crate::read::{no_of, node};
use crate::runs::{Run, join};
use crate::shapes::Shape;
use crate::sizes::{decls_size, kind_size, size_of};
use crate::spots::{Spot, after, spot_of};
use crate::targets::ask_into;
use away_trees::{Arm, Decl, LoopKind, Stmt};
use away_values::{Class, Name, sqlstate};

/// What the node and the arms of an IF or a CASE answer, where the text behind them begins, and the block where no arm is taken.
#[derive(Clone, Copy)]
struct Tested {
    run: Run,
    end: Spot,
    lack: usize,
}

/// What follows where no arm is taken and there is no ELSE.
#[tactic(auto, using(crate::proofs::AnswerRules::answer_rules))]
fn ask_lack(a: &Asking<'_>, tested: Tested, without: Option<Class>, next: usize) -> Answer
    ensures run { result.run ≡ join tested.run
        (answer_run a.now (l.lack_parts (setting_in a.now) without tested.lack next)) }
    ensures end { result.end ≡ tested.end }
{
    let run = match without {
        None => ask_same(a, tested.lack, next),
        Some(c) => ask_shared(a, tested.lack, &Shape::Fail(c)),
    };
    Answer {
        run: join(tested.run, run),
        end: tested.end,
    }
}

/// What a statement without statements inside answers, which ends with itself.
fn behind(run: Run, s: &Stmt, p: Spot) -> Answer
    requires { Small (after (here p) (laid s.now).size) }
    ensures run { result.run ≡ run }
    ensures end { here result.end ≡ after (here p) (laid s.now).size }
{
    Answer {
        run,
        end: after(p, size_of(s)),
    }
}

/// The block that follows a statement with so many others behind it, where the question asks for what follows: only
/// then is the statement sized before it is walked.
fn follows(a: &Asking<'_>, s: &Stmt, p: Spot, many: usize, next: usize) -> usize
    requires { Room (numbers_in a.now) (after (here p) (laid s.now).size) }
    ensures { IsAsked a.now result
        (l.first_block (setting_in a.now) many (after (here p) (laid s.now).size).node next) }
{
    if many == 0 {
        return next;
    }
    match a.question {
        Question::Fails => first_block(a, many, after(p, size_of(s)).node, next),
        Question::Owns(_) => next,
        Question::Shares(_) => next,
        Question::Which => next,
    }
}

#[cycle(stand)]
#[tactic(auto, using(crate::proofs::AnswerRules::answer_rules, crate::proofs::Equations::laid_rules, crate::proofs::Rooms::room_rules))]
pub(crate) fn ask_statement(
    a: &Asking<'_>,
    s: &Stmt,
    p: Spot,
    around: &Enclosing<'_>,
    next: usize,
) -> Answer
    requires { Room (numbers_in a.now) (after (here p) (laid s.now).size) }
    ensures run { result.run ≡ answer_run a.now
        ((laid s.now).parts (setting_in a.now) (here p) (around_of around.now) next) }
    ensures end { here result.end ≡ after (here p) (laid s.now).size }
{
    match s {
        Stmt::Block {
            label,
            decls,
            body,
            ..
        } => ask_block(a, label, decls.as_slice(), body.as_slice(), p, around, next),
        Stmt::If(arms, other) => {
            let tested = ask_tests(a, arms.as_slice(), p, around, next);
            match other {
                None => ask_lack(a, tested, None, next),
                Some(body) => ask_else(a, tested, body.as_slice(), around, next),
            }
        }
        Stmt::Cases(arms, other) => {
            let tested = ask_tests(a, arms.as_slice(), p, around, next);
            match other {
                None => ask_lack(a, tested, Some(sqlstate::CASE_NOT_FOUND), next),
                Some(body) => ask_else(a, tested, body.as_slice(), around, next),
            }
        }
        Stmt::Loop {
            label,
            kind,
            body,
            ..
        } => ask_loop(a, label, kind, body.as_slice(), p, around, next),
        Stmt::Assign(_, slot, e) => behind(ask_assign(a, *slot, e, p, next), s, p),
        Stmt::Exit(label, when) => {
            let to = exit_to(around, label, a.goto.finish as usize);
            behind(
                ask_exit(a, when, p.expr, node(a.goto, p.node), to, next),
                s,
                p,
            )
        }
        Stmt::Continue(label, when) => {
            let to = again_to(around, label, a.goto.finish as usize);
            behind(
                ask_leave(a, when, p.expr, node(a.goto, p.node), to, next),
                s,
                p,
            )
        }
        Stmt::Return(e) => behind(ask_return(a, e, p), s, p),
        Stmt::Raise(raised) => behind(ask_raise(a, raised, p), s, p),
        Stmt::Into {
            strict,
            targets,
            query,
        } => behind(
            ask_into(a, *strict, targets.as_slice(), query, p, next),
            s,
            p,
        ),
        Stmt::Nothing => behind(
            ask_own(a, node(a.goto, p.node), &Shape::Jump(false, next)),
            s,
            p,
        ),
    }
}

#[cycle(stand)]
#[tactic(auto, using(crate::proofs::AnswerRules::answer_rules, crate::proofs::Rooms::room_rules))]
fn ask_row(a: &Asking<'_>, list: &[Stmt], p: Spot, around: &Enclosing<'_>, next: usize) -> Answer
    requires { Room (numbers_in a.now) (after (here p) (row_size (laid_row list.now))) }
    ensures run { result.run ≡ answer_run a.now (row_parts (setting_in a.now) (laid_row list.now)
        (here p) (around_of around.now) next) }
    ensures end { here result.end ≡ after (here p) (row_size (laid_row list.now)) }
{
    let mut run = Run::Empty;
    let mut at = p;
    for i in 0..list.len() {
        let s = &list[i];
        let to = follows(a, s, at, list.len() - (i + 1), next);
        let answer = ask_statement(a, s, at, around, to);
        run = join(run, answer.run);
        at = answer.end;
    }
    Answer { run, end: at }
}

#[cycle(stand)]
#[tactic(auto, using(crate::proofs::AnswerRules::answer_rules, crate::proofs::Rooms::room_rules))]
fn ask_block(
    a: &Asking<'_>,
    label: &Option<Name>,
    decls: &[Decl],
    body: &[Stmt],
    p: Spot,
    around: &Enclosing<'_>,
    next: usize,
) -> Answer
    requires { Room (numbers_in a.now) (after (here p)
        (after (after a_node (decls_size decls.now)) (row_size (laid_row body.now)))) }
    ensures run { result.run ≡ answer_run a.now
        (l.block_parts (setting_in a.now) label.now decls.now (laid_row body.now) (here p)
        (around_of around.now) next) }
    ensures end { here result.end ≡ after (here p)
        (after (after a_node (decls_size decls.now)) (row_size (laid_row body.now))) }
{
    let one = spot_of(1, 0, 0, 0, 0);
    let begin = after(p, after(one, decls_size(decls)));
    let then = first_block(a, body.len(), begin.node, next);
    let first = first_block(a, decls.len(), p.node + 1, then);
    let begins = ask_same(a, node(a.goto, p.node), first);
    let declared = ask_decls(a, decls, after(p, one), then);
    let inner = Enclosing::Block(label.as_ref(), next, &*around);
    let inside = ask_row(a, body, begin, &inner, next);
    Answer {
        run: join(begins, join(declared, inside.run)),
        end: inside.end,
    }
}

#[cycle(stand)]
#[tactic(auto, using(crate::proofs::AnswerRules::answer_rules, crate::proofs::Rooms::room_rules))]
fn ask_loop(
    a: &Asking<'_>,
    label: &Option<Name>,
    kind: &LoopKind,
    body: &[Stmt],
    p: Spot,
    around: &Enclosing<'_>,
    next: usize,
) -> Answer
    requires { Room (numbers_in a.now)
        (after (here p) (after (kind_size kind.now) (row_size (laid_row body.now)))) }
    ensures run { result.run ≡ answer_run a.now (l.loop_parts (setting_in a.now) label.now kind.now
        (laid_row body.now) (here p) (around_of around.now) next) }
    ensures end { here result.end
        ≡ after (here p) (after (kind_size kind.now) (row_size (laid_row body.now))) }
{
    let again = turns_to(a, kind, p);
    let first = first_block(a, body.len(), p.node + 1, again);
    let around_body = ask_kind(a, kind, p, first, next);
    let inner = Enclosing::Loop(label.as_ref(), next, again, &*around);
    let inside = ask_row(a, body, after(p, kind_size(kind)), &inner, again);
    Answer {
        run: join(around_body, inside.run),
        end: inside.end,
    }
}

#[cycle(stand)]
#[tactic(auto, using(crate::proofs::AnswerRules::answer_rules, crate::proofs::Rooms::room_rules, crate::proofs::Equations::laid_arm_is))]
fn ask_arms(
    a: &Asking<'_>,
    arms: &[Arm],
    p: Spot,
    around: &Enclosing<'_>,
    next: usize,
    b: usize,
) -> Tested
    requires { Room (numbers_in a.now) (after (here p) (arms_size (laid_arms arms.now))) }
    ensures run { result.run ≡ answer_run a.now (arms_parts (setting_in a.now) (laid_arms arms.now)
        (here p) (around_of around.now) next b) }
    ensures end { here result.end ≡ after (here p) (arms_size (laid_arms arms.now)) }
    ensures lack { result.lack ≡ l.lack (setting_in a.now) (laid_arms arms.now) b }
{
    let mut run = Run::Empty;
    let mut at = p;
    let mut from = b;
    for i in 0..arms.len() {
        let arm = &arms[i];
        let other = no_of(a.goto, from);
        let body = first_block(a, arm.body.len(), at.node + 1, next);
        let inside = after(at, spot_of(1, 1, 0, 0, 0));
        let test = source_term(at.expr, &arm.test);
        let own = ask_own(a, from, &Shape::Branch(false, &test, body, other));
        let here = join(ask_same(a, from, node(a.goto, at.node)), own);
        let answer = ask_row(a, arm.body.as_slice(), inside, around, next);
        run = join(run, join(here, answer.run));
        at = answer.end;
        from = other;
    }
    Tested {
        run,
        end: at,
        lack: from,
    }
}

/// The node of an IF or a CASE, and its arms.
#[cycle(stand)]
#[tactic(auto, using(crate::proofs::Rooms::room_rules))]
fn ask_tests(a: &Asking<'_>, arms: &[Arm], p: Spot, around: &Enclosing<'_>, next: usize) -> Tested
    requires { Room (numbers_in a.now)
        (after (here p) (after a_node (arms_size (laid_arms arms.now)))) }
    ensures run { result.run ≡ answer_run a.now (arms_parts (setting_in a.now) (laid_arms arms.now)
        (after (here p) a_node) (around_of around.now) next
        (form.node a.now.goto.now p.node)) }
    ensures end { here result.end ≡ after (here p) (after a_node (arms_size (laid_arms arms.now))) }
    ensures lack { result.lack ≡ l.lack (setting_in a.now) (laid_arms arms.now)
        (form.node a.now.goto.now p.node) }
{
    let first = node(a.goto, p.node);
    ask_arms(
        a,
        arms,
        after(p, spot_of(1, 0, 0, 0, 0)),
        around,
        next,
        first,
    )
}

/// The ELSE behind the arms.
#[cycle(stand)]
#[tactic(auto, using(crate::proofs::AnswerRules::answer_rules, crate::proofs::Rooms::room_rules))]
fn ask_else(
    a: &Asking<'_>,
    tested: Tested,
    body: &[Stmt],
    around: &Enclosing<'_>,
    next: usize,
) -> Answer
    requires { Room (numbers_in a.now)
        (after (here tested.end) (after a_node (row_size (laid_row body.now)))) }
    ensures run { result.run ≡ join tested.run (answer_run a.now
        (l.else_parts (setting_in a.now) (Some (laid_row body.now)) None (here tested.end)
        (around_of around.now) next tested.lack)) }
    ensures end { here result.end
        ≡ after (here tested.end) (after a_node (row_size (laid_row body.now))) }
{
    let q = tested.end;
    let to = first_block(a, body.len(), q.node + 1, next);
    let here = ask_same(a, tested.lack, node(a.goto, q.node));
    let begins = ask_same(a, tested.lack, to);
    let inside = ask_row(a, body, after(q, spot_of(1, 0, 0, 0, 0)), around, next);
    Answer {
        run: join(tested.run, join(here, join(begins, inside.run))),
        end: inside.end,
    }
}
