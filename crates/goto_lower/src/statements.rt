//! The blocks of statements.

ghost use Rattle.std.specs.Prelude.{◌≡◌, ◌+◌, IfOk, OnOk, Some, None, length};
ghost use Rattle.plsql_meaning.specs.Outcomes.{case_not_found};
ghost use Rattle.goto_lower.specs.Building as spec;
ghost use Rattle.goto_lower.specs.Drafts.{statement_in, row_in, arms_in, emitted, emitted_row, emitted_arms, begun, tested, inside};
ghost use Rattle.block_forms.specs.Laid.{a_node};
ghost use Rattle.goto_lower.specs.Enclosings.{frames_of};

use crate::counted::{Bounds, head_at, push_count};
use crate::counts::{arms_many, row_many, statement_many};
use crate::draft::Draft;
use crate::enclosing::{Enclosing, again_to, exit_to};
use crate::own_blocks::{
    first_of, following, push_assign, push_head, push_jump, push_leave, push_raise, push_return,
    push_start, push_test,
};
use crate::setting::Setting;
use crate::shapes::fails;
use crate::sums::{place, sum};
use crate::targets::{Into, push_into};
use away_trees::{Arm, LoopKind, Stmt};
use away_values::{Name, NoMemory, sqlstate};
use std::alloc::Global;

/// The number of the block behind the body.
pub(crate) const FINISH: u32 = 1;

/// What stands around a statement, and the block that follows it.
#[derive(Clone, Copy)]
pub(crate) struct Flow<'a> {
    pub(crate) around: &'a Enclosing<'a>,
    pub(crate) next: u32,
}

/// Where an ELSE begins behind arms that are still to come.
fn else_first(
    setting: &Setting<'_>,
    draft: &Draft,
    arms: &[Arm],
    body: &[Stmt],
    next: u32,
) -> Result<u32, NoMemory>
    ensures { IfOk result (λ k. k ≡ spec.first_from (spec.row_many (row_in setting.now body.now))
        (length draft.now.blocks + spec.arms_many (arms_in setting.now arms.now)) next) }
{
    let from = sum(draft.here()?, arms_many(setting, arms)?)?;
    let inside = row_many(setting, body)?;
    Ok(first_of(inside as usize, from, next))
}

/// The blocks of a statement.
#[cycle(build)]
#[tactic(auto, using(crate::proofs::BuildingRules::building_rules))]
pub(crate) fn push_statement(
    alloc: Global,
    setting: &Setting<'_>,
    draft: &mut Draft,
    s: &Stmt,
    flow: &Flow<'_>,
) -> Result<(), NoMemory>
    ensures { OnOk result (draft.new ≡ emitted (statement_in setting.now s.now)
        (frames_of flow.now.around.now) flow.now.next draft.old) }
{
    match s {
        Stmt::Block {
            label,
            decls,
            body,
            ..
        } => {
            let inside = row_many(setting, body.as_slice())?;
            push_start(alloc, setting, draft, decls.as_slice(), inside, flow.next)?;
            let around = Enclosing::Block(label.as_ref(), flow.next, flow.around);
            let flow = Flow {
                around: &around,
                next: flow.next,
            };
            push_row(alloc, setting, draft, body.as_slice(), &flow)
        }
        Stmt::Assign(_, target, e) => match target {
            None => push_jump(draft, place(1, 1, 0, 0, 0), flow.next),
            Some(slot) => push_assign(alloc, setting, draft, *slot, e, flow.next),
        },
        Stmt::If(arms, other) => match other {
            None => push_tests(alloc, setting, draft, arms.as_slice(), flow, flow.next),
            Some(body) => {
                let first = else_first(
                    setting,
                    draft,
                    arms.as_slice(),
                    body.as_slice(),
                    flow.next,
                )?;
                push_tests(alloc, setting, draft, arms.as_slice(), flow, first)?;
                push_other(alloc, setting, draft, body.as_slice(), flow, first)
            }
        },
        Stmt::Cases(arms, other) => match other {
            None => push_cases(alloc, setting, draft, arms.as_slice(), flow),
            Some(body) => {
                let first = else_first(
                    setting,
                    draft,
                    arms.as_slice(),
                    body.as_slice(),
                    flow.next,
                )?;
                push_tests(alloc, setting, draft, arms.as_slice(), flow, first)?;
                push_other(alloc, setting, draft, body.as_slice(), flow, first)
            }
        },
        Stmt::Loop {
            label,
            kind,
            body,
            ..
        } => push_loop(alloc, setting, draft, label, kind, body.as_slice(), flow),
        Stmt::Exit(label, when) => {
            let to = exit_to(flow.around, label, FINISH);
            push_leave(alloc, draft, when, to, flow.next)
        }
        Stmt::Continue(label, when) => {
            let to = again_to(flow.around, label, FINISH);
            push_leave(alloc, draft, when, to, flow.next)
        }
        Stmt::Return(e) => push_return(alloc, draft, e),
        Stmt::Raise(raised) => push_raise(alloc, draft, raised),
        Stmt::Into {
            strict,
            targets,
            query,
        } => {
            let into = Into {
                strict: *strict,
                targets: targets.as_slice(),
                query,
            };
            push_into(alloc, setting, draft, &into, flow.next)
        }
        Stmt::Nothing => push_jump(draft, place(1, 0, 0, 0, 0), flow.next),
    }
}

#[cycle(build)]
#[tactic(auto, using(crate::proofs::BuildingRules::building_rules))]
fn push_row(
    alloc: Global,
    setting: &Setting<'_>,
    draft: &mut Draft,
    body: &[Stmt],
    flow: &Flow<'_>,
) -> Result<(), NoMemory>
    ensures { OnOk result (draft.new ≡ emitted_row (row_in setting.now body.now)
        (frames_of flow.now.around.now) flow.now.next draft.old) }
{
    let many = row_many(setting, body)?;
    let end = sum(draft.here()?, many)?;
    for i in 0..body.len() {
        let s = &body[i];
        let behind = sum(draft.here()?, statement_many(setting, s)?)?;
        let next = following(behind, end, flow.next);
        let then = Flow {
            around: flow.around,
            next,
        };
        push_statement(alloc, setting, draft, s, &then)?;
    }
    Ok(())
}

/// Arms, which lead to `lack` where none is taken.
#[cycle(build)]
#[tactic(auto, using(crate::proofs::BuildingRules::building_rules))]
fn push_arms(
    alloc: Global,
    setting: &Setting<'_>,
    draft: &mut Draft,
    arms: &[Arm],
    flow: &Flow<'_>,
    lack: u32,
) -> Result<(), NoMemory>
    ensures { OnOk result (draft.new ≡ emitted_arms (arms_in setting.now arms.now)
        (frames_of flow.now.around.now) flow.now.next lack draft.old) }
{
    for i in 0..arms.len() {
        let arm = &arms[i];
        let inside = row_many(setting, arm.body.as_slice())?;
        let start = sum(draft.here()?, 1)?;
        let behind = sum(start, inside)?;
        let other = first_of(arms.len() - (i + 1), behind, lack);
        let first = first_of(inside as usize, start, flow.next);
        push_test(alloc, draft, &arm.test, first, other)?;
        push_row(alloc, setting, draft, arm.body.as_slice(), flow)?;
    }
    Ok(())
}

/// The node of an IF or a CASE, and its arms.
#[cycle(build)]
#[tactic(auto, using(crate::proofs::BuildingRules::building_rules))]
fn push_tests(
    alloc: Global,
    setting: &Setting<'_>,
    draft: &mut Draft,
    arms: &[Arm],
    flow: &Flow<'_>,
    lack: u32,
) -> Result<(), NoMemory>
    ensures { OnOk result (draft.new ≡ tested (arms_in setting.now arms.now)
        (frames_of flow.now.around.now) flow.now.next lack draft.old) }
{
    let first = first_of(arms.len(), draft.here()?, lack);
    draft.begin(place(1, 0, 0, 0, 0), first)?;
    push_arms(alloc, setting, draft, arms, flow, lack)
}

/// The ELSE of an IF or a CASE, which begins at `first`.
#[cycle(build)]
#[tactic(auto, using(crate::proofs::BuildingRules::building_rules))]
fn push_other(
    alloc: Global,
    setting: &Setting<'_>,
    draft: &mut Draft,
    body: &[Stmt],
    flow: &Flow<'_>,
    first: u32,
) -> Result<(), NoMemory>
    ensures { OnOk result (draft.new ≡ emitted_row (row_in setting.now body.now)
        (frames_of flow.now.around.now) flow.now.next (begun a_node first draft.old)) }
{
    draft.begin(place(1, 0, 0, 0, 0), first)?;
    push_row(alloc, setting, draft, body, flow)
}

/// A CASE without ELSE.
#[cycle(build)]
#[tactic(auto, using(crate::proofs::BuildingRules::building_rules))]
fn push_cases(
    alloc: Global,
    setting: &Setting<'_>,
    draft: &mut Draft,
    arms: &[Arm],
    flow: &Flow<'_>,
) -> Result<(), NoMemory>
    ensures { OnOk result (draft.new
        ≡ emitted (spec.branched (arms_in setting.now arms.now) None (Some case_not_found))
        (frames_of flow.now.around.now) flow.now.next draft.old) }
{
    let lack = sum(draft.here()?, arms_many(setting, arms)?)?;
    push_tests(alloc, setting, draft, arms, flow, lack)?;
    draft.push(fails(sqlstate::CASE_NOT_FOUND))
}

/// The statements of a loop's body, whose next turn begins at `again`.
#[cycle(build)]
#[tactic(auto, using(crate::proofs::BuildingRules::building_rules))]
fn push_inside(
    alloc: Global,
    setting: &Setting<'_>,
    draft: &mut Draft,
    label: &Option<Name>,
    body: &[Stmt],
    flow: &Flow<'_>,
    again: u32,
) -> Result<(), NoMemory>
    ensures { OnOk result (draft.new ≡ inside (row_in setting.now body.now) label.now
        (frames_of flow.now.around.now) flow.now.next again draft.old) }
{
    let around = Enclosing::Loop(label.as_ref(), flow.next, again, flow.around);
    let flow = Flow {
        around: &around,
        next: again,
    };
    push_row(alloc, setting, draft, body, &flow)
}

#[cycle(build)]
#[tactic(auto, using(crate::proofs::BuildingRules::building_rules))]
fn push_loop(
    alloc: Global,
    setting: &Setting<'_>,
    draft: &mut Draft,
    label: &Option<Name>,
    kind: &LoopKind,
    body: &[Stmt],
    flow: &Flow<'_>,
) -> Result<(), NoMemory>
    ensures { OnOk result (draft.new ≡ emitted
        (spec.loop_built setting.now.numbers label.now kind.now (row_in setting.now body.now))
        (frames_of flow.now.around.now) flow.now.next draft.old) }
{
    let many = row_many(setting, body)?;
    match kind {
        LoopKind::Plain => {
            let again = push_head(alloc, draft, None, many, flow.next)?;
            push_inside(alloc, setting, draft, label, body, flow, again)
        }
        LoopKind::While(test) => {
            let again = push_head(alloc, draft, Some(test), many, flow.next)?;
            push_inside(alloc, setting, draft, label, body, flow, again)
        }
        LoopKind::Count {
            reverse,
            first,
            last,
            step,
            ..
        } => {
            let head = head_at(step, draft.here()?)?;
            let again = sum(sum(head, 1)?, 1)?;
            let begin = first_of(many as usize, sum(head, 4)?, again);
            let bounds = Bounds { first, last, step };
            push_count(
                alloc,
                setting.numbers,
                draft,
                *reverse,
                &bounds,
                begin,
                flow.next,
            )?;
            push_inside(alloc, setting, draft, label, body, flow, again)
        }
    }
}
