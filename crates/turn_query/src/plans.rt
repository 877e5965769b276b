//! The plan of a body: steps, each a column more behind those of the row, and the cells of the next row, which see all of them.

ghost use Rattle.std.specs.Prelude.{◌≡◌, ◌∷◌, ◌+◌, [], false, length, IfOk};
ghost use Rattle.call_forms.specs.References.{is_not_true};
ghost use Rattle.call_forms.specs.Scopes.{paired};
ghost use Rattle.turn_bodies.specs.Trees.{as_body};
ghost use Rattle.turn_template.specs.TurnTemplate as turn;
ghost use Rattle.turn_query.specs.Filled as spec;
ghost use Rattle.turn_query.specs.Plans.{as_plan, as_settled};
ghost use Rattle.turn_terms.specs.References.{on_row, scope_of};
ghost use Rattle.turn_terms.specs.Sameness.{same};

use crate::cells::choices;
use crate::conditions::{and_no, and_yes, gated};
use crate::waiting::waiting;
use crate::waits::may_wait;
use away_core::Copied;
use away_trees::Expr;
use away_values::{NoMemory, Ty};
use block_forms::Term;
use cte_parts::sum;
use sqlite_items::{Boxed, Items};
use std::alloc::Global;
use turn_bodies::Body;
use turn_terms::{
    Reference, Writer, column_reference, entered, is_chosen, term_reference, type_of, with_name,
    written,
};

/// Each step is a column more behind those of the row; the cells are the next row.
#[derive(Drop)]
pub(crate) struct Plan {
    pub steps: Items<Expr>,
    pub cells: Items<Expr>,
}

/// What stands for a term, with slots for the columns of the row, and the step that it takes, if any.
#[derive(Drop)]
pub(crate) struct Settling {
    pub value: Boxed<Expr>,
    pub steps: Items<Expr>,
}

/// A step for a term under the condition of the way here.
fn one_step(alloc: Global, guard: &Expr, value: &Expr) -> Result<Items<Expr>, NoMemory>
    ensures { IfOk result (λ steps. steps
        ≡ turn.gated guard.now (on_row value.now 0) ∷ []) }
{
    let mut steps = Items::new(alloc);
    let value = written(alloc, value)?;
    steps.push(gated(alloc, guard, value)?)?;
    Ok(steps)
}

/// A term that takes a step: a column more, where so many columns stand in the row.
fn stepped(alloc: Global, m: usize, guard: &Expr, value: &Expr) -> Result<Settling, NoMemory>
    ensures { IfOk result (λ s. as_settled s
        ≡ turn.settle false m guard.now (on_row value.now)) }
{
    let steps = one_step(alloc, guard, value)?;
    let value = Boxed::new(alloc, column_reference(m)?)?;
    Ok(Settling { value, steps })
}

/// A term without a step, or a column more, where so many columns stand in the row, and the guard is the condition of the way here.
fn settle(
    alloc: Global,
    w: &Writer<'_>,
    m: usize,
    guard: &Expr,
    refs: &[Reference],
    ty: Ty,
    term: &Term,
) -> Result<Settling, NoMemory>
    ensures { IfOk result (λ s. as_settled s
        ≡ spec.settled w.now m guard.now (scope_of refs.now) ty term.now) }
{
    let value = Boxed::new(alloc, term_reference(alloc, w, refs, ty, term)?)?;
    if !is_chosen(w.table, term) {
        return stepped(alloc, m, guard, value.get());
    }
    let steps = Items::new(alloc);
    Ok(Settling { value, steps })
}

/// The cells without a step.
fn alone(alloc: Global, cells: Items<Expr>) -> Plan
    ensures { as_plan result ≡ turn.cells_alone cells }
{
    let steps = Items::new(alloc);
    Plan { steps, cells }
}

/// The plan behind what a term takes.
fn behind(settling: Settling, plan: Plan) -> Result<Plan, NoMemory>
    ensures { IfOk result (λ p. as_plan p ≡ turn.behind (as_settled settling) (as_plan plan)) }
{
    let mut steps = settling.steps;
    let cells = plan.cells;
    steps.append(plan.steps)?;
    Ok(Plan { steps, cells })
}

/// The steps of both plans, and each cell as the condition says.
pub(crate) fn chosen(alloc: Global, condition: &Expr, yes: Plan, no: Plan) -> Result<Plan, NoMemory>
    ensures { IfOk result (λ p. as_plan p
        ≡ turn.chosen same condition.now (as_plan yes) (as_plan no)) }
{
    let cells = choices(alloc, condition, yes.cells.as_slice(), no.cells.as_slice())?;
    let mut steps = yes.steps;
    steps.append(no.steps)?;
    Ok(Plan { steps, cells })
}

/// The cells of a body, with each term in its place, and no step.
fn waiting_plan(
    body: &Body,
    alloc: Global,
    w: &Writer<'_>,
    refs: &[Reference],
) -> Result<Plan, NoMemory>
    ensures { IfOk result (λ p. as_plan p
        ≡ turn.cells_alone (spec.waiting w.now (scope_of refs.now) (as_body body.now))) }
{
    Ok(alone(alloc, waiting(body, alloc, w, refs)?))
}

/// The name stands for a term's value or its step from now on.
fn settled_name(
    alloc: Global,
    refs: &[Reference],
    name: u32,
    settling: &Settling,
) -> Result<Items<Reference>, NoMemory>
    ensures { IfOk result (λ list. scope_of list
        ≡ turn.names name (as_settled settling.now).ref (scope_of refs.now)) }
{
    with_name(alloc, refs, name, settling.value.get().copy(alloc)?)
}

/// The condition of a test, over the row.
fn condition_of(alloc: Global, settling: &Settling) -> Result<Boxed<Expr>, NoMemory>
    ensures { IfOk result (λ e. e ≡ (as_settled settling.now).ref 0) }
{
    Ok(Boxed::new(alloc, written(alloc, settling.value.get())?)?)
}

/// The condition of the way here, and that a test is true.
fn guard_of_yes(alloc: Global, guard: &Expr, settling: &Settling) -> Result<Boxed<Expr>, NoMemory>
    ensures { IfOk result (λ e. e ≡ turn.both guard.now ((as_settled settling.now).ref 0)) }
{
    let condition = condition_of(alloc, settling)?;
    Ok(Boxed::new(alloc, and_yes(alloc, guard, condition.get())?)?)
}

/// The condition of the way here, and that a test isn't true.
fn guard_of_no(alloc: Global, guard: &Expr, settling: &Settling) -> Result<Boxed<Expr>, NoMemory>
    ensures { IfOk result (λ e. e
        ≡ turn.both guard.now (is_not_true ((as_settled settling.now).ref 0))) }
{
    let condition = condition_of(alloc, settling)?;
    Ok(Boxed::new(alloc, and_no(alloc, guard, condition.get())?)?)
}

/// The plans of both ways of a test, behind what the test takes.
fn joined(alloc: Global, settling: Settling, yes: Plan, no: Plan) -> Result<Plan, NoMemory>
    ensures { IfOk result (λ p. as_plan p ≡ turn.behind (as_settled settling)
        (turn.chosen same ((as_settled settling).ref 0) (as_plan yes) (as_plan no))) }
{
    let condition = condition_of(alloc, &settling)?;
    let plan = chosen(alloc, condition.get(), yes, no)?;
    behind(settling, plan)
}

/// The plan of what follows an assignment.
#[cycle(plans)]
fn plan_of_named(
    rest: &Boxed<Body>,
    alloc: Global,
    w: &Writer<'_>,
    m: usize,
    guard: &Expr,
    refs: &[Reference],
    name: u32,
    settling: &Settling,
) -> Result<Plan, NoMemory>
    ensures { IfOk result (λ p. as_plan p
        ≡ spec.plan w.now (length (as_settled settling.now).steps + m) guard.now
        (turn.names name (as_settled settling.now).ref (scope_of refs.now)) (as_body rest.now)) }
{
    let next = sum(settling.steps.len(), m)?;
    let scope = settled_name(alloc, refs, name, settling)?;
    plan_of(rest.get(), alloc, w, next, guard, scope.as_slice())
}

/// The plan of a block that is entered.
#[cycle(plans)]
fn plan_of_entered(
    rest: &Boxed<Body>,
    alloc: Global,
    w: &Writer<'_>,
    m: usize,
    guard: &Expr,
    refs: &[Reference],
    params: &[u32],
    args: &[u32],
) -> Result<Plan, NoMemory>
    ensures { IfOk result (λ p. as_plan p ≡ spec.plan w.now m guard.now
        (paired (scope_of refs.now) turn.no_ref params.now args.now) (as_body rest.now)) }
{
    let scope = entered(alloc, refs, params, args)?;
    plan_of(rest.get(), alloc, w, m, guard, scope.as_slice())
}

/// The plan where a test is true.
#[cycle(plans)]
fn plan_of_yes(
    yes: &Boxed<Body>,
    alloc: Global,
    w: &Writer<'_>,
    m: usize,
    guard: &Expr,
    refs: &[Reference],
    settling: &Settling,
) -> Result<Plan, NoMemory>
    ensures { IfOk result (λ p. as_plan p
        ≡ spec.plan w.now (length (as_settled settling.now).steps + m)
        (turn.both guard.now ((as_settled settling.now).ref 0)) (scope_of refs.now)
        (as_body yes.now)) }
{
    let next = sum(settling.steps.len(), m)?;
    let guard = guard_of_yes(alloc, guard, settling)?;
    plan_of(yes.get(), alloc, w, next, guard.get(), refs)
}

/// The plan where a test isn't true, behind so many steps of the other way.
#[cycle(plans)]
fn plan_of_no(
    no: &Boxed<Body>,
    alloc: Global,
    w: &Writer<'_>,
    m: usize,
    guard: &Expr,
    refs: &[Reference],
    settling: &Settling,
    steps: usize,
) -> Result<Plan, NoMemory>
    ensures { IfOk result (λ p. as_plan p
        ≡ spec.plan w.now (steps + (length (as_settled settling.now).steps + m))
        (turn.both guard.now (is_not_true ((as_settled settling.now).ref 0)))
        (scope_of refs.now) (as_body no.now)) }
{
    let next = sum(steps, sum(settling.steps.len(), m)?)?;
    let guard = guard_of_no(alloc, guard, settling)?;
    plan_of(no.get(), alloc, w, next, guard.get(), refs)
}

/// The plan of a body, where so many columns stand in the row, the guard is the condition of the way here, and names stand for these expressions.
#[cycle(plans)]
pub(crate) fn plan_of(
    body: &Body,
    alloc: Global,
    w: &Writer<'_>,
    m: usize,
    guard: &Expr,
    refs: &[Reference],
) -> Result<Plan, NoMemory>
    ensures { IfOk result (λ p. as_plan p
        ≡ spec.plan w.now m guard.now (scope_of refs.now) (as_body body.now)) }
{
    match body {
        Body::Sets(name, term, rest) => {
            if may_wait(body, alloc, w, &[])? {
                return waiting_plan(body, alloc, w, refs);
            }
            let settling = settle(alloc, w, m, guard, refs, type_of(w, *name), term)?;
            let plan = plan_of_named(rest, alloc, w, m, guard, refs, *name, &settling)?;
            behind(settling, plan)
        }
        Body::Enters(params, args, rest) => {
            let params = params.as_slice();
            let args = args.as_slice();
            plan_of_entered(rest, alloc, w, m, guard, refs, params, args)
        }
        Body::Picks(term, yes, no) => {
            if may_wait(body, alloc, w, &[])? {
                return waiting_plan(body, alloc, w, refs);
            }
            let settling = settle(alloc, w, m, guard, refs, Ty::Boolean, term)?;
            let first = plan_of_yes(yes, alloc, w, m, guard, refs, &settling)?;
            let steps = first.steps.len();
            let second = plan_of_no(no, alloc, w, m, guard, refs, &settling, steps)?;
            joined(alloc, settling, first, second)
        }
        Body::Returns(_) => waiting_plan(body, alloc, w, refs),
        Body::Fails(_) => waiting_plan(body, alloc, w, refs),
        Body::Calls(_, _, _) => waiting_plan(body, alloc, w, refs),
        Body::Endless => waiting_plan(body, alloc, w, refs),
    }
}
