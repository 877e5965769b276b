//! The plans of labels: one turn.

ghost use Rattle.std.specs.Prelude.{◌≡◌, [], suc, get_or, slice_get, IfOk};
ghost use Rattle.call_forms.specs.Forms as forms;
ghost use Rattle.call_forms.specs.Scopes.{paired};
ghost use Rattle.turn_template.specs.TurnTemplate as turn;
ghost use Rattle.turn_query.specs.Filled as filled;
ghost use Rattle.turn_query.specs.FilledTurns as spec;
ghost use Rattle.turn_query.specs.Plans.{as_plan};
ghost use Rattle.turn_terms.specs.References.{scope_of};
ghost use Rattle.turn_terms.specs.Sameness.{same};
ghost use Rattle.turn_terms.specs.Writing.{place_in};

use crate::cells::{all_cells, width};
use crate::plans::{Plan, chosen, plan_of};
use away_trees::Expr;
use away_values::NoMemory;
use call_forms::{Anf, Tail};
use cte_parts::{after, col, equal, number, sum};
use sqlite_items::{Boxed, Items};
use std::alloc::Global;
use turn_bodies::{body_of, params_of, places_at};
use turn_terms::{Reference, Writer, on_columns};

/// The row has the label with this number. Where one alone is called, it goes on.
fn at_label(alloc: Global, w: &Writer<'_>, label: usize) -> Result<Expr, NoMemory>
    ensures { IfOk result (λ e. e ≡ filled.at_label w.now label) }
{
    if w.alone {
        return col(0, 0, 0);
    }
    let number = Boxed::new(alloc, number(alloc, label)?)?;
    equal(alloc, col(0, 0, 1)?, number.into_inner())
}

/// The row is at the label, counted from 0.
fn is_at(alloc: Global, w: &Writer<'_>, label: usize) -> Result<Boxed<Expr>, NoMemory>
    ensures { IfOk result (λ e. e ≡ filled.at_label w.now (suc label)) }
{
    Ok(Boxed::new(alloc, at_label(alloc, w, after(label)?)?)?)
}

/// Where the parameters of a label's block stand.
fn parameters_at(
    alloc: Global,
    w: &Writer<'_>,
    anf: &Anf,
    tail: &Tail,
    label: usize,
    block: u32,
) -> Result<Items<Reference>, NoMemory>
    ensures { IfOk result (λ list. scope_of list
        ≡ paired (place_in w.now) turn.no_ref
        (forms.params_of (slice_get anf.now.blocks block)) (get_or tail.now.places label [])) }
{
    let params = params_of(anf, block as usize);
    on_columns(alloc, w, params, places_at(tail, label))
}

/// The plan of a label, counted from 0, where so many columns stand in the row.
fn label_plan(
    alloc: Global,
    w: &Writer<'_>,
    anf: &Anf,
    tail: &Tail,
    m: usize,
    label: usize,
    block: u32,
) -> Result<Plan, NoMemory>
    ensures { IfOk result (λ p. as_plan p
        ≡ spec.label_plan w.now anf.now tail.now m label block) }
{
    let body = Boxed::new(alloc, body_of(alloc, anf, tail, block)?)?;
    let refs = parameters_at(alloc, w, anf, tail, label, block)?;
    let guard = is_at(alloc, w, label)?;
    plan_of(body.get(), alloc, w, m, guard.get(), refs.as_slice())
}

/// A row with no label stays as it is.
fn as_it_is(alloc: Global, w: &Writer<'_>) -> Result<Plan, NoMemory>
    ensures { IfOk result (λ p. as_plan p
        ≡ turn.cells_alone (turn.all_cells (filled.width w.now))) }
{
    let cells = all_cells(alloc, width(w)?)?;
    Ok(Plan {
        steps: Items::new(alloc),
        cells,
    })
}

/// The plan of a label where the row is at it, else another.
fn label_or(
    alloc: Global,
    w: &Writer<'_>,
    label: usize,
    plan: Plan,
    other: Plan,
) -> Result<Plan, NoMemory>
    ensures { IfOk result (λ p. as_plan p ≡ turn.chosen same (filled.at_label w.now (suc label))
        (as_plan plan) (as_plan other)) }
{
    let condition = is_at(alloc, w, label)?;
    chosen(alloc, condition.get(), plan, other)
}

/// The plans of labels from one on. A row with none of these labels stays as it is.
pub(crate) fn label_plans(
    alloc: Global,
    w: &Writer<'_>,
    anf: &Anf,
    tail: &Tail,
    m: usize,
    label: usize,
    labels: &[u32],
) -> Result<Plan, NoMemory>
    ensures { IfOk result (λ p. as_plan p
        ≡ spec.label_plans w.now anf.now tail.now m label labels.now) }
{
    match labels {
        [] => as_it_is(alloc, w),
        [block, more @ ..] => {
            let next = after(label)?;
            let first = label_plan(alloc, w, anf, tail, m, label, *block)?;
            let behind = sum(first.steps.len(), m)?;
            let others = label_plans(alloc, w, anf, tail, behind, next, more)?;
            label_or(alloc, w, label, first, others)
        }
    }
}

/// One turn by labels from one on.
pub(crate) fn turn_plan(
    alloc: Global,
    w: &Writer<'_>,
    anf: &Anf,
    tail: &Tail,
    label: usize,
    labels: &[u32],
) -> Result<Plan, NoMemory>
    ensures { IfOk result (λ p. as_plan p
        ≡ spec.turn_plan w.now anf.now tail.now label labels.now) }
{
    label_plans(alloc, w, anf, tail, width(w)?, label, labels)
}
