//! The cells of a body that are written alone, with each term in its place.

ghost use Rattle.std.specs.Prelude.{◌≡◌, IfOk};
ghost use Rattle.away_values.specs.declared.types.Ty.TheVariants as ty;
ghost use Rattle.call_forms.specs.Bodies.{sets, enters, returns};
ghost use Rattle.turn_bodies.specs.Trees.{as_body};
ghost use Rattle.turn_query.specs.Filled as spec;
ghost use Rattle.turn_template.specs.TurnTemplate as turn;
ghost use Rattle.turn_terms.specs.References.{scope_of};
ghost use Rattle.turn_terms.specs.Sameness.{same as same_as};
ghost use Rattle.turn_terms.specs.Writing.{types_in, term_in};

use crate::cells::{call_cells, choices, endless_cells, fault_cells, value_cells};
use away_trees::Expr;
use away_values::{NoMemory, Ty};
use block_forms::Term;
use sqlite_items::{Boxed, Items};
use std::alloc::Global;
use turn_bodies::Body;
use turn_terms::{Reference, Writer, entered, term_reference, term_value, type_of, with_name};

/// What names stand for behind an assignment.
fn scope_behind(
    alloc: Global,
    w: &Writer<'_>,
    refs: &[Reference],
    name: u32,
    term: &Term,
) -> Result<Items<Reference>, NoMemory>
    ensures { IfOk result (λ list. scope_of list ≡ turn.names name
        (term_in w.now (scope_of refs.now) (types_in w.now name) term.now) (scope_of refs.now)) }
{
    let value = term_reference(alloc, w, refs, type_of(w, name), term)?;
    with_name(alloc, refs, name, value)
}

/// Cell by cell what a test chooses.
fn picked(
    alloc: Global,
    w: &Writer<'_>,
    refs: &[Reference],
    term: &Term,
    yes: Items<Expr>,
    no: Items<Expr>,
) -> Result<Items<Expr>, NoMemory>
    ensures { IfOk result (λ list. list ≡ turn.choices same_as
        (term_in w.now (scope_of refs.now) ty.Boolean term.now 0) yes no) }
{
    let condition = Boxed::new(alloc, term_value(alloc, w, refs, Ty::Boolean, term)?)?;
    choices(alloc, condition.get(), yes.as_slice(), no.as_slice())
}

/// The cells of a term that is returned.
fn returned(
    alloc: Global,
    w: &Writer<'_>,
    refs: &[Reference],
    term: &Term,
) -> Result<Items<Expr>, NoMemory>
    ensures { IfOk result (λ list. list ≡ spec.waiting w.now (scope_of refs.now) (returns term.now)) }
{
    let value = term_value(alloc, w, refs, w.result, term)?;
    value_cells(alloc, w, value)
}

#[cycle(alone)]
fn sets_alone(
    rest: &Boxed<Body>,
    alloc: Global,
    w: &Writer<'_>,
    refs: &[Reference],
    name: u32,
    term: &Term,
) -> Result<Items<Expr>, NoMemory>
    ensures { IfOk result (λ list. list
        ≡ spec.waiting w.now (scope_of refs.now) (sets name term.now (as_body rest.now))) }
{
    let scope = scope_behind(alloc, w, refs, name, term)?;
    waiting(rest.get(), alloc, w, scope.as_slice())
}

#[cycle(alone)]
fn enters_alone(
    rest: &Boxed<Body>,
    alloc: Global,
    w: &Writer<'_>,
    refs: &[Reference],
    params: &[u32],
    args: &[u32],
) -> Result<Items<Expr>, NoMemory>
    ensures { IfOk result (λ list. list
        ≡ spec.waiting w.now (scope_of refs.now) (enters params.now args.now (as_body rest.now))) }
{
    let scope = entered(alloc, refs, params, args)?;
    waiting(rest.get(), alloc, w, scope.as_slice())
}

/// The cells of a body, with each term in its place.
#[cycle(alone)]
pub(crate) fn waiting(
    body: &Body,
    alloc: Global,
    w: &Writer<'_>,
    refs: &[Reference],
) -> Result<Items<Expr>, NoMemory>
    ensures { IfOk result (λ list. list
        ≡ spec.waiting w.now (scope_of refs.now) (as_body body.now)) }
{
    match body {
        Body::Sets(name, term, rest) => sets_alone(rest, alloc, w, refs, *name, term),
        Body::Enters(params, args, rest) => {
            enters_alone(rest, alloc, w, refs, params.as_slice(), args.as_slice())
        }
        Body::Picks(term, yes, no) => {
            let first = waiting(yes.get(), alloc, w, refs)?;
            let second = waiting(no.get(), alloc, w, refs)?;
            picked(alloc, w, refs, term, first, second)
        }
        Body::Returns(term) => returned(alloc, w, refs, term),
        Body::Fails(class) => fault_cells(alloc, w, *class),
        Body::Calls(label, places, args) => {
            call_cells(alloc, w, refs, *label, places.as_slice(), args.as_slice())
        }
        Body::Endless => endless_cells(alloc, w),
    }
}
