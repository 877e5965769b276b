//! The pieces of a body that lead to no further body.

ghost use Rattle.std.specs.Prelude.{◌≡◌, ◌+◌, ◌≤◌, ℕ, IfOk, List, Some, Option, length};
ghost use Rattle.away_trees.specs.declared.queries.Expr.{Expr};
ghost use Rattle.call_forms.specs.Bodies as bodies;
ghost use Rattle.cte_check.specs.Walks as spec;
ghost use Rattle.cte_check.specs.Walks.{GivenOf, Sound, StepRead, GoesSoundly, BodyRead};
ghost use Rattle.cte_reads.specs.References.{founds};

use crate::body::{Given, Step, Walk};
use crate::labels::{label_of, params_of, places_of, type_of_name};
use away_values::{Class, NoMemory};
use block_forms::Term;
use call_forms::Call;
use cte_reads::{Ref, Scope, call_row, close, fault_row, find_all, term, to_list, value_row};
use sqlite_items::Items;
use std::alloc::Global;

/// The item of a block's assignment, after which its name stands for it.
pub(crate) fn assign<'a>(
    alloc: Global,
    g: &Given<'a>,
    w: Walk<'a>,
    n: u32,
    t: &Term,
) -> Result<Walk<'a>, NoMemory>
    requires sound { Sound g.now w }
    requires fresh { spec.Fresh w }
    requires room { w.items + w.fuel ≤ length g.now.blocks.now }
    ensures sound { IfOk result (λ next. Sound g.now next) }
    ensures fuel { IfOk result (λ next. next.fuel ≡ w.entry.fuel) }
    ensures depth { IfOk result (λ next. next.depth ≡ w.entry.depth) }
    ensures read { IfOk result (λ next. (table : List Expr) → GivenOf table g.now
        → (x : bodies.Body) (to : Option ℕ)
        → BodyRead table g.now next x to
        → BodyRead table g.now w.entry (bodies.sets n t.now x) to) }
{
    let ty = type_of_name(g.slots, g.names, n);
    let at = term(alloc, g.events, w.at, g.entries, &w.scope, t, ty, w.depth)?;
    let here = Ref {
        from: w.depth + 1,
        item: w.items,
        column: 0,
    };
    Ok(Walk {
        block: w.block,
        at,
        items: w.items + 1,
        depth: w.depth,
        fuel: w.fuel,
        scope: Scope {
            set: Some((n, here)),
            names: w.scope.names,
            refs: w.scope.refs,
        },
    })
}

/// A call of a label is a row; a call of another block goes on with its names.
pub(crate) fn go<'a>(
    alloc: Global,
    g: &Given<'a>,
    w: Walk<'a>,
    call: &Call,
) -> Result<Step<'a>, NoMemory>
    requires { Sound g.now w }
    ensures sound { IfOk result (λ s. GoesSoundly g.now w.entry.fuel s) }
    ensures read { IfOk result (λ s. (table : List Expr) → GivenOf table g.now
        → StepRead table g.now w.entry (bodies.goes (spec.anf_of g.now) g.now.tail.now
        (spec.further_blocks g.now w.entry) call.now) s) }
{
    let Some(refs) = find_all(alloc, &w.scope, call.args.as_slice())? else {
        return Ok(Step::Ends(None));
    };
    match label_of(g, call.target) {
        None => Ok(enter_block(g, w, call, refs)),
        Some(label) => Ok(Step::Ends(call_end(g, &w, label, call, refs.as_slice()))),
    }
}

/// A block that is no label: its parameters stand for what is passed.
fn enter_block<'a>(g: &Given<'a>, w: Walk<'a>, call: &Call, refs: Items<Ref>) -> Step<'a>
    requires sound { Sound g.now w }
    requires found { founds w.scope call.now.args ≡ Some refs }
    ensures sound { GoesSoundly g.now w.entry.fuel result }
    ensures read { (table : List Expr)
        → StepRead table g.now w.entry (spec.entered_body g.now w.entry call.now) result }
{
    let params = params_of(g, call.target);
    if call.args.len() != params.len() {
        return Step::Ends(None);
    }
    Step::Goes(Walk {
        block: call.target,
        at: w.at,
        items: w.items,
        depth: w.depth,
        fuel: w.fuel,
        scope: Scope {
            set: None,
            names: params,
            refs,
        },
    })
}

/// A label that is called: the row of what is passed.
fn call_end(g: &Given<'_>, w: &Walk<'_>, label: usize, call: &Call, refs: &[Ref]) -> Option<usize>
    requires sound { Sound g.now w.now }
    requires found { founds w.now.scope call.now.args ≡ Some refs.now }
    ensures { (table : List Expr)
        → BodyRead table g.now w.now (spec.called_body g.now label call.now) result }
{
    let places = places_of(g, label);
    if call.args.len() != places.len() {
        return None;
    }
    let at = to_list(g.events, w.at);
    let columns = g.tail.columns.as_slice();
    close(
        g.events,
        call_row(
            g.events, at, label, places, refs, columns, g.result, w.depth,
        ),
    )
}

/// The value's item, and its row.
pub(crate) fn return_end(
    alloc: Global,
    g: &Given<'_>,
    w: &Walk<'_>,
    t: &Term,
) -> Result<Option<usize>, NoMemory>
    requires { Sound g.now w.now }
    ensures { IfOk result (λ to. (table : List Expr) → GivenOf table g.now
        → BodyRead table g.now w.now (bodies.returns t.now) to) }
{
    let at = term(
        alloc, g.events, w.at, g.entries, &w.scope, t, g.result, w.depth,
    )?;
    let at = to_list(g.events, at);
    let at = value_row(g.events, at, w.items, g.tail.columns.as_slice());
    Ok(close(g.events, at))
}

/// The row of a fault.
pub(crate) fn fail_end(g: &Given<'_>, w: &Walk<'_>, class: Class) -> Option<usize>
    ensures { (table : List Expr) → BodyRead table g.now w.now (bodies.fails class) result }
{
    let at = to_list(g.events, w.at);
    let at = fault_row(g.events, at, class, g.tail.columns.as_slice(), g.result);
    close(g.events, at)
}
