//! The first row of a call.

ghost use Rattle.std.specs.Prelude.{◌≡◌, ◌++◌, ◌∷◌, [], suc, map, pos, true, length, IfOk, OnOk};
ghost use Rattle.away_trees.specs.declared.queries.Expr.TheVariants as expr;
ghost use Rattle.away_values.specs.declared.types.Ty.TheVariants as types;
ghost use Rattle.sql_meaning.specs.Trees as tree;
ghost use Rattle.call_forms.specs.Scopes.{paired};
ghost use Rattle.call_forms.specs.Template.{argument_cells};
ghost use Rattle.call_forms.specs.TailRuns as runs;
ghost use Rattle.call_forms.specs.Forms as forms;
ghost use Rattle.turn_terms.specs.Writing.{types_in};
ghost use Rattle.turn_query.specs.FilledTurns as spec;

use crate::cells::passed;
use away_trees::{Expr, Item, Select};
use away_values::{NoMemory, Ty};
use call_forms::{Anf, Tail};
use cte_parts::{add, after, null, number, only, select, small, truth};
use sqlite_items::{Boxed, Items};
use std::alloc::Global;
use turn_bodies::{params_of, place_of, places_at};
use turn_terms::{Writer, type_of};

/// The place of the entry's label, and one that no label has where the entry is none.
pub(crate) fn entry_place(tail: &Tail, entry: u32) -> usize
    ensures { result ≡ runs.label_or (length tail.now.labels) (forms.label_of tail.now entry) }
{
    match place_of(tail.labels.as_slice(), entry) {
        Some(label) => label,
        None => tail.labels.len(),
    }
}

/// A parameter of the query, by its name.
fn parameter(w: &Writer<'_>, name: u32) -> Result<Expr, NoMemory>
    ensures { IfOk result (λ e. e ≡ expr.Param (suc name) (types_in w.now name)) }
{
    let number = small(after(name as usize)?)?;
    Ok(Expr::Param(number, type_of(w, name)))
}

/// The parameter of the query whose name stands beside a place, or NULL of the column's type.
fn argument(
    alloc: Global,
    w: &Writer<'_>,
    places: &[u32],
    params: &[u32],
    place: u32,
    ty: Ty,
) -> Result<Expr, NoMemory>
    ensures { IfOk result (λ e. e ≡ paired (λ p. expr.Param (suc p) (types_in w.now p))
        (tree.null_of ty) places.now params.now place) }
{
    match passed(places, params, place) {
        None => null(alloc, ty),
        Some(name) => parameter(w, name),
    }
}

/// Adds the arguments in the places of the entry's parameters.
fn add_arguments(
    alloc: Global,
    w: &Writer<'_>,
    list: &mut Items<Item>,
    places: &[u32],
    params: &[u32],
    columns: &[Ty],
) -> Result<(), NoMemory>
    ensures { OnOk result (list.new ≡ list.old ++ map tree.item
        (argument_cells (types_in w.now) 0 places.now params.now columns.now)) }
{
    for i in 0..columns.len() {
        add(
            list,
            argument(alloc, w, places, params, small(i)?, columns[i])?,
        )?;
    }
    Ok(())
}

/// The call goes on, at the label of this number.
fn going_at(alloc: Global, label: usize) -> Result<Items<Item>, NoMemory>
    ensures { IfOk result (λ list. list
        ≡ map tree.item (tree.truth true ∷ tree.number (pos (suc label)) ∷ [])) }
{
    let mut list = only(alloc, truth(alloc, true)?)?;
    add(&mut list, number(alloc, after(label)?)?)?;
    Ok(list)
}

/// Neither a result nor a fault.
fn add_no_result(alloc: Global, list: &mut Items<Item>, ty: Ty) -> Result<(), NoMemory>
    ensures { OnOk result (list.new ≡ list.old
        ++ map tree.item (tree.null_of ty ∷ tree.null_of types.Text ∷ [])) }
{
    add(list, null(alloc, ty)?)?;
    add(list, null(alloc, Ty::Text)?)?;
    Ok(())
}

/// The cells of the first row: the call goes on, at the entry's label, with the arguments in the places of its parameters, and without a result.
fn start_cells(
    alloc: Global,
    w: &Writer<'_>,
    anf: &Anf,
    tail: &Tail,
    entry: u32,
) -> Result<Items<Item>, NoMemory>
    ensures { IfOk result (λ list. list
        ≡ map tree.item (spec.start_cells w.now anf.now tail.now entry)) }
{
    let label = entry_place(tail, entry);
    let params = params_of(anf, entry as usize);
    let mut list = going_at(alloc, label)?;
    let columns = tail.columns.as_slice();
    add_arguments(alloc, w, &mut list, places_at(tail, label), params, columns)?;
    add_no_result(alloc, &mut list, w.result)?;
    Ok(list)
}

/// The first row of a call.
pub(crate) fn start(
    alloc: Global,
    w: &Writer<'_>,
    anf: &Anf,
    tail: &Tail,
    entry: u32,
) -> Result<Boxed<Select>, NoMemory>
    ensures { IfOk result (λ s. s ≡ spec.start w.now anf.now tail.now entry) }
{
    let list = start_cells(alloc, w, anf, tail, entry)?;
    Ok(Boxed::new(alloc, select(alloc, list, Items::new(alloc), None))?)
}
