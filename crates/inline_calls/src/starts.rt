//! The first rows of the calls: one at each row of the select that has the calls.

ghost use Rattle.std.specs.Prelude.{◌≡◌, ◌++◌, IfOk, OnOk, map, length, get_or, slice_get, []};
ghost use Rattle.call_forms.specs.Forms as forms;
ghost use Rattle.call_forms.specs.TailRuns.{label_or};
ghost use Rattle.cte_template.specs.Places as places;
ghost use Rattle.inline_calls.specs.Tree as spec;
ghost use Rattle.inline_law.specs.Written as tree;
ghost use Rattle.sql_meaning.specs.Trees.{cast_to, item};

use crate::forms::{PartedSelect, copied};
use away_core::Copied;
use away_trees::{Expr, FromItem, Item, Select};
use away_values::{NoMemory, Ty};
use call_forms::{Anf, Tail};
use cte_parts::{add, after, null, number, only, select, small, truth};
use sqlite_items::{Boxed, Items};
use std::alloc::Global;

/// What the first rows are made of: the forms, the entry's block, the type of the result and those of the parameters.
#[derive(Clone, Copy)]
pub(crate) struct Starting<'a> {
    pub anf: &'a Anf,
    pub tail: &'a Tail,
    pub entry: u32,
    pub result: Ty,
    pub params: &'a [Ty],
}

fn place_of(labels: &[u32], block: u32) -> Option<usize>
    ensures { result ≡ forms.place_from 0 labels.now block }
{
    for i in 0..labels.len() {
        if labels[i] == block {
            return Some(i);
        }
    }
    None
}

/// The label of a block, counted from 0, and one that no label has where it is none.
fn label_of(tail: &Tail, block: u32) -> usize
    ensures { result ≡ label_or (length tail.now.labels) (forms.label_of tail.now block) }
{
    match place_of(tail.labels.as_slice(), block) {
        Some(label) => label,
        None => tail.labels.len(),
    }
}

fn params_of(anf: &Anf, block: u32) -> &[u32]
    ensures { result.now ≡ forms.params_of (slice_get anf.now.blocks block) }
{
    match anf.blocks.get(block as usize) {
        None => &[],
        Some(x) => x.params.as_slice(),
    }
}

/// The places of a label, counted from 0.
#[tactic(auto, using(crate::proofs::StartRules::places_rules))]
fn places_at(tail: &Tail, label: usize) -> &[u32]
    ensures { result.now ≡ get_or tail.now.places label [] }
{
    match tail.places.get(label) {
        None => &[],
        Some(places) => places.as_slice(),
    }
}

/// What stands beside the first key that is the number.
#[tactic(auto, using(crate::proofs::StartRules::beside_rules))]
fn beside(keys: &[u32], names: &[u32], number: u32) -> Option<u32>
    ensures { result ≡ places.beside keys.now names.now number }
{
    for i in 0..keys.len() {
        if i >= names.len() {
            return None;
        }
        if keys[i] == number {
            return Some(names[i]);
        }
    }
    None
}

fn cast(alloc: Global, e: &Expr, ty: Ty) -> Result<Expr, NoMemory>
    ensures { IfOk result (λ x. x ≡ cast_to ty e.now) }
{
    Ok(Expr::Cast(Boxed::new(alloc, e.copy(alloc)?)?, ty))
}

/// The arguments, each under a cast to its parameter's type.
fn cast_arguments(alloc: Global, types: &[Ty], es: &[Expr]) -> Result<Items<Expr>, NoMemory>
    ensures { IfOk result (λ xs. xs ≡ tree.cast_arguments types.now es.now) }
{
    let mut done = Items::new(alloc);
    let mut left = types;
    for e in es {
        let [ty, more @ ..] = left else {
            return Ok(done);
        };
        done.push(cast(alloc, e, *ty)?)?;
        left = more;
    }
    Ok(done)
}

/// The argument beside a column's place, or NULL of the column's type.
#[tactic(auto, using(crate::proofs::StartRules::argument_rules))]
fn cell(alloc: Global, es: &[Expr], ty: Ty, passed: Option<u32>) -> Result<Expr, NoMemory>
    ensures { IfOk result (λ x. x ≡ spec.cell es.now ty passed) }
{
    match passed {
        None => null(alloc, ty),
        Some(p) => match es.get(p as usize) {
            None => Ok(Expr::Null),
            Some(e) => e.copy(alloc),
        },
    }
}

/// Adds a cell for each column.
fn add_cells(
    alloc: Global,
    list: &mut Items<Item>,
    es: &[Expr],
    keys: &[u32],
    params: &[u32],
    columns: &[Ty],
) -> Result<(), NoMemory>
    ensures { OnOk result (list.new
        ≡ list.old ++ map item (spec.cells es.now 0 keys.now params.now columns.now)) }
{
    for i in 0..columns.len() {
        let passed = beside(keys, params, small(i)?);
        add(list, cell(alloc, es, columns[i], passed)?)?;
    }
    Ok(())
}

pub(crate) fn add_copies(alloc: Global, list: &mut Items<Item>, es: &[Expr]) -> Result<(), NoMemory>
    ensures { OnOk result (list.new ≡ list.old ++ map item es.now) }
{
    for e in es {
        add(list, e.copy(alloc)?)?;
    }
    Ok(())
}

/// The row of a call: it goes on, at the entry's label, with the call's number and the arguments, and without a result.
fn start_list(
    alloc: Global,
    w: &Starting<'_>,
    n: usize,
    es: &[Expr],
) -> Result<Items<Item>, NoMemory>
    ensures { IfOk result (λ list. list ≡ map item (tree.start_list w.now.params.now w.now.result
        w.now.anf.now w.now.tail.now w.now.entry n es.now)) }
{
    let label = label_of(w.tail, w.entry);
    let args = cast_arguments(alloc, w.params, es)?;
    let mut list = only(alloc, truth(alloc, true)?)?;
    add(&mut list, number(alloc, after(label)?)?)?;
    add(&mut list, number(alloc, n)?)?;
    add_copies(alloc, &mut list, args.as_slice())?;
    let params = params_of(w.anf, w.entry);
    let keys = places_at(w.tail, label);
    let columns = w.tail.columns.as_slice();
    add_cells(alloc, &mut list, args.as_slice(), keys, params, columns)?;
    add(&mut list, null(alloc, w.result)?)?;
    add(&mut list, null(alloc, Ty::Text)?)?;
    Ok(list)
}

fn copied_from(alloc: Global, from: &[FromItem]) -> Result<Items<FromItem>, NoMemory>
    ensures { IfOk result (λ list. list ≡ from.now) }
{
    let mut list = Items::new(alloc);
    for f in from {
        list.push(f.copy(alloc)?)?;
    }
    Ok(list)
}

/// The row of a call at each row of the select.
fn start_of_call(
    alloc: Global,
    w: &Starting<'_>,
    x: &Select,
    n: usize,
    es: &[Expr],
) -> Result<Select, NoMemory>
    ensures { IfOk result (λ s. s ≡ tree.start_of_call w.now.params.now w.now.result
        w.now.anf.now w.now.tail.now w.now.entry x.now n es.now) }
{
    let list = start_list(alloc, w, n, es)?;
    let from = copied_from(alloc, x.from.as_slice())?;
    let filter = copied(alloc, &x.filter)?;
    Ok(select(alloc, list, from, filter))
}

/// The rows of all calls.
pub(crate) fn starts_of_calls(
    alloc: Global,
    w: &Starting<'_>,
    c: &PartedSelect,
) -> Result<Items<Select>, NoMemory>
    ensures { IfOk result (λ all. all ≡ spec.starts w.now c.now.select 1 c.now.calls) }
{
    let mut all = Items::new(alloc);
    let calls = c.calls.as_slice();
    for i in 0..calls.len() {
        all.push(start_of_call(alloc, w, &c.select, after(i)?, calls[i].as_slice())?)?;
    }
    Ok(all)
}
