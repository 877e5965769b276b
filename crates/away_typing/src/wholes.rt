//! Whole queries whose names are resolved: their types, aggregates and parameters.

ghost use Rattle.std.specs.Prelude.{◌≡◌, IfOk};
ghost use Rattle.away_typing.specs.Wholes as spec;

use crate::kind::same;
use crate::parameters::params_of;
use crate::recursion::{over_tables, recursion_found};
use crate::shapes::shape_of;
use crate::types::union;
use crate::uses::query_used;
use away_names::note::{File, Note, breaks, joined};
use away_names::rule::Rule;
use away_trees::{Query, Schema};
use away_values::{NoMemory, Ty};
use sqlite_items::Items;
use std::alloc::Global;

/// The tables behind which the selects of a query stand, the recursive one last, and what was found in its terms.
#[derive(Drop)]
pub struct Recursion {
    pub tables: Items<Items<Ty>>,
    pub note: Note,
}

/// The least rule that a query breaks, its parameters, and the type of its first column.
#[derive(Drop)]
pub struct QueryVerdict {
    pub note: Note,
    pub params: Items<(u32, Ty)>,
    pub result: Ty,
}

#[tactic(auto, unfolding(crate::specs::Wholes::is_answer))]
fn is_answer(shape: &Option<Items<Ty>>) -> bool
    ensures { result ≡ spec.is_answer shape.now }
{
    match shape {
        None => false,
        Some(types) => match types.as_slice() {
            [_, second] => same(*second, Ty::Text),
            _ => false,
        },
    }
}

#[tactic(auto, unfolding(crate::specs::Wholes::first_type))]
fn first_type(shape: &Option<Items<Ty>>) -> Ty
    ensures { result ≡ spec.first_type shape.now }
{
    match shape {
        None => Ty::Text,
        Some(types) => match types.as_slice() {
            [first, ..] => *first,
            [] => Ty::Text,
        },
    }
}

fn answer_note(shape: &Option<Items<Ty>>) -> Note
    ensures { result ≡ spec.answer_note shape.now }
{
    joined(
        breaks(Rule::Types, shape.is_none()),
        breaks(Rule::Answer, !is_answer(shape)),
    )
}

/// Where aggregates stand, and what their number limits.
pub fn uses_note(q: &Query) -> Result<Note, NoMemory>
    ensures { IfOk result (λ n. n ≡ spec.uses_note q.now) }
{
    let uses = query_used(q)?;
    Ok(joined(
        breaks(Rule::Types, uses.limited),
        breaks(Rule::Aggregates, uses.misused),
    ))
}

/// The types of the columns of a query, by the tables behind its selects.
pub fn final_shape(alloc: Global, q: &Query, r: &Recursion) -> Result<Option<Items<Ty>>, NoMemory>
    ensures { IfOk result (λ s. s ≡ spec.final_shape q.now r.now) }
{
    let kinds = union(alloc, q.selects.as_slice(), &over_tables(&r.tables))?;
    shape_of(alloc, kinds)
}

fn judged_by(alloc: Global, f: &File, r: &Recursion) -> Result<QueryVerdict, NoMemory>
    ensures { IfOk result (λ j. j ≡ spec.judged_by f.now r.now) }
{
    let shape = final_shape(alloc, &f.query, r)?;
    let uses = uses_note(&f.query)?;
    let params = params_of(alloc, &f.query)?;
    let note = joined(
        joined(f.note, uses),
        joined(
            breaks(Rule::Types, params.clash),
            joined(r.note, answer_note(&shape)),
        ),
    );
    Ok(QueryVerdict {
        note,
        params: params.list,
        result: first_type(&shape),
    })
}

/// The least rule that a query breaks.
#[tactic(auto, unfolding(crate::specs::Wholes::judged))]
pub fn judged_file(alloc: Global, s: &Schema, f: &File) -> Result<QueryVerdict, NoMemory>
    ensures { IfOk result (λ j. j ≡ spec.judged s.now f.now) }
{
    let r = recursion_found(
        alloc,
        s,
        f.first.refers,
        f.second.refers,
        &f.query.recursive,
    )?;
    judged_by(alloc, f, &r)
}
