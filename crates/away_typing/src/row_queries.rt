//! Whole queries whose names are resolved by all of their columns, whatever rows they give.

ghost use Rattle.std.specs.Prelude.{◌≡◌, IfOk};
ghost use Rattle.away_typing.specs.RowQueries as spec;
ghost use Rattle.away_typing.specs.Wholes as wholes;

use crate::parameters::params_of;
use crate::recursion::recursion_found;
use crate::wholes::{Recursion, final_shape, uses_note};
use away_names::note::{File, Note, breaks, joined};
use away_names::rule::Rule;
use away_trees::Schema;
use away_values::{NoMemory, Ty};
use sqlite_items::Items;
use std::alloc::Global;

/// The least rule but the one on answers that a query breaks, its parameters, and the types of its columns.
#[derive(Drop)]
pub struct RowsVerdict {
    pub note: Note,
    pub params: Items<(u32, Ty)>,
    pub columns: Items<Ty>,
}

fn shape_note(shape: &Option<Items<Ty>>) -> Note
    ensures { result ≡ spec.shape_note shape.now }
{
    breaks(Rule::Types, shape.is_none())
}

#[tactic(auto, unfolding(crate::specs::Wholes::types_or_none))]
fn columns_of(alloc: Global, shape: Option<Items<Ty>>) -> Items<Ty>
    ensures { result ≡ wholes.types_or_none shape }
{
    match shape {
        None => Items::new(alloc),
        Some(types) => types,
    }
}

fn rows_by(alloc: Global, f: &File, r: &Recursion) -> Result<RowsVerdict, NoMemory>
    ensures { IfOk result (λ j. j ≡ spec.rows_by f.now r.now) }
{
    let shape = final_shape(alloc, &f.query, r)?;
    let uses = uses_note(&f.query)?;
    let params = params_of(alloc, &f.query)?;
    let note = joined(
        joined(f.note, uses),
        joined(
            breaks(Rule::Types, params.clash),
            joined(r.note, shape_note(&shape)),
        ),
    );
    Ok(RowsVerdict {
        note,
        params: params.list,
        columns: columns_of(alloc, shape),
    })
}

/// The least rule but the one on answers that a query breaks.
#[tactic(auto, unfolding(crate::specs::RowQueries::judged_rows))]
pub fn judged_rows(alloc: Global, s: &Schema, f: &File) -> Result<RowsVerdict, NoMemory>
    ensures { IfOk result (λ j. j ≡ spec.judged_rows s.now f.now) }
{
    let r = recursion_found(
        alloc,
        s,
        f.first.refers,
        f.second.refers,
        &f.query.recursive,
    )?;
    rows_by(alloc, f, &r)
}
