//! Terms over the columns of the row.

ghost use Rattle.std.specs.Prelude.{◌≡◌, IfOk};
ghost use Rattle.turn_terms.specs.References.{on_row, scope_of};
ghost use Rattle.turn_terms.specs.Writing.{term_in};

use crate::placing::{placed, written};
use crate::references::{Reference, looked_up};
use crate::writer::Writer;
use away_trees::Expr;
use away_values::{NoMemory, Ty};
use block_forms::Term;
use cte_parts::null;
use std::alloc::Global;

/// What a name stands for, as it stands in the select above the row. The last pair with the name counts.
#[tactic(auto, using(crate::proofs::ReferenceRules::scope_is))]
pub fn value_of(alloc: Global, refs: &[Reference], name: u32) -> Result<Expr, NoMemory>
    ensures { IfOk result (λ x. x ≡ scope_of refs.now name 0) }
{
    let value = looked_up(alloc, refs, name)?;
    written(alloc, &value)
}

/// A term over the row: its slots are what its names stand for, and a cast is round each literal.
pub fn term_reference(
    alloc: Global,
    w: &Writer<'_>,
    refs: &[Reference],
    ty: Ty,
    term: &Term,
) -> Result<Expr, NoMemory>
    ensures { IfOk result (λ x. on_row x ≡ term_in w.now (scope_of refs.now) ty term.now) }
{
    let Some(e) = w.table.get(term.expr as usize) else {
        return null(alloc, ty);
    };
    placed(alloc, ty, e, term.names.as_slice(), refs)
}

/// A term as it stands in the select above the row.
pub fn term_value(
    alloc: Global,
    w: &Writer<'_>,
    refs: &[Reference],
    ty: Ty,
    term: &Term,
) -> Result<Expr, NoMemory>
    ensures { IfOk result (λ x. x ≡ term_in w.now (scope_of refs.now) ty term.now 0) }
{
    let value = term_reference(alloc, w, refs, ty, term)?;
    written(alloc, &value)
}
