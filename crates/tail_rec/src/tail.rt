//! The tail form of a normal form.

ghost use Rattle.std.specs.Prelude.{◌≡◌, ◌<◌, ◌≤◌, ◌^◌, length, IfOk};
ghost use Rattle.block_forms.specs.Named.{Named};
ghost use Rattle.block_forms.specs.Places.{Each};
ghost use Rattle.call_forms.specs.Called.{Called, ParametersOf};
ghost use Rattle.call_forms.specs.Columned.{Columned};
ghost use Rattle.call_forms.specs.Merged.{Merged};
ghost use Rattle.call_forms.specs.Tight.{Tight};
ghost use Rattle.tail_rec.specs.Columns.{HasFewParameters};
ghost use Rattle.tail_rec.specs.TailForm.{IsColumned, IsTailForm};

use crate::columns::{columns_of, widths_of};
use crate::labels::labels_of;
use crate::places::{places_of, starts_of};
use away_types::{CheckedFunction, Slot};
use away_values::NoMemory;
use block_forms::{Goto, Ssa};
use call_forms::{Anf, Tail};
use sqlite_items::Items;
use std::alloc::{AllocError, Global};

/// The tail form over these slots.
pub(crate) fn tail_form(
    alloc: Global,
    slots: &[Slot],
    goto: &Goto,
    ssa: &Ssa,
    anf: &Anf,
) -> Result<Tail, AllocError>
    requires few_blocks { length anf.now.blocks ≤ 2 ^ 32 }
    requires few_parameters { Each HasFewParameters anf.now.blocks }
    ensures exact { IfOk result (λ tail. IsTailForm slots.now goto.now ssa.now anf.now tail) }
    ensures few_columns { IfOk result (λ tail. length tail.columns < 2 ^ 30) }
{
    let labels = labels_of(alloc, goto, anf.blocks.as_slice())?;
    columned(alloc, slots, ssa, anf, labels)
}

/// The tail form of these labels.
fn columned(
    alloc: Global,
    slots: &[Slot],
    ssa: &Ssa,
    anf: &Anf,
    labels: Items<u32>,
) -> Result<Tail, AllocError>
    requires { Each HasFewParameters anf.now.blocks }
    ensures exact { IfOk result (λ tail. IsColumned slots.now ssa.now anf.now labels tail) }
    ensures few_columns { IfOk result (λ tail. length tail.columns < 2 ^ 30) }
{
    let blocks = anf.blocks.as_slice();
    let names = ssa.names.as_slice();
    let widths = widths_of(slots, names, blocks, labels.as_slice());
    let columns = columns_of(alloc, widths)?;
    let starts = starts_of(widths);
    let places = places_of(alloc, slots, names, blocks, labels.as_slice(), starts)?;
    Ok(Tail {
        labels,
        columns,
        places,
    })
}

/// The tail form of a function's normal form: blocks are merged into the label that calls them, and parameters share columns.
pub fn to_tail(
    alloc: Global,
    f: &CheckedFunction,
    goto: &Goto,
    ssa: &Ssa,
    anf: &Anf,
) -> Result<Tail, NoMemory>
    requires named { Named (length f.now.slots) (length f.now.function.params) goto.now ssa.now }
    requires called { Called goto.now ssa.now anf.now }
    requires few_blocks { length anf.now.blocks < 2 ^ 28 }
    requires few_parameters { Each HasFewParameters anf.now.blocks }
    ensures merged { IfOk result (λ tail. Merged goto.now anf.now tail) }
    ensures columned { IfOk result (λ tail. Columned f.now.slots ssa.now anf.now tail) }
    ensures tight { IfOk result (λ tail. Tight f.now.slots goto.now ssa.now anf.now tail) }
    ensures few_labels { IfOk result (λ tail. length tail.labels ≤ length anf.now.blocks) }
    ensures few_columns { IfOk result (λ tail. length tail.columns < 2 ^ 30) }
{
    Ok(tail_form(alloc, f.slots.as_slice(), goto, ssa, anf)?)
}

/// The tail form of a function's normal form whose labels are these: parameters share columns.
pub fn tail_of(
    alloc: Global,
    f: &CheckedFunction,
    ssa: &Ssa,
    anf: &Anf,
    labels: Items<u32>,
) -> Result<Tail, NoMemory>
    requires names { Each (λ s. s < length f.now.slots) ssa.now.names }
    requires parameters { Each (ParametersOf (length ssa.now.names)) anf.now.blocks }
    requires labels_are_blocks { Each (λ b. b < length anf.now.blocks) labels }
    requires few_parameters { Each HasFewParameters anf.now.blocks }
    ensures exact { IfOk result (λ tail. IsColumned f.now.slots ssa.now anf.now labels tail) }
    ensures columned { IfOk result (λ tail. Columned f.now.slots ssa.now anf.now tail) }
    ensures few_columns { IfOk result (λ tail. length tail.columns < 2 ^ 30) }
{
    Ok(columned(alloc, f.slots.as_slice(), ssa, anf, labels)?)
}
