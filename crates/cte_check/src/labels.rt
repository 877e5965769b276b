//! What the forms say of a block, a label and a name.

ghost use Rattle.std.specs.Prelude.{◌≡◌, ◌↔◌, ◌≤◌, IsTrue, IfOk, suc, slice_get, get_or, [], length};
ghost use Rattle.block_forms.specs.Places.{Each};
ghost use Rattle.call_forms.specs.Forms as forms;
ghost use Rattle.call_forms.specs.Columned as columned;
ghost use Rattle.call_forms.specs.Templated.{type_or_bigint};
ghost use Rattle.cte_check.specs.Labels as spec;
ghost use Rattle.cte_check.specs.Walks.{LabelsOf};

use crate::body::Given;
use away_types::Slot;
use away_values::{NoMemory, Ty};
use cte_reads::Ref;
use sqlite_items::Items;
use std::alloc::Global;

/// The type of a name's slot, bigint where it has none.
pub(crate) fn type_of_name(slots: &[Slot], names: &[u32], n: u32) -> Ty
    ensures { result ≡ type_or_bigint (columned.type_of_name slots.now names.now n) }
{
    let n = n as usize;
    if n >= names.len() {
        return Ty::Bigint;
    }
    let slot = names[n] as usize;
    if slot < slots.len() {
        slots[slot].ty
    } else {
        Ty::Bigint
    }
}

/// The label of a block, counted from 0.
pub(crate) fn label_of(g: &Given<'_>, block: u32) -> Option<usize>
    ensures { LabelsOf g.now → length g.now.labels.now ≡ length g.now.blocks.now
        → Each (λ b. suc b ≤ length g.now.blocks.now) g.now.tail.now.labels
        → result ≡ forms.label_of g.now.tail.now block }
{
    let block = block as usize;
    if block < g.labels.len() {
        g.labels[block]
    } else {
        None
    }
}

pub(crate) fn params_of<'a>(g: &Given<'a>, block: u32) -> &'a [u32]
    ensures { result.now ≡ forms.params_of (slice_get g.now.blocks.now block) }
{
    let block = block as usize;
    if block < g.blocks.len() {
        g.blocks[block].params.as_slice()
    } else {
        &[]
    }
}

pub(crate) fn places_of<'a>(g: &Given<'a>, label: usize) -> &'a [u32]
    ensures { result.now ≡ get_or g.now.tail.now.places label [] }
{
    if label < g.tail.places.len() {
        g.tail.places.as_slice()[label].as_slice()
    } else {
        &[]
    }
}

/// The column of the rows for each parameter of a label. A parameter without a place has one that no row has.
pub(crate) fn label_refs(
    alloc: Global,
    params: &[u32],
    places: &[u32],
) -> Result<Items<Ref>, NoMemory>
    ensures { IfOk result (λ refs. refs ≡ spec.label_refs params.now places.now) }
{
    let mut refs = Items::new(alloc);
    for i in 0..params.len() {
        refs.push(row_ref(places, i))?;
    }
    Ok(refs)
}

fn row_ref(places: &[u32], i: usize) -> Ref
    ensures { result ≡ spec.row_ref (slice_get places.now i) }
{
    if i < places.len() {
        Ref {
            from: 0,
            item: 0,
            column: places[i] as usize + 2,
        }
    } else {
        Ref {
            from: 0,
            item: 1,
            column: 0,
        }
    }
}

/// Whether each label is a block.
pub(crate) fn are_blocks(blocks: usize, labels: &[u32]) -> bool
    ensures { IsTrue result ↔ Each (λ b. suc b ≤ blocks) labels.now }
{
    for label in labels {
        if *label as usize >= blocks {
            return false;
        }
    }
    true
}

/// The label of each of so many blocks; the first of equal labels counts.
pub(crate) fn label_table(
    alloc: Global,
    blocks: usize,
    labels: &[u32],
) -> Result<Items<Option<usize>>, NoMemory>
    ensures many { IfOk result (λ table. length table ≡ blocks) }
    ensures each { IfOk result (λ table. spec.TableOf labels.now table) }
{
    let mut table = Items::new(alloc);
    for _block in 0..blocks {
        table.push(None)?;
    }
    for i in 0..labels.len() {
        mark(&mut table, labels[i] as usize, i);
    }
    Ok(table)
}

/// The label of a block that has none yet.
fn mark(table: &mut Items<Option<usize>>, block: usize, label: usize)
    ensures { table.new ≡ spec.marked table.old block label }
{
    if block >= table.len() {
        return;
    }
    if table.as_slice()[block].is_none() {
        table.set(block, Some(label));
    }
}
