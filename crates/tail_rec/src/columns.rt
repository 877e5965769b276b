//! How many columns of each type the labels need.

ghost use Rattle.std.specs.Prelude.{◌≡◌, ◌++◌, ◌+◌, ◌<◌, ◌≤◌, ◌^◌, length, map, replicate, slice_get, IfOk, OnOk};
ghost use Rattle.std.specs.List.{count_by};
ghost use Rattle.std.specs.Option.{option_copied};
ghost use Rattle.away_typing.specs.Kinds.{same};
ghost use Rattle.block_forms.specs.Places.{Each};
ghost use Rattle.call_forms.specs.Columned.{type_of_name};
ghost use Rattle.call_forms.specs.Tight.{is_type};
ghost use Rattle.tail_rec.specs.Columns as spec;

use away_types::Slot;
use away_values::Ty;
use call_forms::AnfBlock;
use sqlite_items::Items;
use std::alloc::{AllocError, Global};

/// A number for each type.
#[derive(Clone, Copy, Debug, PartialEq, Eq)]
pub(crate) struct PerType {
    pub bigint: u32,
    pub boolean: u32,
    pub text: u32,
    pub integer: u32,
}

#[tactic(auto, unfolding(away_typing::specs::Kinds::same))]
fn is_same(t: Ty, u: Ty) -> bool
    ensures { result ≡ same t u }
{
    match t {
        Ty::Bigint => matches!(u, Ty::Bigint),
        Ty::Boolean => matches!(u, Ty::Boolean),
        Ty::Text => matches!(u, Ty::Text),
        Ty::Integer => matches!(u, Ty::Integer),
    }
}

fn is_of(t: Ty, found: Option<Ty>) -> bool
    ensures { result ≡ is_type t found }
{
    match found {
        None => false,
        Some(u) => is_same(t, u),
    }
}

/// The type of a name: that of its slot.
pub(crate) fn type_of(slots: &[Slot], names: &[u32], name: u32) -> Option<Ty>
    ensures { result ≡ type_of_name slots.now names.now name }
{
    match names.get(name as usize) {
        None => None,
        Some(slot) => match slots.get(*slot as usize) {
            None => None,
            Some(found) => Some(found.ty),
        },
    }
}

/// How many of these names have the type.
fn count_of(slots: &[Slot], names: &[u32], params: &[u32], t: Ty) -> u32
    requires { length params.now < 2 ^ 32 }
    ensures exact { result ≡ spec.count_of (type_of_name slots.now names.now) t params.now }
    ensures few { result ≤ length params.now }
{
    let mut count = 0;
    for name in params {
        if is_of(t, type_of(slots, names, *name)) {
            count += 1;
        }
    }
    count
}

/// How many parameters of the type a block has.
fn needed(slots: &[Slot], names: &[u32], blocks: &[AnfBlock], block: u32, t: Ty) -> u32
    requires { Each spec.HasFewParameters blocks.now }
    ensures exact { result ≡ spec.needed (type_of_name slots.now names.now) blocks.now t block }
    ensures few { result < 2 ^ 28 }
{
    match blocks.get(block as usize) {
        None => 0,
        Some(found) => count_of(slots, names, found.params.as_slice(), t),
    }
}

/// The most parameters of the type that one label has.
fn most_needed(slots: &[Slot], names: &[u32], blocks: &[AnfBlock], labels: &[u32], t: Ty) -> u32
    requires { Each spec.HasFewParameters blocks.now }
    ensures exact { result ≡ spec.most_of
        (spec.needed (type_of_name slots.now names.now) blocks.now t) 0 labels.now }
    ensures few { result < 2 ^ 28 }
{
    let mut most = 0;
    for label in labels {
        let here = needed(slots, names, blocks, *label, t);
        if most < here {
            most = here;
        }
    }
    most
}

/// For each type the most parameters of it that one label has.
pub(crate) fn widths_of(
    slots: &[Slot],
    names: &[u32],
    blocks: &[AnfBlock],
    labels: &[u32],
) -> PerType
    requires { Each spec.HasFewParameters blocks.now }
    ensures exact { result ≡ spec.widths_of
        (type_of_name slots.now names.now) blocks.now labels.now }
    ensures few { spec.AreFew result }
{
    PerType {
        bigint: most_needed(slots, names, blocks, labels, Ty::Bigint),
        boolean: most_needed(slots, names, blocks, labels, Ty::Boolean),
        text: most_needed(slots, names, blocks, labels, Ty::Text),
        integer: most_needed(slots, names, blocks, labels, Ty::Integer),
    }
}

fn push_columns(columns: &mut Items<Ty>, t: Ty, count: u32) -> Result<(), AllocError>
    ensures { OnOk result (columns.new ≡ columns.old ++ replicate count t) }
{
    for _column in 0..count {
        columns.push(t)?;
    }
    Ok(())
}

/// So many columns of each type.
pub(crate) fn columns_of(alloc: Global, widths: PerType) -> Result<Items<Ty>, AllocError>
    ensures { IfOk result (λ v. v ≡ spec.columns_of widths) }
{
    let mut columns = Items::new(alloc);
    push_columns(&mut columns, Ty::Bigint, widths.bigint)?;
    push_columns(&mut columns, Ty::Boolean, widths.boolean)?;
    push_columns(&mut columns, Ty::Text, widths.text)?;
    push_columns(&mut columns, Ty::Integer, widths.integer)?;
    Ok(columns)
}
