//! The labels of a form.

ghost use Rattle.std.specs.Prelude.{◌≡◌, ◌≤◌, ◌^◌, length, IfOk};
ghost use Rattle.tail_rec.specs.Walk as spec;

use crate::callers::callers_of;
use crate::walk::{Reached, walk_calls};
use block_forms::Goto;
use call_forms::AnfBlock;
use sqlite_items::Items;
use std::alloc::{AllocError, Global};

fn labels_among(alloc: Global, reached: &[Reached]) -> Result<Items<u32>, AllocError>
    ensures { IfOk result (λ v. v ≡ spec.labels_among reached.now) }
{
    let mut labels = Items::new(alloc);
    for found in reached {
        if found.is_label {
            labels.push(found.block)?;
        }
    }
    Ok(labels)
}

/// The labels: the entry, heads, blocks with several calls to them, and blocks that would have a depth of sixteen.
pub(crate) fn labels_of(
    alloc: Global,
    goto: &Goto,
    blocks: &[AnfBlock],
) -> Result<Items<u32>, AllocError>
    requires { length blocks.now ≤ 2 ^ 32 }
    ensures { IfOk result (λ v. v ≡ spec.labels_of goto.now blocks.now) }
{
    let callers = callers_of(alloc, blocks)?;
    let reached = walk_calls(alloc, goto, &callers, blocks)?;
    labels_among(alloc, &reached)
}
