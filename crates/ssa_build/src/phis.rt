//! The places of the φs of the full form.

ghost use Rattle.std.specs.Prelude.{◌≡◌, ◌<◌, ◌++◌, IfOk};
ghost use Rattle.ssa_build.specs.FullForms.{IsSized};
ghost use Rattle.ssa_build.specs.FullJoins.{block_places, places_below};

use crate::full::FullForm;
use crate::places::PhiPlace;
use block_graph::is_live;
use std::alloc::{AllocError, Global};

/// Adds the places of the φs of a block.
fn push_block_places(
    full: &FullForm,
    block: usize,
    places: &mut Vec<PhiPlace>,
) -> Result<(), AllocError>
    requires tables { IsSized full.now }
    requires block_in { block < full.now.layout.blocks }
    ensures { IfOk result (λ _. places.new.items ≡ places.old.items
        ++ block_places full.now block) }
{
    if block == full.layout.entry {
        return Ok(());
    }
    for slot in 0..full.layout.slots {
        if is_live(&full.live, block, slot) {
            places.push(PhiPlace {
                block: block as u32,
                slot: slot as u32,
            })?;
        }
    }
    Ok(())
}

/// The places of all φs, block by block.
pub(crate) fn full_places(alloc: Global, full: &FullForm) -> Result<Vec<PhiPlace>, AllocError>
    requires tables { IsSized full.now }
    ensures { IfOk result (λ v. v.items ≡ places_below full.now full.now.layout.blocks) }
{
    let mut places = Vec::new(alloc);
    for block in 0..full.layout.blocks {
        push_block_places(full, block, &mut places)?;
    }
    Ok(places)
}
