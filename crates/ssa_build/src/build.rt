//! The SSA form of a goto form.

ghost use Rattle.std.specs.Prelude.{◌≡◌, ◌<◌, length, IfOk};
ghost use Rattle.block_forms.specs.Lowered.{BlockBelow, Lowered, NoWayTo};
ghost use Rattle.block_forms.specs.Named.{Named};
ghost use Rattle.block_forms.specs.Places.{Each};
ghost use Rattle.block_forms.specs.Leading.{LeadsWithin};
ghost use Rattle.ssa_build.specs.Layout.{IsLayout};
ghost use Rattle.ssa_build.specs.SetNames.{NamesAreSet};
ghost use Rattle.block_forms.specs.Live.{OnlyParametersLive};
ghost use Rattle.block_forms.specs.Trivial.{HasNoTrivial};

use crate::full::full_form;
use crate::joins::merge_joins;
use crate::layout::Layout;
use crate::numbers::number_roots;
use crate::phis::full_places;
use crate::places::Joins;
use crate::renames::Renaming;
use crate::writing::new_blocks;
use away_types::CheckedFunction;
use away_values::NoMemory;
use block_forms::{Goto, Ssa};
use goto_law::{
    forms_lead_to_their_blocks, names_of_forms_are_few, only_parameters_are_live_at_the_entry,
    parameters_have_slots,
};
use std::alloc::{AllocError, Global};

/// The SSA form of a goto form with that layout.
pub(crate) fn build_form(alloc: Global, layout: Layout, g: &Goto) -> Result<Ssa, AllocError>
    requires is_layout { IsLayout layout }
    requires sized { length g.now.blocks ≡ layout.blocks }
    requires entered { layout.entry ≡ g.now.entry }
    requires entry { g.now.entry < length g.now.blocks }
    requires targets { Each (LeadsWithin (length g.now.blocks)) g.now.blocks }
    requires below { Each (BlockBelow layout.slots) g.now.blocks }
    requires no_way_in { Each (NoWayTo g.now.entry) g.now.blocks }
    requires entry_live { OnlyParametersLive layout.params g.now }
    ensures named { IfOk result (λ z. Named layout.slots layout.params g.now z) }
    ensures neat { IfOk result (λ z. HasNoTrivial z) }
    ensures used { IfOk result (λ z. NamesAreSet layout.slots z) }
{
    let goto_blocks = g.blocks.as_slice();
    let full = full_form(alloc, layout, goto_blocks)?;
    let places = full_places(alloc, &full)?;
    let joins = Joins {
        full: &full,
        blocks: goto_blocks,
        places: &places,
    };
    let into = merge_joins(alloc, &joins)?;
    let numbering = number_roots(alloc, &full.names.slots, &into)?;
    let renaming = Renaming {
        full: &full,
        blocks: goto_blocks,
        into: &into,
        numbers: &numbering.numbers,
    };
    let written = new_blocks(alloc, &renaming)?;
    Ok(Ssa {
        names: numbering.names,
        blocks: written,
    })
}

/// The SSA form of a checked function's goto form. It has no trivial φs, and no name that nothing sets beyond the slots' own.
pub fn build_ssa(alloc: Global, f: &CheckedFunction, g: &Goto) -> Result<Ssa, NoMemory>
    requires lowered { Lowered f.now.function f.now.slots g.now }
    ensures named { IfOk result
        (λ z. Named (length f.now.slots) (length f.now.function.params) g.now z) }
    ensures neat { IfOk result (λ z. HasNoTrivial z) }
    ensures used { IfOk result (λ z. NamesAreSet (length f.now.slots) z) }
{
    parameters_have_slots(f);
    forms_lead_to_their_blocks();
    only_parameters_are_live_at_the_entry(f);
    names_of_forms_are_few(f);
    let layout = Layout {
        params: f.function.params.len(),
        slots: f.slots.len(),
        blocks: g.blocks.len(),
        entry: g.entry as usize,
    };
    Ok(build_form(alloc, layout, g)?)
}
