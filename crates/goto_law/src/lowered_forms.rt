//! What the goto form of a checked function gives the building of its SSA form.

ghost use Rattle.std.specs.Prelude.{List, ◌+◌, ◌*◌, ◌^◌, ◌<◌, ◌≤◌, length};
ghost use Rattle.away_trees.specs.Count.{weight};
ghost use Rattle.away_trees.specs.declared.statements.Function.{Function};
ghost use Rattle.away_types.specs.declared.slots.Slot.{Slot};
ghost use Rattle.block_forms.specs.declared.forms.Goto.{Goto};
ghost use Rattle.block_forms.specs.Lowered.{Lowered};
ghost use Rattle.block_forms.specs.Places.{Each};
ghost use Rattle.block_forms.specs.Leading.{LeadsWithin};
ghost use Rattle.block_forms.specs.Live.{OnlyParametersLive};
ghost use Rattle.goto_law.specs.Worked.{WorkedEntries};

use away_types::CheckedFunction;
use function_facts::{checked_functions_own_their_slots, slots_are_in_sight};

/// At the entry of a checked function's goto form no slot but a parameter is live.
pub fn only_parameters_are_live_at_the_entry(f: &CheckedFunction)
    ensures { (g : Goto) → Lowered f.now.function f.now.slots g
        → OnlyParametersLive (length f.now.function.params) g }
{
    slots_are_in_sight(f);
}

/// A checked function has a slot for each parameter.
pub fn parameters_have_slots(f: &CheckedFunction)
    ensures { length f.now.function.params ≤ length f.now.slots }
{}

/// A function's goto form begins at one of its blocks, and each block leads to blocks of the form.
pub fn forms_lead_to_their_blocks()
    ensures entry { (f : Function) (slots : List Slot) (g : Goto) → Lowered f slots g
        → g.entry < length g.blocks }
    ensures targets { (f : Function) (slots : List Slot) (g : Goto) → Lowered f slots g
        → Each (LeadsWithin (length g.blocks)) g.blocks }
{}

/// A checked function's goto form has at most sixteen blocks for each node of the function and sixteen more. Names, one
/// for each slot and in each block one for each slot and one for its assignment, are below 2 ^ 32.
pub fn names_of_forms_are_few(f: &CheckedFunction)
    ensures few { (g : Goto) → Lowered f.now.function f.now.slots g
        → length g.blocks ≤ weight f.now.function }
    ensures short { (g : Goto) → Lowered f.now.function f.now.slots g
        → length f.now.slots + length g.blocks * (length f.now.slots + 1) < 2 ^ 32 }
{
    checked_functions_own_their_slots(f);
}

/// At the entry of one worked form its parameter is live, and nothing else; at that of the other a variable is that
/// nothing has set.
pub fn worked_entries_are_judged()
    ensures { WorkedEntries }
{}
