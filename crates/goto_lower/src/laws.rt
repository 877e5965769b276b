//! What is proved of the forms that are built.

ghost use Rattle.std.specs.Prelude.{◌≤◌, List, length};
ghost use Rattle.away_trees.specs.Count.{weight};
ghost use Rattle.away_trees.specs.declared.statements.Function.{Function};
ghost use Rattle.away_types.specs.declared.slots.Slot.{Slot};
ghost use Rattle.block_forms.specs.OwnSlots.{OwnSlots};
ghost use Rattle.block_forms.specs.Lowered.{Lowered};
ghost use Rattle.goto_lower.specs.Whole.{built};

/// The form that is built for a function with slots of its own is its goto form, and has at most sixteen blocks for each node and sixteen more.
pub fn built_forms_are_lowered()
    ensures lowered { (f : Function) (slots : List Slot) → OwnSlots f slots
        → Lowered f slots (built f slots) }
    ensures few { (f : Function) (slots : List Slot) → length (built f slots).blocks ≤ weight f }
{}
