//! How long the lists of a normal form are.

ghost use Rattle.std.specs.Prelude.{◌^◌, ◌<◌, length};
ghost use Rattle.block_forms.specs.declared.forms.Goto.{Goto};
ghost use Rattle.block_forms.specs.declared.forms.Ssa.{Ssa};
ghost use Rattle.block_forms.specs.Lowered.{Lowered};
ghost use Rattle.block_forms.specs.Named.{Named};
ghost use Rattle.block_forms.specs.Places.{Each};
ghost use Rattle.call_forms.specs.declared.forms.Anf.{Anf};
ghost use Rattle.call_forms.specs.Called.{Called};
ghost use Rattle.ssa_build.specs.SetNames.{NamesAreSet};
ghost use Rattle.tail_rec.specs.Columns.{HasFewParameters};

use away_types::CheckedFunction;
use function_facts::checked_functions_own_their_slots;
use ssa_build::names_are_few;

/// The normal form of a checked function has fewer than 2 ^ 28 blocks. Each has fewer than 2 ^ 28 parameters, where the
/// names of the SSA form are set.
pub fn normal_forms_are_short(f: &CheckedFunction)
    ensures blocks { (g : Goto) (z : Ssa) (a : Anf) → Lowered f.now.function f.now.slots g
        → Named (length f.now.slots) (length f.now.function.params) g z → Called g z a
        → length a.blocks < 2 ^ 28 }
    ensures parameters { (g : Goto) (z : Ssa) (a : Anf) → Lowered f.now.function f.now.slots g
        → Named (length f.now.slots) (length f.now.function.params) g z
        → NamesAreSet (length f.now.slots) z → Called g z a
        → Each HasFewParameters a.blocks }
{
    checked_functions_own_their_slots(f);
    names_are_few();
}
