//! Forms that run.

ghost use Rattle.std.specs.Prelude.{◌≡◌, ℕ, List, length};
ghost use Rattle.away_values.specs.declared.values.Value.{Value};
ghost use Rattle.block_forms.specs.Machines.{Ran, Stays};
ghost use Rattle.block_forms.specs.Runs.{Frame, goto_runs, ssa_runs};
ghost use Rattle.block_forms.specs.RunLaws.{goto_stays, ssa_stays};

use crate::forms::{Goto, Ssa};

/// A form: its run takes a frame, arguments and a number of visits.
pub trait Form {
    ghost run: { Self → Frame → List Value → ℕ → Ran };

    ghost blocks: { Self → ℕ };

    /// The number of its blocks or labels.
    fn size(&self) -> u64
        ensures { result ≡ blocks self.now };

    /// A run that is over stays as it is.
    ghost stays: { (x : Self) (frame : Frame) (args : List Value) → Stays (run x frame args) };
}

/// The goto form.
#[derive(Clone, Copy)]
pub struct GotoForm<'a> {
    pub goto: &'a Goto,
}

impl<'a> Form for GotoForm<'a> {
    ghost run = { λ x frame args k. goto_runs frame x.goto.now args k };

    ghost blocks = { λ x. length x.goto.now.blocks };

    fn size(&self) -> u64 {
        self.goto.blocks.len() as u64
    }

    ghost stays = { λ x frame args. goto_stays frame x.goto.now args };
}

/// The SSA form.
#[derive(Clone, Copy)]
pub struct SsaForm<'a> {
    pub ssa: &'a Ssa,
}

impl<'a> Form for SsaForm<'a> {
    ghost run = { λ x frame args k. ssa_runs frame x.ssa.now args k };

    ghost blocks = { λ x. length x.ssa.now.blocks };

    fn size(&self) -> u64 {
        self.ssa.blocks.len() as u64
    }

    ghost stays = { λ x frame args. ssa_stays frame x.ssa.now args };
}
