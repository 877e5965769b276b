//! The stage from the goto form to the SSA form.

ghost use Rattle.std.specs.Prelude.{◌≡◌};
ghost use Rattle.ssa_check.specs.Naming.{setting_of, NamedIn};
ghost use Rattle.ssa_check.specs.NamingBounds.{stage_bounds};

use crate::check::check_named;
use crate::same::same_goto;
use away_types::CheckedFunction;
use away_values::NoMemory;
use block_forms::{Goto, GotoForm, SsaForm, Stage};
use std::alloc::Global;

/// Named, in the frames of a function and its goto form.
#[derive(Clone, Copy)]
pub struct NameStage<'a> {
    pub function: &'a CheckedFunction,
    pub goto: &'a Goto,
}

impl<'a> Stage for NameStage<'a> {
    type Src = GotoForm<'a>;

    type Dst = SsaForm<'a>;

    ghost setting = { λ s. setting_of s.function.now.function s.function.now.slots s.goto.now };

    ghost relation = { λ s x y. (x.goto.now ≡ s.goto.now) × NamedIn (setting_of s.function.now.function s.function.now.slots s.goto.now) y.ssa.now };

    fn check(
        &self,
        alloc: Global,
        src: &GotoForm<'a>,
        dst: &SsaForm<'a>,
    ) -> Result<bool, NoMemory> {
        if !same_goto(src.goto, self.goto) {
            return Ok(false);
        }
        Ok(check_named(self.function, self.goto, dst.ssa))
    }

    ghost law = { λ s x y related. stage_bounds (setting_of s.function.now.function s.function.now.slots s.goto.now) x.goto.now y.ssa.now related.0 related.1 };
}
