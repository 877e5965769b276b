//! The stages from the SSA form to the normal form, and from there to the tail form.

ghost use Rattle.std.specs.Prelude.{◌≡◌};
ghost use Rattle.call_forms.specs.Called.{Called};
ghost use Rattle.call_check.specs.StageLaws.{setting_of, Merging, call_stage_bounds, merge_stage_bounds};

use crate::check::{check_called, check_columned, check_merged};
use crate::same::same_anf;
use away_types::CheckedFunction;
use away_values::NoMemory;
use block_forms::{Goto, Ssa, SsaForm, Stage};
use call_forms::{AnfForm, TailForm};
use std::alloc::Global;

/// Called, in the frames of a function and its goto form.
#[derive(Clone, Copy)]
pub struct CallStage<'a> {
    pub function: &'a CheckedFunction,
    pub goto: &'a Goto,
}

impl<'a> Stage for CallStage<'a> {
    type Src = SsaForm<'a>;

    type Dst = AnfForm<'a>;

    ghost setting = { λ s. setting_of s.function.now.function s.function.now.slots s.goto.now };

    ghost relation = { λ s x y. Called s.goto.now x.ssa.now y.anf.now };

    fn check(&self, alloc: Global, src: &SsaForm<'a>, dst: &AnfForm<'a>) -> Result<bool, NoMemory> {
        check_called(alloc, self.goto, src.ssa, dst.anf)
    }

    ghost law = { λ s x y related frame frame_of args typed.
        call_stage_bounds s.function.now.function s.function.now.slots s.goto.now x.ssa.now y.anf.now related frame frame_of args };
}

/// Merged and Columned, in the frames of a function and its goto form.
#[derive(Clone, Copy)]
pub struct MergeStage<'a> {
    pub function: &'a CheckedFunction,
    pub goto: &'a Goto,
    pub ssa: &'a Ssa,
}

impl<'a> Stage for MergeStage<'a> {
    type Src = AnfForm<'a>;

    type Dst = TailForm<'a>;

    ghost setting = { λ s. setting_of s.function.now.function s.function.now.slots s.goto.now };

    ghost relation = { λ s x y. Merging s.function.now.slots s.goto.now s.ssa.now x.anf.now y.anf.now y.tail.now };

    fn check(
        &self,
        alloc: Global,
        src: &AnfForm<'a>,
        dst: &TailForm<'a>,
    ) -> Result<bool, NoMemory> {
        if !same_anf(src.anf, dst.anf) {
            return Ok(false);
        }
        if !check_columned(self.function, self.ssa, dst.anf, dst.tail) {
            return Ok(false);
        }
        check_merged(alloc, self.goto, dst.anf, dst.tail)
    }

    ghost law = { λ s x y related frame frame_of args typed.
        merge_stage_bounds s.function.now.function s.function.now.slots s.goto.now s.ssa.now x.anf.now y.anf.now y.tail.now related frame frame_of args };
}
