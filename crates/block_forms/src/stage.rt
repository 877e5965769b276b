//! Stages between forms, and two stages in a row.

ghost use Rattle.std.specs.Prelude.{◌≡◌, ℕ, ◌↔◌, IsTrue, List, length, IfOk};
ghost use Rattle.away_values.specs.declared.values.Value.{Value};
ghost use Rattle.block_forms.specs.Frames.{Setting, IsFrameOf};
ghost use Rattle.block_forms.specs.Machines.{Bounds};
ghost use Rattle.block_forms.specs.Runs.{Frame};
ghost use Rattle.block_forms.specs.Joined.{bounds_join, frame_of_same};

use crate::form::Form;
use away_values::NoMemory;
use std::alloc::Global;

/// A stage: a relation between two forms in the frames of one setting. Where it holds, the second form bounds the first.
pub trait Stage {
    type Src: Form;

    type Dst: Form;

    ghost setting: { Self → Setting };

    ghost relation: { Self → Self.Src → Self.Dst → Type 0 };

    /// Whether the relation holds.
    fn check(&self, alloc: Global, src: &Self::Src, dst: &Self::Dst) -> Result<bool, NoMemory>
        ensures { IfOk result (λ yes. IsTrue yes ↔ relation self.now src.now dst.now) };

    /// A yes gives both bounds.
    ghost law: { (s : Self) (x : Self.Src) (y : Self.Dst) → relation s x y → (frame : Frame) → IsFrameOf frame (setting s)
        → (args : List Value) → length args ≡ frame.params → Bounds (Self.Src.run x frame args) (Self.Dst.run y frame args) };
}

/// Two stages in a row, in one setting, with the form between them.
#[derive(Drop)]
pub struct Then<A: Stage, B: Stage<Src = A::Dst>> {
    pub first: A,
    pub middle: A::Dst,
    pub second: B,
    ghost same_setting: { A.setting first ≡ B.setting second },
}

impl<A: Stage, B: Stage<Src = A::Dst>> Stage for Then<A, B> {
    type Src = A::Src;

    type Dst = B::Dst;

    ghost setting = { λ t. A.setting t.first };

    ghost relation = { λ t x z. A.relation t.first x t.middle × B.relation t.second t.middle z };

    fn check(&self, alloc: Global, src: &A::Src, dst: &B::Dst) -> Result<bool, NoMemory> {
        if !self.first.check(alloc, src, &self.middle)? {
            return Ok(false);
        }
        self.second.check(alloc, &self.middle, dst)
    }

    ghost law = { λ t x z related frame frame_of args typed. bounds_join (A.law t.first x t.middle related.0 frame frame_of args typed)
        (B.law t.second t.middle z related.1 frame (frame_of_same frame t.same_setting frame_of) args typed) };
}
