//! What the relations of the forms with calls promise of their runs.

ghost use Rattle.call_law.specs.Lockstep.{CalledRunsInLockstep};
ghost use Rattle.call_law.specs.Merging.{TailRunsBound};
ghost use Rattle.call_law.specs.StageBounds.{CalledBound, MergedBound};

/// The run of a normal form is that of its SSA form, visit for visit.
pub fn the_normal_form_has_the_run()
    ensures lockstep { CalledRunsInLockstep }
    ensures in_settings { CalledBound }
{}

/// The run of a tail form has the answers of its normal form's run, and visits as many heads at least.
pub fn the_tail_form_keeps_the_run()
    ensures runs { TailRunsBound }
    ensures in_settings { MergedBound }
{}
