//! What can be derived of trees that were read.

ghost use Rattle.cte_prints.specs.TreeLaws.{LikeIsDerivable, ReadDeeper, ReadSo, DerivedDeeper, DerivedSo};

/// What is like a tree that was read from writable terminals can be derived, with a depth that grows with that of what was read.
pub fn the_like_of_what_is_read_is_derivable()
    ensures { LikeIsDerivable }
{}

/// What is read with a depth is read.
pub fn what_is_read_with_a_depth_is_read()
    ensures { ReadSo }
{}

/// What is derived with a depth is read.
pub fn what_is_derived_with_a_depth_is_read()
    ensures { DerivedSo }
{}

/// What is read with a depth is read with a greater one.
pub fn readings_may_be_deeper()
    ensures { ReadDeeper }
{}

/// What is derived with a depth is derived with a greater one.
pub fn derivations_may_be_deeper()
    ensures { DerivedDeeper }
{}
