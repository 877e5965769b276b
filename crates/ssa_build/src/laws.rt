//! How many names there are.

ghost use Rattle.ssa_build.specs.FewNames.{NamesAreFew};

/// A form whose names are set has few of them, by its slots and blocks.
pub fn names_are_few()
    ensures { NamesAreFew }
{}
