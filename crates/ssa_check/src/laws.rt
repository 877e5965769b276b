//! What is proved of all named forms.

ghost use Rattle.ssa_check.specs.Definitions.{NamesHaveOneDefinition, ParametersAreUnset, NamesAreReadInSight, DefinitionsComeFirst, EntryHasNoPhi, OperandsArePredecessors};
ghost use Rattle.ssa_check.specs.Naming.{NamedRunsInLockstep};
ghost use Rattle.ssa_check.specs.TrivialPhis.{TrivialPhis, OthersJoinTwoNames, FormsJoinTwoNames};

/// A named SSA form runs in lockstep with its goto form.
pub fn naming_keeps_answers()
    ensures { NamedRunsInLockstep }
{}

/// A named SSA form is an SSA form: each name has one definition, which on every path comes before its uses.
pub fn names_have_one_definition()
    ensures definitions { NamesHaveOneDefinition }
    ensures parameters { ParametersAreUnset }
    ensures sight { NamesAreReadInSight }
    ensures paths { DefinitionsComeFirst }
    ensures entry { EntryHasNoPhi }
    ensures operands { OperandsArePredecessors }
{}

/// A φ is trivial where its operands other than itself are at most one name, none included. Each other φ joins two names, and in a named form these
/// come from two blocks that lead to the φ's.
pub fn phis_join_two_names()
    ensures examples { TrivialPhis }
    ensures others { OthersJoinTwoNames }
    ensures forms { FormsJoinTwoNames }
{}
