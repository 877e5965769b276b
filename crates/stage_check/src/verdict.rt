//! What the checks of all stages say.

use equivalence::Relation;

/// Whether the forms stand between the function and the query, or the first relation that doesn't hold.
#[derive(Clone, Copy, Debug, PartialEq, Eq)]
pub enum Verdict {
    Accepted,
    Fails(Relation),
}
