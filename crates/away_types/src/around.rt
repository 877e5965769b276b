//! What stands around a statement.

use away_names::scope::Scope;
use away_values::Name;

/// A block or a loop around a statement.
#[derive(Drop)]
pub struct Around {
    pub label: Option<Name>,
    pub is_loop: bool,
}

/// What names see at a statement, and the blocks and loops around it, the innermost last.
#[derive(Clone, Copy)]
pub struct Spot<'a> {
    pub scope: Scope<'a>,
    pub around: &'a [Around],
}
