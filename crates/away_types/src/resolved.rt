//! Parts of a function whose names are resolved.

use crate::finding::Report;
use crate::slots::Slots;
use away_names::note::Note;
use away_names::scope::Variable;
use away_trees::{Decl, LoopKind};
use sqlite_items::{Boxed, Items};

/// A part, what was found in it, and the variables so far.
#[derive(Drop)]
pub struct Resolved<T> {
    pub it: T,
    pub note: Report,
    pub slots: Slots,
}

/// Declarations, the variables in sight behind them, what was found, and the variables so far.
#[derive(Drop)]
pub struct Declared {
    pub it: Items<Decl>,
    pub variables: Items<Variable>,
    pub note: Note,
    pub slots: Slots,
}

/// The head of a loop, the variables in sight in its body, what was found, and the variables so far.
#[derive(Drop)]
pub struct Headed {
    pub it: Boxed<LoopKind>,
    pub variables: Items<Variable>,
    pub note: Note,
    pub slots: Slots,
}
