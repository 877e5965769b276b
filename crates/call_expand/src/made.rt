//! What is made of a body with new names.

use away_names::scope::Variable;
use away_trees::{Decl, Function, LoopKind};
use away_values::Name;
use sqlite_items::{Boxed, Items};

/// A part, and the place of the next new name.
#[derive(Drop)]
pub struct Made<T> {
    pub it: T,
    pub next: usize,
}

/// The visible variables and labels, the innermost last, each with the place of its new name as its slot.
#[derive(Drop)]
pub struct Seen {
    pub variables: Items<Variable>,
    pub labels: Items<Variable>,
}

/// Declarations, the variables in sight behind them, and the place of the next new name.
#[derive(Drop)]
pub struct Declared {
    pub it: Items<Decl>,
    pub variables: Items<Variable>,
    pub next: usize,
}

/// Declarations with new names, what the statements behind them see, and the place of the next new name.
#[derive(Drop)]
pub struct Opened {
    pub it: Items<Decl>,
    pub inside: Seen,
    pub next: usize,
}

/// The head of a loop with new names, what its body sees, and the place of the next new name.
#[derive(Drop)]
pub struct Entered {
    pub it: Boxed<LoopKind>,
    pub inside: Seen,
    pub next: usize,
}

/// How a body is left: by RETURN, or with the result in a variable and by an EXIT of a label, which have the names at these
/// places.
#[derive(Clone, Copy, Debug, PartialEq, Eq)]
pub enum Back {
    Whole,
    Into(usize, usize),
}

/// Calls of these functions are expanded, nested less than so deep, in a body that is left so.
#[derive(Clone, Copy)]
pub struct Expansion<'a> {
    pub fs: &'a [Function],
    pub depth: usize,
    pub back: Back,
}

/// What becomes of calls: they are expanded, or a function's calls of itself are turns of a loop.
#[derive(Clone, Copy)]
pub enum Plan<'a> {
    Expand(Expansion<'a>),
    Untail(&'a Function),
}

/// The new names, and what becomes of calls.
#[derive(Clone, Copy)]
pub struct Work<'a> {
    pub names: &'a [Name],
    pub plan: Plan<'a>,
}
