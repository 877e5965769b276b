//! Where a statement stands in two bodies, and by whose rules the one has become the other.

use away_trees::{Expr, Function, Stmt};
use away_types::Slot;
use away_values::{Name, Ty};
use sqlite_items::Items;

/// The first slots of a statement in both bodies.
#[derive(Clone, Copy)]
pub struct Spot {
    pub at: u32,
    pub new: u32,
}

/// What a statement has in sight: slots, and the labels that EXIT and CONTINUE may name, each with what stands for it in the
/// other body; and whether a loop stands around.
#[derive(Drop)]
pub struct InSight {
    pub slots: Items<(u32, u32)>,
    pub exits: Items<(Name, Name)>,
    pub continues: Items<(Name, Name)>,
    pub looped: bool,
}

/// A function of a program as the meaning of calls has it: its body is converted, and its calls stand; and its slots.
#[derive(Drop)]
pub struct StandingPart {
    pub function: Function,
    pub slots: Items<Slot>,
}

/// How a body is left: by RETURN, or with the result in a slot and by an EXIT of a label.
#[derive(Clone, Copy)]
pub enum Left<'a> {
    Whole,
    Into(u32, &'a Name),
}

/// The parts of a program, how many calls may still nest, and how the body in hand is left.
#[derive(Clone, Copy)]
pub struct Expansion<'a> {
    pub parts: &'a [StandingPart],
    pub depth: usize,
    pub left: Left<'a>,
}

/// What calls have become: a function's calls of itself are turns of the loop with this label, or the calls of a program are
/// expanded.
#[derive(Clone, Copy)]
pub enum Calls<'a> {
    Turns(&'a Name),
    Expanded(Expansion<'a>),
}

/// The function whose body is walked: the name by which it calls itself (none, where that is an operator's), how it is written,
/// its body with its calls, converted, and its slots. And the slots of the other function, and what calls have become there.
#[derive(Clone, Copy)]
pub struct Walk<'a> {
    pub name: &'a str,
    pub f: &'a Function,
    pub body: &'a Stmt,
    pub own: &'a [Slot],
    pub slots: &'a [Slot],
    pub calls: Calls<'a>,
}

/// What an expression calls, where a function calls itself: nobody, the function itself with these arguments, or the function
/// under a conversion, as no function calls itself.
#[derive(Clone, Copy)]
pub enum Found<'a> {
    Nobody,
    Itself(&'a [Expr]),
    Converted,
}

/// The part that is called, by its number, the conversion of the place, if it has one, and the arguments.
#[derive(Clone, Copy)]
pub struct CalledPart<'a> {
    pub conversion: Option<Ty>,
    pub part: usize,
    pub args: &'a [Expr],
}

/// What a statement does with a value: it assigns it to a slot, or returns it.
#[derive(Clone, Copy)]
pub enum To {
    Slot(u32),
    Result,
}

/// A call of a part of a program in a statement.
#[derive(Clone, Copy)]
pub struct Placed<'a> {
    pub expansion: Expansion<'a>,
    pub to: To,
    pub called: CalledPart<'a>,
}

/// Where the body of a called function stands: the walk along it, how many parameters it has and from which slot on, its first
/// slots in both bodies, and its place among the statements of its block.
#[derive(Clone, Copy)]
pub struct Callee<'a> {
    pub walk: Walk<'a>,
    pub from: u32,
    pub params: usize,
    pub spot: Spot,
    pub place: usize,
}
