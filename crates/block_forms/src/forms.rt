//! The goto form and the SSA form.

use away_values::Class;
use sqlite_items::Items;

/// An expression by its number in the expression table, and what its slots hold: slots in the goto form, names in the SSA form.
#[derive(Drop)]
pub struct Term {
    pub expr: u32,
    pub names: Items<u32>,
}

/// How a block ends. A branch goes to its first block where its term is true, and else to its second.
#[derive(Drop)]
pub enum End {
    Jump(u32),
    Branch(Term, u32, u32),
    Return(Term),
    Fail(Class),
}

/// A basic block of the goto form: at most one assignment to a slot, and an end. A head is the block where a turn of a loop begins.
#[derive(Drop)]
pub struct Block {
    pub head: bool,
    pub set: Option<(u32, Term)>,
    pub end: End,
}

/// The goto form. `finish` is the block behind the body, and `nodes` gives the first block of each node of the function.
#[derive(Drop)]
pub struct Goto {
    pub entry: u32,
    pub finish: u32,
    pub nodes: Items<u32>,
    pub blocks: Items<Block>,
}

/// A φ: a name that takes the value of its operand for the block that the run comes from. Operands are blocks with names.
#[derive(Drop)]
pub struct Phi {
    pub name: u32,
    pub operands: Items<(u32, u32)>,
}

/// A basic block of the SSA form. Its map gives the name of each slot as the block begins.
#[derive(Drop)]
pub struct SsaBlock {
    pub map: Items<(u32, u32)>,
    pub phis: Items<Phi>,
    pub set: Option<(u32, Term)>,
    pub end: End,
}

/// The SSA form (Braun and others, CC 2013). `names` gives the slot of each name; it has one block for each of the goto form.
#[derive(Drop)]
pub struct Ssa {
    pub names: Items<u32>,
    pub blocks: Items<SsaBlock>,
}
