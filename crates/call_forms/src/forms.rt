//! The normal form, where blocks are functions that call one another with names, and the tail form, which tells how they run as rows.
//! With the goto form and the SSA form they lead from a function to its query.

use away_values::{Class, Ty};
use block_forms::{Goto, Ssa, Term};
use sqlite_items::Items;

/// A call of a block: each parameter takes the value of one name.
#[derive(Drop)]
pub struct Call {
    pub target: u32,
    pub args: Items<u32>,
}

/// How a block of the normal form ends. A pick makes its first call where its term is true, and else its second.
#[derive(Drop)]
pub enum CallEnd {
    Go(Call),
    Pick(Term, Call, Call),
    Return(Term),
    Fail(Class),
}

/// A block of the normal form. It knows its parameters and the name that it assigns, and no other.
#[derive(Drop)]
pub struct AnfBlock {
    pub params: Items<u32>,
    pub set: Option<(u32, Term)>,
    pub end: CallEnd,
}

/// The normal form (A-normal form, from Flanagan and others, PLDI 1993), with one block for each of the SSA form.
#[derive(Drop)]
pub struct Anf {
    pub blocks: Items<AnfBlock>,
}

/// The tail form of a normal form. Its labels are the blocks that calls reach as rows; every other block is merged into the block that calls it.
/// A row has a value for each column, and `places` gives the column of each parameter of a label.
#[derive(Drop)]
pub struct Tail {
    pub labels: Items<u32>,
    pub columns: Items<Ty>,
    pub places: Items<Items<u32>>,
}

/// The four forms of a function on its way to a query, each made from those before it.
#[derive(Drop)]
pub struct Forms {
    pub goto: Goto,
    pub ssa: Ssa,
    pub anf: Anf,
    pub tail: Tail,
}
