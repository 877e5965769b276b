//! The blocks that patterns ask for, and whether one stands at a place.

ghost use Rattle.std.specs.Prelude.{◌≡◌, ◌↔◌, IsTrue, slice_get};
ghost use Rattle.block_forms.specs.Patterns.{sets, branches, jumps, returns, fails};
ghost use Rattle.goto_check.specs.Asking.{is_found};
ghost use Rattle.goto_check.specs.Wanted.{shape, wanted, wanted_slots};

use crate::reads::{reads_expr, reads_select};
use away_trees::{Expr, Select};
use away_values::Class;
use block_forms::{Block, End, Goto, Term};

/// The slots that a term is to read: so many by number, or those of a source expression or of a select.
#[derive(Clone, Copy)]
pub(crate) enum Reads<'a> {
    Nothing,
    One(usize),
    Two(usize, usize),
    Expr(&'a Expr),
    Select(&'a Select),
}

/// A term that a pattern asks for.
#[derive(Clone, Copy)]
pub(crate) struct Wanted<'a> {
    pub(crate) expr: usize,
    pub(crate) reads: Reads<'a>,
}

/// A block that a pattern asks for: one that sets a slot and jumps, or one that sets nothing.
#[derive(Clone, Copy)]
pub(crate) enum Shape<'a> {
    Sets(usize, &'a Wanted<'a>, usize),
    Branch(bool, &'a Wanted<'a>, usize, usize),
    Jump(bool, usize),
    Return(&'a Wanted<'a>),
    Fail(Class),
}

fn are_slots(names: &[u32], reads: &Reads<'_>) -> bool
    ensures { IsTrue result ↔ (names.now ≡ wanted_slots reads.now) }
{
    match *reads {
        Reads::Nothing => names.is_empty(),
        Reads::One(a) => names.len() == 1 && names[0] as usize == a,
        Reads::Two(a, b) => { names.len() == 2 && names[0] as usize == a && names[1] as usize == b }
        Reads::Expr(e) => reads_expr(e, names),
        Reads::Select(s) => reads_select(s, names),
    }
}

fn is_term(t: &Term, want: &Wanted<'_>) -> bool
    ensures { IsTrue result ↔ (t.now ≡ wanted want.now) }
{
    if t.expr as usize != want.expr {
        return false;
    }
    are_slots(t.names.as_slice(), &want.reads)
}

fn is_sets(block: &Block, slot: usize, want: &Wanted<'_>, next: usize) -> bool
    ensures { IsTrue result ↔ (block.now ≡ sets slot (wanted want.now) next) }
{
    match &block.set {
        None => false,
        Some(set) => match &block.end {
            End::Jump(to) => {
                !block.head
                    & (set.0 as usize == slot)
                    & (*to as usize == next)
                    & is_term(&set.1, want)
            }
            _ => false,
        },
    }
}

fn is_branch(block: &Block, head: bool, want: &Wanted<'_>, y: usize, n: usize) -> bool
    ensures { IsTrue result ↔ (block.now ≡ branches head (wanted want.now) y n) }
{
    match &block.set {
        Some(_) => false,
        None => match &block.end {
            End::Branch(t, yes, no) => {
                (block.head == head) & (*yes as usize == y) & (*no as usize == n) & is_term(t, want)
            }
            _ => false,
        },
    }
}

fn is_jump(block: &Block, head: bool, next: usize) -> bool
    ensures { IsTrue result ↔ (block.now ≡ jumps head next) }
{
    match &block.set {
        Some(_) => false,
        None => match &block.end {
            End::Jump(to) => (block.head == head) & (*to as usize == next),
            _ => false,
        },
    }
}

fn is_return(block: &Block, want: &Wanted<'_>) -> bool
    ensures { IsTrue result ↔ (block.now ≡ returns (wanted want.now)) }
{
    match &block.set {
        Some(_) => false,
        None => match &block.end {
            End::Return(t) => !block.head & is_term(t, want),
            _ => false,
        },
    }
}

fn is_fail(block: &Block, class: Class) -> bool
    ensures { IsTrue result ↔ (block.now ≡ fails class) }
{
    match &block.set {
        Some(_) => false,
        None => match &block.end {
            End::Fail(c) => !block.head & (*c == class),
            _ => false,
        },
    }
}

fn has_shape(block: &Block, want: &Shape<'_>) -> bool
    ensures { IsTrue result ↔ (block.now ≡ shape want.now) }
{
    match *want {
        Shape::Sets(slot, term, next) => is_sets(block, slot, term, next),
        Shape::Branch(head, term, yes, no) => is_branch(block, head, term, yes, no),
        Shape::Jump(head, next) => is_jump(block, head, next),
        Shape::Return(term) => is_return(block, term),
        Shape::Fail(class) => is_fail(block, class),
    }
}

/// Whether the block stands at the place.
#[tactic(auto, using(crate::proofs::Blocks::found_rules))]
pub(crate) fn is_shape(g: &Goto, at: usize, want: &Shape<'_>) -> bool
    ensures { result ≡ is_found (slice_get g.now.blocks at) (shape want.now) }
{
    match g.blocks.get(at) {
        None => false,
        Some(block) => has_shape(block, want),
    }
}
