//! The body of a label as a tree: its block, and all blocks behind it up to calls of labels.

ghost use Rattle.std.specs.Prelude.{◌≡◌, [], get_or, slice_get, IfOk, Some};
ghost use Rattle.call_forms.specs.Bodies as spec;
ghost use Rattle.call_forms.specs.Forms as forms;
ghost use Rattle.turn_bodies.specs.Trees.{as_body};

use crate::places::{params_of, place_of, places_at};
use away_values::{Class, NoMemory};
use block_forms::Term;
use call_forms::{Anf, AnfBlock, Call, CallEnd, Tail};
use sqlite_items::{Boxed, Items};
use std::alloc::Global;

/// What a label does from its first block on.
#[derive(Drop)]
pub enum Body {
    Sets(u32, Term, Boxed<Body>),
    /// The parameters of a block that is no label, what is passed, and the block.
    Enters(Items<u32>, Items<u32>, Boxed<Body>),
    Picks(Term, Boxed<Body>, Boxed<Body>),
    Returns(Term),
    Fails(Class),
    /// A label, counted from 0, its places and what is passed.
    Calls(usize, Items<u32>, Items<u32>),
    /// Where more blocks would follow than there are.
    Endless,
}

fn copied_term(alloc: Global, term: &Term) -> Result<Term, NoMemory>
    ensures { IfOk result (λ t. t ≡ term.now) }
{
    Ok(Term {
        expr: term.expr,
        names: Items::from_slice(alloc, term.names.as_slice())?,
    })
}

/// The assignment of a block, and what follows it.
fn set_before(alloc: Global, name: u32, term: &Term, rest: Boxed<Body>) -> Result<Body, NoMemory>
    ensures { IfOk result (λ b. as_body b ≡ spec.sets name term.now (as_body rest)) }
{
    Ok(Body::Sets(name, copied_term(alloc, term)?, rest))
}

/// A test, and what follows on its two ways.
fn picked(alloc: Global, term: &Term, yes: Boxed<Body>, no: Boxed<Body>) -> Result<Body, NoMemory>
    ensures { IfOk result (λ b. as_body b ≡ spec.picks term.now (as_body yes) (as_body no)) }
{
    Ok(Body::Picks(copied_term(alloc, term)?, yes, no))
}

/// A call of a label.
fn called(alloc: Global, tail: &Tail, label: usize, call: &Call) -> Result<Body, NoMemory>
    ensures { IfOk result (λ b. as_body b
        ≡ spec.calls label (get_or tail.now.places label []) call.now.args) }
{
    let places = Items::from_slice(alloc, places_at(tail, label))?;
    let args = Items::from_slice(alloc, call.args.as_slice())?;
    Ok(Body::Calls(label, places, args))
}

/// A call of a block that is no label, and what follows from that block on.
fn entered(alloc: Global, anf: &Anf, call: &Call, rest: Boxed<Body>) -> Result<Body, NoMemory>
    ensures { IfOk result (λ b. as_body b
        ≡ spec.enters (forms.params_of (slice_get anf.now.blocks call.now.target)) call.now.args
        (as_body rest)) }
{
    let params = Items::from_slice(alloc, params_of(anf, call.target as usize))?;
    let args = Items::from_slice(alloc, call.args.as_slice())?;
    Ok(Body::Enters(params, args, rest))
}

#[cycle(trees)]
fn behind_call(
    alloc: Global,
    anf: &Anf,
    tail: &Tail,
    left: usize,
    call: &Call,
) -> Result<Body, NoMemory>
    ensures { IfOk result (λ b. as_body b
        ≡ spec.goes anf.now tail.now (spec.tree anf.now tail.now left) call.now) }
{
    match place_of(tail.labels.as_slice(), call.target) {
        Some(label) => called(alloc, tail, label, call),
        None => {
            let rest = boxed_tree(alloc, anf, tail, left, call.target)?;
            entered(alloc, anf, call, rest)
        }
    }
}

#[cycle(trees)]
fn boxed_call(
    alloc: Global,
    anf: &Anf,
    tail: &Tail,
    left: usize,
    call: &Call,
) -> Result<Boxed<Body>, NoMemory>
    ensures { IfOk result (λ b. as_body b
        ≡ spec.goes anf.now tail.now (spec.tree anf.now tail.now left) call.now) }
{
    let body = behind_call(alloc, anf, tail, left, call)?;
    Ok(Boxed::new(alloc, body)?)
}

#[cycle(trees)]
fn end_of(
    alloc: Global,
    anf: &Anf,
    tail: &Tail,
    left: usize,
    end: &CallEnd,
) -> Result<Body, NoMemory>
    ensures { IfOk result (λ b. as_body b
        ≡ spec.end_body anf.now tail.now (spec.tree anf.now tail.now left) end.now) }
{
    match end {
        CallEnd::Go(call) => behind_call(alloc, anf, tail, left, call),
        CallEnd::Pick(term, yes, no) => {
            let first = boxed_call(alloc, anf, tail, left, yes)?;
            let second = boxed_call(alloc, anf, tail, left, no)?;
            picked(alloc, term, first, second)
        }
        CallEnd::Return(term) => Ok(Body::Returns(copied_term(alloc, term)?)),
        CallEnd::Fail(class) => Ok(Body::Fails(*class)),
    }
}

#[cycle(trees)]
fn block_of(
    alloc: Global,
    anf: &Anf,
    tail: &Tail,
    left: usize,
    block: &AnfBlock,
) -> Result<Body, NoMemory>
    ensures { IfOk result (λ b. as_body b
        ≡ spec.block_body anf.now tail.now (spec.tree anf.now tail.now left) (Some block.now)) }
{
    let end = end_of(alloc, anf, tail, left, &block.end)?;
    match &block.set {
        None => Ok(end),
        Some((name, term)) => {
            let rest = Boxed::new(alloc, end)?;
            set_before(alloc, *name, term, rest)
        }
    }
}

/// The tree from a block on, through so many blocks at most.
#[cycle(trees)]
fn tree_of(alloc: Global, anf: &Anf, tail: &Tail, most: usize, block: u32) -> Result<Body, NoMemory>
    ensures { IfOk result (λ b. as_body b ≡ spec.tree anf.now tail.now most block) }
{
    if most == 0 {
        return Ok(Body::Endless);
    }
    match anf.blocks.get(block as usize) {
        None => Ok(Body::Endless),
        Some(x) => block_of(alloc, anf, tail, most - 1, x),
    }
}

#[cycle(trees)]
fn boxed_tree(
    alloc: Global,
    anf: &Anf,
    tail: &Tail,
    most: usize,
    block: u32,
) -> Result<Boxed<Body>, NoMemory>
    ensures { IfOk result (λ b. as_body b ≡ spec.tree anf.now tail.now most block) }
{
    let body = tree_of(alloc, anf, tail, most, block)?;
    Ok(Boxed::new(alloc, body)?)
}

/// The body of a block that is a label: its own block counts among as many blocks as there are.
pub fn body_of(alloc: Global, anf: &Anf, tail: &Tail, block: u32) -> Result<Body, NoMemory>
    ensures { IfOk result (λ b. as_body b ≡ spec.body_of anf.now tail.now block) }
{
    tree_of(alloc, anf, tail, anf.blocks.len(), block)
}
