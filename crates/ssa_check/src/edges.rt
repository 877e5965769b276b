//! The checks of φs and of edges.

ghost use Rattle.std.specs.Prelude.{◌≡◌, ℕ, ◌↔◌, IsTrue, true, Some, None, Option, slice_get, map, if◌then◌else◌, nat_eq};
ghost use Rattle.block_forms.specs.Forms.{at_key, source, phi_named, taken_from, AtTargets};
ghost use Rattle.block_forms.specs.Lowered.{end_leads};
ghost use Rattle.block_forms.specs.Named.{OperandsOfPredecessors, leads, Gives, Feeds, EdgesFed, PhisOfPredecessors, with_pair};
ghost use Rattle.block_forms.specs.Places.{Each, EachAt, IsThere};

use crate::maps::{at_key, keys_differ};
use crate::terms::{renewal, renewed_key};
use block_forms::{Block, End, Phi, SsaBlock};

/// Whether the end leads to block c.
pub(crate) fn end_leads(end: &End, c: usize) -> bool
    ensures { result ≡ end_leads end.now c }
{
    match end {
        End::Jump(a) => *a as usize == c,
        End::Branch(_, a, b) => *a as usize == c || *b as usize == c,
        End::Return(_) => false,
        End::Fail(_) => false,
    }
}

/// Whether block b leads to block c.
pub(crate) fn leads(blocks: &[Block], b: u32, c: usize) -> bool
    ensures { result ≡ leads (slice_get blocks.now b) c }
{
    match blocks.get(b as usize) {
        None => false,
        Some(block) => end_leads(&block.end, c),
    }
}

/// Each operand is of a predecessor of block c.
fn of_predecessors(blocks: &[Block], c: usize, operands: &[(u32, u32)]) -> bool
    ensures { IsTrue result ↔ Each (λ p. leads (slice_get blocks.now p.0) c ≡ true) operands.now }
{
    operands.iter().all(|operand| leads(blocks, operand.0, c))
}

fn has_operand(operands: &[(u32, u32)], b: usize) -> bool
    ensures { IsTrue result ↔ IsThere (at_key operands.now b) }
{
    at_key(operands, b).is_some()
}

/// Each predecessor of block c has an operand.
fn of_each_predecessor(blocks: &[Block], c: usize, operands: &[(u32, u32)]) -> bool
    ensures { IsTrue result ↔ EachAt (λ b x. end_leads x.end c ≡ true
        → IsThere (at_key operands.now b)) blocks.now }
{
    blocks.iter().enumerate().all(|(b, block)| !end_leads(&block.end, c)
        || has_operand(operands, b))
}

/// One operand for each predecessor of block c, and no others.
pub(crate) fn operands_of_predecessors(blocks: &[Block], c: usize, phi: &Phi) -> bool
    ensures { IsTrue result ↔ OperandsOfPredecessors blocks.now c phi.now }
{
    if !of_predecessors(blocks, c, phi.operands.as_slice()) {
        return false;
    }
    if !of_each_predecessor(blocks, c, phi.operands.as_slice()) {
        return false;
    }
    keys_differ(phi.operands.as_slice())
}

/// The φs of block c have their operands.
pub(crate) fn phis_of_predecessors(blocks: &[Block], c: usize, phis: &[Phi]) -> bool
    ensures { IsTrue result ↔ Each (λ f. OperandsOfPredecessors blocks.now c f) phis.now }
{
    phis.iter()
        .all(|phi| operands_of_predecessors(blocks, c, phi))
}

/// The name whose value a name takes from block b.
fn source(phis: &[Phi], b: usize, name: u32) -> Option<u32>
    ensures { result ≡ source phis.now b name }
{
    for phi in phis {
        if phi.name == name {
            return at_key(phi.operands.as_slice(), b);
        }
    }
    Some(name)
}

fn gives(exit: Option<u32>, taken: Option<u32>) -> bool
    ensures { IsTrue result ↔ Gives exit taken }
{
    match exit {
        None => false,
        Some(name) => taken == Some(name),
    }
}

fn feeds_block(b: usize, first: Option<(u32, u32)>, pairs: &[(u32, u32)], block: &SsaBlock) -> bool
    ensures { IsTrue result ↔ Each (λ p. Gives (at_key (with_pair first pairs.now) p.0)
        (source block.now.phis b p.1)) block.now.map }
{
    block.map.as_slice().iter().all(|p| gives(
        renewed_key(first, pairs, p.0),
        source(block.phis.as_slice(), b, p.1),
    ))
}

/// From block b each slot of the target's map has the name that its own name takes.
fn feeds(
    b: usize,
    first: Option<(u32, u32)>,
    pairs: &[(u32, u32)],
    blocks: &[SsaBlock],
    target: u32,
) -> bool
    ensures { IsTrue result ↔ Feeds b (with_pair first pairs.now) (slice_get blocks.now target) }
{
    match blocks.get(target as usize) {
        None => false,
        Some(block) => feeds_block(b, first, pairs, block),
    }
}

/// Each target of the end is fed.
fn targets_fed(
    b: usize,
    first: Option<(u32, u32)>,
    pairs: &[(u32, u32)],
    blocks: &[SsaBlock],
    end: &End,
) -> bool
    ensures { IsTrue result ↔ AtTargets
        (λ c. Feeds b (with_pair first pairs.now) (slice_get blocks.now c)) end.now }
{
    match end {
        End::Jump(c) => feeds(b, first, pairs, blocks, *c),
        End::Branch(_, c, d) => {
            if !feeds(b, first, pairs, blocks, *c) {
                return false;
            }
            feeds(b, first, pairs, blocks, *d)
        }
        End::Return(_) => true,
        End::Fail(_) => true,
    }
}

/// Each edge from block b feeds the map of its target.
pub(crate) fn edges_fed(blocks: &[SsaBlock], b: usize, x: &Block, y: &SsaBlock) -> bool
    ensures { IsTrue result ↔ EdgesFed blocks.now b x.now y.now }
{
    targets_fed(b, renewal(&x.set, &y.set), y.map.as_slice(), blocks, &x.end)
}

/// The φs of block c have one operand for each predecessor.
pub(crate) fn phis_of_block(blocks: &[Block], c: usize, y: &SsaBlock) -> bool
    ensures { IsTrue result ↔ PhisOfPredecessors blocks.now c y.now }
{
    phis_of_predecessors(blocks, c, y.phis.as_slice())
}
