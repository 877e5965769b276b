//! What is read from a form.

ghost use Rattle.std.specs.Prelude.{◌≡◌, ◌+◌, ◌<◌, ◌≤◌, ◌^◌, length};
ghost use Rattle.block_forms.specs.Patterns.{node, jump_of, yes_of, no_of, tests, first_test, is_pair, after_bound};

use block_forms::{Block, End, Goto};

/// The first block of a node.
pub(crate) fn node(g: &Goto, i: usize) -> usize
    ensures { result ≡ node g.now i }
{
    match g.nodes.get(i) {
        None => 0,
        Some(b) => *b as usize,
    }
}

/// Where a block jumps.
pub(crate) fn jump_of(g: &Goto, b: usize) -> usize
    ensures { result ≡ jump_of g.now b }
{
    match g.blocks.get(b) {
        None => 0,
        Some(block) => match &block.end {
            End::Jump(to) => *to as usize,
            _ => 0,
        },
    }
}

/// Where a branch leads that is taken.
pub(crate) fn yes_of(g: &Goto, b: usize) -> usize
    ensures { result ≡ yes_of g.now b }
{
    match g.blocks.get(b) {
        None => 0,
        Some(block) => match &block.end {
            End::Branch(_, yes, _) => *yes as usize,
            _ => 0,
        },
    }
}

/// Where a branch leads that is not taken.
pub(crate) fn no_of(g: &Goto, b: usize) -> usize
    ensures { result ≡ no_of g.now b }
{
    match g.blocks.get(b) {
        None => 0,
        Some(block) => match &block.end {
            End::Branch(_, _, no) => *no as usize,
            _ => 0,
        },
    }
}

/// The block after a bound that is set in a block.
pub(crate) fn after_bound(g: &Goto, b: usize) -> usize
    ensures { result ≡ after_bound g.now b }
{
    no_of(g, jump_of(g, b))
}

fn is_pair(a: usize, b: usize, names: &[u32]) -> bool
    ensures { result ≡ is_pair a b names.now }
{
    match names {
        [x, y] => *x as usize == a && *y as usize == b,
        _ => false,
    }
}

fn tests(expr: usize, a: usize, b: usize, end: &End) -> bool
    ensures { result ≡ tests expr a b end.now }
{
    match end {
        End::Branch(t, _, _) => t.expr as usize == expr && is_pair(a, b, t.names.as_slice()),
        _ => false,
    }
}

/// The first block that branches on this entry of the fixed list over these slots.
pub(crate) fn first_test(expr: usize, a: usize, b: usize, blocks: &[Block]) -> usize
    ensures { result ≡ first_test expr a b blocks.now }
{
    for (i, block) in blocks.iter().enumerate() {
        if tests(expr, a, b, &block.end) {
            return i;
        }
    }
    blocks.len()
}
