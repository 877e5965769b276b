//! Whether two goto forms are one.

ghost use Rattle.std.specs.Prelude.{◌≡◌, ℕ, ◌↔◌, IsTrue, List, length, map};

use block_forms::{Block, End, Goto, same_assignment, same_numbers, same_term};

fn same_end(x: &End, y: &End) -> bool
    ensures { IsTrue result ↔ (x.now ≡ y.now) }
{
    match x {
        End::Jump(c) => match y {
            End::Jump(d) => *c == *d,
            _ => false,
        },
        End::Branch(t, a, b) => match y {
            End::Branch(u, c, d) => {
                if *a != *c {
                    return false;
                }
                if *b != *d {
                    return false;
                }
                same_term(t, u)
            }
            _ => false,
        },
        End::Return(t) => match y {
            End::Return(u) => same_term(t, u),
            _ => false,
        },
        End::Fail(c) => match y {
            End::Fail(d) => *c == *d,
            _ => false,
        },
    }
}

fn same_block(x: &Block, y: &Block) -> bool
    ensures { IsTrue result ↔ (x.now ≡ y.now) }
{
    if x.head != y.head {
        return false;
    }
    if !same_assignment(&x.set, &y.set) {
        return false;
    }
    same_end(&x.end, &y.end)
}

fn same_blocks(xs: &[Block], ys: &[Block]) -> bool
    requires { length xs.now ≡ length ys.now }
    ensures { IsTrue result ↔ (xs.now ≡ ys.now) }
{
    for b in 0..xs.len() {
        if !same_block(&xs[b], &ys[b]) {
            return false;
        }
    }
    true
}

/// Whether the two forms are one, block by block.
pub(crate) fn same_goto(x: &Goto, y: &Goto) -> bool
    ensures { IsTrue result ↔ (x.now ≡ y.now) }
{
    if x.entry != y.entry {
        return false;
    }
    if x.finish != y.finish {
        return false;
    }
    if !same_numbers(x.nodes.as_slice(), y.nodes.as_slice()) {
        return false;
    }
    if x.blocks.len() != y.blocks.len() {
        return false;
    }
    same_blocks(x.blocks.as_slice(), y.blocks.as_slice())
}
