//! Whether terms, assignments and normal forms are the same.

ghost use Rattle.std.specs.Prelude.{◌≡◌, ℕ, ◌↔◌, IsTrue, List, length, map};

use block_forms::{same_assignment, same_numbers, same_term};
use call_forms::{Anf, AnfBlock, Call, CallEnd};

fn same_call(x: &Call, y: &Call) -> bool
    ensures { IsTrue result ↔ (x.now ≡ y.now) }
{
    x.target == y.target && x.args.as_slice() == y.args.as_slice()
}

fn same_end(x: &CallEnd, y: &CallEnd) -> bool
    ensures { IsTrue result ↔ (x.now ≡ y.now) }
{
    match x {
        CallEnd::Go(c) => match y {
            CallEnd::Go(d) => same_call(c, d),
            _ => false,
        },
        CallEnd::Pick(t, a, b) => match y {
            CallEnd::Pick(u, c, d) => {
                if !same_term(t, u) {
                    return false;
                }
                if !same_call(a, c) {
                    return false;
                }
                same_call(b, d)
            }
            _ => false,
        },
        CallEnd::Return(t) => match y {
            CallEnd::Return(u) => same_term(t, u),
            _ => false,
        },
        CallEnd::Fail(c) => match y {
            CallEnd::Fail(d) => *c == *d,
            _ => false,
        },
    }
}

fn same_block(x: &AnfBlock, y: &AnfBlock) -> bool
    ensures { IsTrue result ↔ (x.now ≡ y.now) }
{
    if !same_numbers(x.params.as_slice(), y.params.as_slice()) {
        return false;
    }
    if !same_assignment(&x.set, &y.set) {
        return false;
    }
    same_end(&x.end, &y.end)
}

fn same_blocks(xs: &[AnfBlock], ys: &[AnfBlock]) -> bool
    requires { length xs.now ≡ length ys.now }
    ensures { IsTrue result ↔ (xs.now ≡ ys.now) }
{
    for b in 0..xs.len() {
        if !same_block(&xs[b], &ys[b]) {
            return false;
        }
    }
    true
}

/// Whether the two normal forms are one, block by block.
pub(crate) fn same_anf(x: &Anf, y: &Anf) -> bool
    ensures { IsTrue result ↔ (x.now ≡ y.now) }
{
    if x.blocks.len() != y.blocks.len() {
        return false;
    }
    same_blocks(x.blocks.as_slice(), y.blocks.as_slice())
}
