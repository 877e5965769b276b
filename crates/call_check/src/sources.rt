//! The name that a block's name takes from the block before.

ghost use Rattle.std.specs.Prelude.{◌≡◌, ℕ, ◌↔◌, IsTrue, Some, None, Option, slice_get};
ghost use Rattle.block_forms.specs.Forms.{at_key, source};

use block_forms::Phi;

/// What the first pair with the key has.
fn at_key(pairs: &[(u32, u32)], key: usize) -> Option<u32>
    ensures { result ≡ at_key pairs.now key }
{
    for pair in pairs {
        if pair.0 as usize == key {
            return Some(pair.1);
        }
    }
    None
}

/// The name whose value a name takes from block b.
fn source(phis: &[Phi], b: usize, name: u32) -> Option<u32>
    ensures { result ≡ source phis.now b name }
{
    for phi in phis {
        if phi.name == name {
            return at_key(phi.operands.as_slice(), b);
        }
    }
    Some(name)
}

/// Whether the name takes this one from block b.
pub(crate) fn takes(phis: &[Phi], b: usize, name: u32, taken: u32) -> bool
    ensures { IsTrue result ↔ (source phis.now b name ≡ Some taken) }
{
    source(phis, b, name) == Some(taken)
}
