//! Blocks by their ends.

ghost use Rattle.std.specs.Prelude.{◌≡◌, false};
ghost use Rattle.block_forms.specs.Patterns as spec;

use away_values::Class;
use block_forms::{Block, End, Term};

pub(crate) fn sets(slot: u32, term: Term, next: u32) -> Block
    ensures { result ≡ spec.sets slot term next }
{
    Block {
        head: false,
        set: Some((slot, term)),
        end: End::Jump(next),
    }
}

pub(crate) fn branches(head: bool, term: Term, yes: u32, no: u32) -> Block
    ensures { result ≡ spec.branches head term yes no }
{
    Block {
        head,
        set: None,
        end: End::Branch(term, yes, no),
    }
}

pub(crate) fn jumps(head: bool, next: u32) -> Block
    ensures { result ≡ spec.jumps head next }
{
    Block {
        head,
        set: None,
        end: End::Jump(next),
    }
}

pub(crate) fn returns(term: Term) -> Block
    ensures { result ≡ spec.returns term }
{
    Block {
        head: false,
        set: None,
        end: End::Return(term),
    }
}

pub(crate) fn fails(class: Class) -> Block
    ensures { result ≡ spec.fails class }
{
    Block {
        head: false,
        set: None,
        end: End::Fail(class),
    }
}
