//! The checks that assignments and ends are renamed.

ghost use Rattle.std.specs.Prelude.{◌≡◌, ℕ, ◌↔◌, IsTrue, Some, None, Option};
ghost use Rattle.block_forms.specs.Forms.{at_key};
ghost use Rattle.block_forms.specs.Named.{Renamed, TermRenamed, AssignmentRenamed, EndRenamed, BlockRenamed, renewal, with_pair};

use crate::maps::{at_key, has_slot};
use block_forms::{Block, End, SsaBlock, Term};

/// What the first pair with the key has, the given pair before all others.
pub(crate) fn renewed_key(first: Option<(u32, u32)>, pairs: &[(u32, u32)], key: u32) -> Option<u32>
    ensures { result ≡ at_key (with_pair first pairs.now) key }
{
    match first {
        None => at_key(pairs, key as usize),
        Some(pair) => {
            if pair.0 == key {
                Some(pair.1)
            } else {
                at_key(pairs, key as usize)
            }
        }
    }
}

fn is_named(first: Option<(u32, u32)>, pairs: &[(u32, u32)], slot: u32, name: u32) -> bool
    ensures { IsTrue result ↔ (at_key (with_pair first pairs.now) slot ≡ Some name) }
{
    renewed_key(first, pairs, slot) == Some(name)
}

fn renamed(first: Option<(u32, u32)>, pairs: &[(u32, u32)], slots: &[u32], names: &[u32]) -> bool
    ensures { IsTrue result ↔ Renamed (with_pair first pairs.now) slots.now names.now }
{
    if slots.len() != names.len() {
        return false;
    }
    slots
        .iter()
        .zip(names)
        .all(|(slot, name)| is_named(first, pairs, *slot, *name))
}

/// The same expression, each slot replaced by its name.
pub(crate) fn term_renamed(
    first: Option<(u32, u32)>,
    pairs: &[(u32, u32)],
    t: &Term,
    u: &Term,
) -> bool
    ensures { IsTrue result ↔ TermRenamed (with_pair first pairs.now) t.now u.now }
{
    if t.expr != u.expr {
        return false;
    }
    renamed(first, pairs, t.names.as_slice(), u.names.as_slice())
}

pub(crate) fn end_renamed(first: Option<(u32, u32)>, pairs: &[(u32, u32)], x: &End, y: &End) -> bool
    ensures { IsTrue result ↔ EndRenamed (with_pair first pairs.now) x.now y.now }
{
    match x {
        End::Jump(c) => match y {
            End::Jump(d) => *c == *d,
            _ => false,
        },
        End::Branch(t, a, b) => match y {
            End::Branch(u, c, d) => {
                if *a != *c {
                    return false;
                }
                if *b != *d {
                    return false;
                }
                term_renamed(first, pairs, t, u)
            }
            _ => false,
        },
        End::Return(t) => match y {
            End::Return(u) => term_renamed(first, pairs, t, u),
            _ => false,
        },
        End::Fail(c) => match y {
            End::Fail(d) => *c == *d,
            _ => false,
        },
    }
}

pub(crate) fn assignment_renamed(
    names: &[u32],
    pairs: &[(u32, u32)],
    x: &Option<(u32, Term)>,
    y: &Option<(u32, Term)>,
) -> bool
    ensures { IsTrue result ↔ AssignmentRenamed names.now pairs.now x.now y.now }
{
    match x {
        None => match y {
            None => true,
            Some(_) => false,
        },
        Some(a) => match y {
            None => false,
            Some(b) => {
                if !has_slot(names, b.0, a.0) {
                    return false;
                }
                term_renamed(None, pairs, &a.1, &b.1)
            }
        },
    }
}

/// The assigned slot, with its new name.
pub(crate) fn renewal(x: &Option<(u32, Term)>, y: &Option<(u32, Term)>) -> Option<(u32, u32)>
    ensures { result ≡ renewal x.now y.now }
{
    match x {
        None => None,
        Some(a) => match y {
            None => None,
            Some(b) => Some((a.0, b.0)),
        },
    }
}

/// The block's assignment and end are those of the goto form, renamed.
pub(crate) fn block_renamed(names: &[u32], x: &Block, y: &SsaBlock) -> bool
    ensures { IsTrue result ↔ BlockRenamed names.now x.now y.now }
{
    if !assignment_renamed(names, y.map.as_slice(), &x.set, &y.set) {
        return false;
    }
    end_renamed(renewal(&x.set, &y.set), y.map.as_slice(), &x.end, &y.end)
}
