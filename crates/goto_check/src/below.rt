//! Whether the slots that blocks read and set are the function's, and no block leads to the entry.

ghost use Rattle.std.specs.Prelude.{◌≡◌, ◌↔◌, IsTrue, ◌<◌};
ghost use Rattle.block_forms.specs.Lowered.{TermBelow, SetBelow, EndBelow, BlockBelow, NoWayTo, end_leads};
ghost use Rattle.block_forms.specs.Places.{Each};
ghost use Rattle.goto_check.specs.Below.{AreBelow};

use block_forms::{Block, End, Term};

fn are_below(names: &[u32], slots: usize) -> bool
    ensures { IsTrue result ↔ AreBelow slots names.now }
{
    names.iter().all(|s| (*s as usize) < slots)
}

fn is_term_below(t: &Term, slots: usize) -> bool
    ensures { IsTrue result ↔ TermBelow slots t.now }
{
    are_below(t.names.as_slice(), slots)
}

fn is_set_below(set: &Option<(u32, Term)>, slots: usize) -> bool
    ensures { IsTrue result ↔ SetBelow slots set.now }
{
    match set {
        None => true,
        Some(set) => ((set.0 as usize) < slots) & is_term_below(&set.1, slots),
    }
}

fn is_end_below(end: &End, slots: usize) -> bool
    ensures { IsTrue result ↔ EndBelow slots end.now }
{
    match end {
        End::Jump(_) => true,
        End::Branch(t, _, _) => is_term_below(t, slots),
        End::Return(t) => is_term_below(t, slots),
        End::Fail(_) => true,
    }
}

fn is_block_below(x: &Block, slots: usize) -> bool
    ensures { IsTrue result ↔ BlockBelow slots x.now }
{
    is_set_below(&x.set, slots) & is_end_below(&x.end, slots)
}

/// Whether every slot is below their number.
pub(crate) fn slots_below(blocks: &[Block], slots: usize) -> bool
    ensures { IsTrue result ↔ Each (BlockBelow slots) blocks.now }
{
    blocks.iter().all(|x| is_block_below(x, slots))
}

fn leads(end: &End, entry: usize) -> bool
    ensures { result ≡ end_leads end.now entry }
{
    match end {
        End::Jump(c) => *c as usize == entry,
        End::Branch(_, y, n) => *y as usize == entry || *n as usize == entry,
        End::Return(_) => false,
        End::Fail(_) => false,
    }
}

/// Whether no block leads to the entry.
pub(crate) fn no_way_to(entry: usize, blocks: &[Block]) -> bool
    ensures { IsTrue result ↔ Each (NoWayTo entry) blocks.now }
{
    blocks.iter().all(|x| !leads(&x.end, entry))
}
