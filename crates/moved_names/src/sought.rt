//! What is looked for in a tree.

ghost use Rattle.std.specs.Prelude.{◌≡◌};
ghost use Rattle.std.specs.List.{list_any};
ghost use Rattle.away_names.specs.Lookups.{is_among as is_among_by};
ghost use Rattle.moved_names.specs.Finding.{holds};
ghost use Rattle.moved_names.specs.Seeking.{sought};

use away_names::lookups::is_kept;
use away_values::Name;

/// A word, calls of some functions, or any name that is kept for the queries that are written.
#[derive(Clone, Copy)]
pub enum Sought<'a> {
    Word(&'a Name),
    Calls(&'a [Name]),
    Kept,
}

pub fn is_among(n: &Name, names: &[Name]) -> bool
    ensures { result ≡ is_among_by n.now names.now }
{
    for m in names {
        if m.text() == n.text() {
            return true;
        }
    }
    false
}

pub(crate) fn is_word(s: Sought<'_>, m: &Name) -> bool
    ensures { result ≡ (sought s.entry).word m.now }
{
    match s {
        Sought::Word(n) => m.text() == n.text(),
        Sought::Calls(_) => false,
        Sought::Kept => is_kept(m),
    }
}

pub(crate) fn is_called(s: Sought<'_>, m: &Name) -> bool
    ensures { result ≡ (sought s.entry).called m.now }
{
    match s {
        Sought::Word(n) => m.text() == n.text(),
        Sought::Calls(names) => is_among(m, names),
        Sought::Kept => is_kept(m),
    }
}

pub(crate) fn is_any_word(s: Sought<'_>, names: &[Name]) -> bool
    ensures { result ≡ list_any (sought s.entry).word names.now }
{
    for m in names {
        if is_word(s, m) {
            return true;
        }
    }
    false
}

pub(crate) fn is_maybe_word(s: Sought<'_>, m: &Option<Name>) -> bool
    ensures { result ≡ holds (sought s.entry).word m.now }
{
    match m {
        None => false,
        Some(m) => is_word(s, m),
    }
}
