//! What stands next, before anything is taken.

ghost use Rattle.std.specs.Prelude.{◌≡◌};
ghost use Rattle.away_grammar.specs.FunctionGrammar.{opens_loop};
ghost use Rattle.sql_text.specs.CodeTerminals.{meaning_of};
ghost use Rattle.plsql_parse.specs.Sorts.{is_name};
ghost use Rattle.plsql_parse.specs.Bodies as plan;
ghost use Rattle.plsql_parse.specs.Taken as taken;

use away_grammar::Mark;
use sql_text::{Cursor, Terminal};

/// Whether a block or a loop stands next.
pub(crate) fn sees_opening(tokens: &Cursor<'_>) -> bool
    ensures { result ≡ plan.next plan.opens tokens.now }
{
    match tokens.peek() {
        Some(Terminal::Mark(mark)) => opens(mark),
        _ => false,
    }
}

fn opens(mark: Mark) -> bool
    ensures { result ≡ plan.opens mark }
{
    match mark {
        Mark::Declare | Mark::Begin | Mark::Loop | Mark::While | Mark::For => true,
        _ => false,
    }
}

/// Whether a block stands next.
pub fn sees_block(tokens: &Cursor<'_>) -> bool
    ensures { result ≡ plan.next plan.opens_block tokens.now }
{
    match tokens.peek() {
        Some(Terminal::Mark(mark)) => opens_block(mark),
        _ => false,
    }
}

fn opens_block(mark: Mark) -> bool
    ensures { result ≡ plan.opens_block mark }
{
    match mark {
        Mark::Declare | Mark::Begin => true,
        _ => false,
    }
}

/// Whether what stands next ends a list of statements.
pub fn sees_closing(tokens: &Cursor<'_>) -> bool
    ensures { result ≡ plan.next plan.closes tokens.now }
{
    match tokens.peek() {
        Some(Terminal::Mark(mark)) => closes(mark),
        _ => false,
    }
}

fn closes(mark: Mark) -> bool
    ensures { result ≡ plan.closes mark }
{
    match mark {
        Mark::End | Mark::Else | Mark::Elsif | Mark::Elseif | Mark::When => true,
        _ => false,
    }
}

/// Whether a name stands next.
pub fn sees_name(tokens: &Cursor<'_>) -> bool
    ensures { result ≡ is_name tokens.now }
{
    match tokens.peek() {
        Some(Terminal::Name(_)) => true,
        _ => false,
    }
}

/// Whether a loop opens behind this place: a LOOP stands there, and no END directly before the first one. An expression has no
/// LOOP, so this is the one behind the condition or the bounds that begin here.
pub(crate) fn sees_loop(tokens: &Cursor<'_>) -> bool
    ensures { result ≡ opens_loop tokens.now }
{
    let mut ahead = tokens.ahead();
    let mut behind_end = false;
    while let Some(terminal) = ahead.take() {
        if is_loop(terminal) {
            return !behind_end;
        }
        behind_end = is_end(terminal);
    }
    false
}

fn is_loop(terminal: Terminal<'_>) -> bool
    ensures { result ≡ taken.is_loop (meaning_of terminal.entry) }
{
    match terminal {
        Terminal::Mark(Mark::Loop) => true,
        _ => false,
    }
}

fn is_end(terminal: Terminal<'_>) -> bool
    ensures { result ≡ taken.is_end (meaning_of terminal.entry) }
{
    match terminal {
        Terminal::Mark(Mark::End) => true,
        _ => false,
    }
}
