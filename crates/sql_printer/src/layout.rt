//! The text of terminals: one space between two tokens, except behind `(` and `.`, before `)`, `,` and `.`, and between a word
//! that calls and `(`; and one LF at the end.

ghost use Rattle.std.specs.Prelude.{◌≡◌, ◌++◌, ◌∷◌, [], ◌&&◌, ◌||◌, if◌then◌else◌, IfOk, OnOk, map, option_map, string_bytes};
ghost use Rattle.away_grammar.specs.Printing.{mark_spelled, terminals_text, spelled};
ghost use Rattle.away_grammar.specs.Spacing.{is_glued as glued, is_one};
ghost use Rattle.away_grammar.specs.Tokens.{is_word_kind};
ghost use Rattle.away_grammar.specs.Reserved as reserved;
ghost use Rattle.sql_printer.specs.PrintedTerminals as spec;
ghost use Rattle.sql_printer.specs.PrintedTerminals.{terminal_of};

use crate::spelling::{mark_text, push_quoted};
use crate::terminal_list::PrintedTerminal;
use away_grammar::Mark;
use away_lex::is_reserved;
use away_values::NoMemory;
use std::alloc::Global;

/// The text of the terminals.
pub fn laid_out(alloc: Global, terminals: &[PrintedTerminal<'_>]) -> Result<String, NoMemory>
    ensures { IfOk result (λ text. string_bytes text
        ≡ terminals_text (map terminal_of terminals.now)) }
{
    let mut text = String::new(alloc);
    let mut before = None;
    for terminal in terminals {
        push_space(&mut text, is_spaced(before, *terminal))?;
        push_terminal(alloc, &mut text, *terminal)?;
        before = Some(*terminal);
    }
    text.push_str("\n")?;
    Ok(text)
}

fn push_space(text: &mut String, spaced: bool) -> Result<(), NoMemory>
    ensures { OnOk result (string_bytes text.new ≡ string_bytes text.old
        ++ (if spaced then 32 ∷ [] else [])) }
{
    if spaced {
        text.push_str(" ")?;
    }
    Ok(())
}

fn push_terminal(
    alloc: Global,
    text: &mut String,
    terminal: PrintedTerminal<'_>,
) -> Result<(), NoMemory>
    ensures { OnOk result (string_bytes text.new ≡ string_bytes text.old
        ++ (spelled (terminal_of terminal.entry)).text) }
{
    match terminal {
        PrintedTerminal::Mark(mark) => text.push_str(mark_text(mark))?,
        PrintedTerminal::Name(name) => text.push_str(name)?,
        PrintedTerminal::Quote(quote) => text.push_str(quote)?,
        PrintedTerminal::Integer(number) => write!(text, "{number}")?,
        PrintedTerminal::Text(word) => return push_quoted(alloc, text, word.text()),
        PrintedTerminal::Parameter(number) => write!(text, "${number}")?,
    }
    Ok(())
}

/// Whether a space stands between what is before, if something is, and a terminal.
fn is_spaced(before: Option<PrintedTerminal<'_>>, terminal: PrintedTerminal<'_>) -> bool
    ensures { result ≡ spec.is_spaced (option_map terminal_of before.entry)
        (terminal_of terminal.entry) }
{
    match before {
        None => false,
        Some(before) => !is_glued(before, terminal),
    }
}

fn is_glued(before: PrintedTerminal<'_>, terminal: PrintedTerminal<'_>) -> bool
    ensures { result ≡ glued reserved.calls (spelled (terminal_of before.entry))
        (spelled (terminal_of terminal.entry)) }
{
    opens(before) || closes(terminal) || (calls(before) && is_opening(terminal))
}

/// Whether no space stands behind it.
fn opens(terminal: PrintedTerminal<'_>) -> bool
    ensures { result ≡ (is_one 40 (spelled (terminal_of terminal.entry)) || is_one 46
        (spelled (terminal_of terminal.entry))) }
{
    matches!(terminal, PrintedTerminal::Mark(Mark::Open | Mark::Dot))
}

/// Whether no space stands before it.
fn closes(terminal: PrintedTerminal<'_>) -> bool
    ensures { result ≡ (is_one 41 (spelled (terminal_of terminal.entry))
        || (is_one 44 (spelled (terminal_of terminal.entry)) || is_one 46
        (spelled (terminal_of terminal.entry)))) }
{
    matches!(
        terminal,
        PrintedTerminal::Mark(Mark::Close | Mark::Comma | Mark::Dot)
    )
}

fn is_opening(terminal: PrintedTerminal<'_>) -> bool
    ensures { result ≡ is_one 40 (spelled (terminal_of terminal.entry)) }
{
    matches!(terminal, PrintedTerminal::Mark(Mark::Open))
}

/// Whether it is a word that `(` follows without a space: one that isn't reserved, or that reads as a function's name.
fn calls(terminal: PrintedTerminal<'_>) -> bool
    ensures { result ≡ (is_word_kind (spelled (terminal_of terminal.entry)).kind && reserved.calls
        (spelled (terminal_of terminal.entry)).text) }
{
    match terminal {
        PrintedTerminal::Mark(mark) => mark_calls(mark),
        PrintedTerminal::Name(name) => name_calls(name),
        PrintedTerminal::Integer(_)
        | PrintedTerminal::Text(_)
        | PrintedTerminal::Parameter(_)
        | PrintedTerminal::Quote(_) => false,
    }
}

#[tactic(auto, unfolding(away_grammar::specs::Reserved::calls, away_grammar::specs::Reserved::is_reserved))]
fn mark_calls(mark: Mark) -> bool
    ensures { result ≡ (is_word_kind (mark_spelled mark).kind && reserved.calls
        (mark_spelled mark).text) }
{
    matches!(
        mark,
        Mark::Cast | Mark::Coalesce | Mark::Exists | Mark::Greatest | Mark::Least
    )
}

#[tactic(auto, unfolding(away_grammar::specs::Reserved::calls))]
fn name_calls(name: &str) -> bool
    ensures { result ≡ reserved.calls name.now }
{
    !is_reserved(name)
        || name.eq_ignore_ascii_case("cast")
        || name.eq_ignore_ascii_case("coalesce")
        || name.eq_ignore_ascii_case("greatest")
        || name.eq_ignore_ascii_case("least")
        || name.eq_ignore_ascii_case("exists")
}
