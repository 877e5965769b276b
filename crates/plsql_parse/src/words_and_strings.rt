//! The words and strings that the readers of functions take.

ghost use Rattle.std.specs.Prelude.{◌≡◌, ◌≤◌, ◌<◌, true, false, length, IfOk};
ghost use Rattle.std.specs.Bool.{OnTrue, OnFalse};
ghost use Rattle.away_grammar.specs.Reserved.{folded};
ghost use Rattle.sql_text.specs.Plans.{first, tail};
ghost use Rattle.sql_text.specs.CodeTerminals.{Found};
ghost use Rattle.plsql_parse.specs.Sorts.{begins_word, string_in};

use away_values::Word;
use sql_text::{Cursor, Refusal, Terminal, text_of};
use std::alloc::Global;

/// Takes the name that is this word, in any case, if it stands next.
pub(crate) fn eat_word(tokens: &mut Cursor<'_>, word: &str) -> bool
    ensures yes { OnTrue result ((begins_word (folded word.now) tokens.old ≡ true)
        × (tokens.new ≡ tail tokens.old)) }
    ensures no { OnFalse result ((begins_word (folded word.now) tokens.old ≡ false)
        × (tokens.new ≡ tokens.old)) }
    ensures shrinks { length tokens.new ≤ length tokens.old }
    ensures shorter { OnTrue result (length tokens.new < length tokens.old) }
{
    let found = match tokens.peek() {
        Some(Terminal::Name(text)) => text.eq_ignore_ascii_case(word),
        _ => false,
    };
    if found {
        tokens.take();
    }
    found
}

/// Takes what stands next, which has to be a string, and gives the text that it spells.
pub(crate) fn string(alloc: Global, tokens: &mut Cursor<'_>) -> Result<Word, Refusal>
    ensures found { Found (string_in (first tokens.old)) result }
    ensures rest { tokens.new ≡ tail tokens.old }
    ensures shrinks { length tokens.new ≤ length tokens.old }
    ensures shorter { IfOk result (λ _. length tokens.new < length tokens.old) }
{
    match tokens.take() {
        Some(Terminal::Text(text)) => Ok(text_of(alloc, text)?),
        _ => Err(Refusal::NoTree),
    }
}
