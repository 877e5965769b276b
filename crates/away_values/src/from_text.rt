//! Words and names from texts.

ghost use Rattle.std.specs.List.{list_all};
ghost use Rattle.std.specs.Prelude.{◌≡◌, ◌↔◌, IfOk, IsTrue, MatchOption, chars, eqb, not};
ghost use Rattle.away_values.specs.Words.{IsName, IsWord, is_name_byte};

use crate::errors::NoMemory;
use crate::words::{LONGEST_NAME, LONGEST_TEXT, Name, Word};
use std::alloc::Global;

/// The text as a word, or None where it is longer than a text may be or contains U+0000. PostgreSQL has no U+0000 in a text
/// either (PostgreSQL manual, 8.3, Character Types).
pub fn word(alloc: Global, text: &str) -> Result<Option<Word>, NoMemory>
    ensures { IfOk result (λ found. MatchOption found (¬ (IsWord text.now))
        (λ w. IsWord text.now × (w ≡ chars text.now))) }
{
    if !is_word(text) {
        return Ok(None);
    }
    Ok(Some(Word::from_string(String::from_str(alloc, text)?)))
}

/// The text as a name, or None where it isn't one to 63 characters, each a lower-case ASCII letter, a digit or `_`.
/// The manual: 4.1.1, Identifiers and Key Words; that no other letters stand in a name is our own choice.
pub fn name(alloc: Global, text: &str) -> Result<Option<Name>, NoMemory>
    ensures { IfOk result (λ found. MatchOption found (¬ (IsName text.now))
        (λ n. IsName text.now × (n ≡ text.now))) }
{
    if !is_name(text) {
        return Ok(None);
    }
    Ok(Some(Name::from_string(String::from_str(alloc, text)?)))
}

fn is_word(text: &str) -> bool
    ensures { IsTrue result ↔ IsWord text.now }
{
    text.len() <= LONGEST_TEXT && has_no_zero(text)
}

fn has_no_zero(text: &str) -> bool
    ensures { result ≡ list_all (λ b. not (eqb b 0)) text.now }
{
    text.as_bytes().iter().all(|b| *b != 0)
}

fn is_name(text: &str) -> bool
    ensures { IsTrue result ↔ IsName text.now }
{
    !text.is_empty() && text.len() <= LONGEST_NAME && has_plain_bytes(text)
}

fn has_plain_bytes(text: &str) -> bool
    ensures { result ≡ list_all is_name_byte text.now }
{
    text.as_bytes().iter().all(|b| is_plain(*b))
}

fn is_plain(byte: u8) -> bool
    ensures { result ≡ is_name_byte byte }
{
    byte.is_ascii_lowercase() || byte.is_ascii_digit() || byte == b'_'
}
