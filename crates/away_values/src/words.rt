//! Names and texts.

ghost use Rattle.std.specs.Prelude.{◌≡◌, IfOk, string_bytes, chars};
ghost use Rattle.away_values.specs.Words.{IsName, IsWord};

use crate::errors::NoMemory;
use std::alloc::Global;
use std::marker::Model;

/// The bytes of the longest text, in UTF-8. The limit is our own.
pub const LONGEST_TEXT: usize = 1_048_576;

/// The characters of the longest name.
/// The manual: 4.1.1, Identifiers and Key Words. PostgreSQL cuts longer names off; here they are no names, which is our own choice.
pub const LONGEST_NAME: usize = 63;

/// A text of at most 1,048,576 bytes of UTF-8 without U+0000. Contracts see it as its list of code points.
/// The limit is our own; U+0000 is left out by the manual, 8.3, Character Types.
#[derive(Debug, Drop)]
pub struct Word {
    text: String,
}

impl Model for Word {
    ghost use Rattle.std.specs.Prelude.{List, ℕ, string_bytes, chars};
    ghost use Rattle.std.specs.Coded.{coded_list, coded_ℕ};
    ghost use Rattle.away_values.specs.Words.{IsWord};

    ghost Value = { List ℕ };

    ghost coded = { coded_list coded_ℕ };

    ghost view = { λ w. chars (string_bytes w.text) };

    ghost invariant = { λ w. IsWord (string_bytes w.text) };
}

impl Word {
    pub(crate) fn from_string(text: String) -> Word
        requires { IsWord (string_bytes text) }
        ensures { result ≡ chars (string_bytes text) }
    {
        Word { text }
    }

    /// The text, in UTF-8.
    pub fn text(&self) -> &str
        ensures within { IsWord result.now }
        ensures value { chars result.now ≡ self.now }
    {
        &self.text
    }

    pub fn copy(&self, alloc: Global) -> Result<Word, NoMemory>
        ensures { IfOk result (λ w. w ≡ self.now) }
    {
        Ok(Word {
            text: String::from_str(alloc, &self.text)?,
        })
    }
}

/// A name of one to 63 characters, each a lower-case ASCII letter, a digit or `_`. Contracts see it as its list of bytes.
/// The limit is that of the manual, 4.1.1, Identifiers and Key Words (63 bytes); that it has no other letters is our own choice.
#[derive(Debug, Drop)]
pub struct Name {
    text: String,
}

impl Model for Name {
    ghost use Rattle.std.specs.Prelude.{List, ℕ, string_bytes, chars};
    ghost use Rattle.std.specs.Coded.{coded_list, coded_ℕ};
    ghost use Rattle.away_values.specs.Words.{IsName};

    ghost Value = { List ℕ };

    ghost coded = { coded_list coded_ℕ };

    ghost view = { λ n. string_bytes n.text };

    ghost invariant = { λ n. IsName (string_bytes n.text) };
}

impl Name {
    pub(crate) fn from_string(text: String) -> Name
        requires { IsName (string_bytes text) }
        ensures { result ≡ string_bytes text }
    {
        Name { text }
    }

    /// The text of the name.
    pub fn text(&self) -> &str
        ensures within { IsName result.now }
        ensures value { result.now ≡ self.now }
    {
        &self.text
    }

    pub fn copy(&self, alloc: Global) -> Result<Name, NoMemory>
        ensures { IfOk result (λ w. w ≡ self.now) }
    {
        Ok(Name {
            text: String::from_str(alloc, &self.text)?,
        })
    }
}
