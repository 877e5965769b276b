//! The class that RAISE raises.

ghost use Rattle.std.specs.Prelude.{◌≡◌, ◌∷◌, [], chars, length, bytes_eq, codes, Bool, if◌then◌else◌, Option, Some, None};
ghost use Rattle.std.specs.List.{list_all};
ghost use Rattle.away_values.specs.Classes.{is_class, is_class_char};
ghost use Rattle.away_values.specs.Results.{class};
ghost use Rattle.plsql_meaning.specs.Outcomes.{raised_message};
ghost use Rattle.plsql_meaning.specs.Statements as meaning;

use away_trees::Raised;
use away_values::{Class, sqlstate};

fn length_of(text: &str) -> usize
    ensures { result ≡ length (chars text.now) }
{
    text.chars().count()
}

fn is_class_character(c: char) -> bool
    ensures { result ≡ is_class_char c }
{
    ('0' <= c && c <= '9') || ('A' <= c && c <= 'Z')
}

fn has_class_characters(text: &str) -> bool
    ensures { result ≡ list_all is_class_char (chars text.now) }
{
    text.chars().all(|c| is_class_character(c))
}

fn is_zeros(text: &str) -> bool
    ensures { result ≡ bytes_eq (chars text.now) (codes "00000") }
{
    text == "00000"
}

fn is_class(text: &str) -> bool
    ensures { result ≡ is_class (chars text.now) }
{
    length_of(text) == 5 && (has_class_characters(text) && !is_zeros(text))
}

/// Five bytes as a class.
fn of_bytes(bytes: &[u8]) -> Class
    requires { length bytes.now ≡ 5 }
    ensures { result ≡ class bytes.now }
{
    Class {
        code: [bytes[0], bytes[1], bytes[2], bytes[3], bytes[4]],
    }
}

fn class_of_text(text: &str) -> Class
    ensures { result ≡ (if is_class (chars text.now) then class
        (chars text.now) else raised_message) }
{
    if is_class(text) {
        of_bytes(text.as_bytes())
    } else {
        sqlstate::RAISE_EXCEPTION
    }
}

/// The class that RAISE raises.
pub(crate) fn class_of(raised: &Raised) -> Class
    ensures { result ≡ meaning.class_of raised.now }
{
    match raised {
        Raised::Message(_) => sqlstate::RAISE_EXCEPTION,
        Raised::State(code) => class_of_text(code.text()),
    }
}
