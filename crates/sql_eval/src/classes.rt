//! The class that a text is.

ghost use Rattle.std.specs.Prelude.{◌≡◌, [], ◌∷◌, IfOk, MatchOption, chars, true, false};
ghost use Rattle.sql_eval.specs.Classes.{class_char, class_told, zeros};

use away_values::{Class, NoMemory, Word};
use std::alloc::{AllocError, Global};

/// The class that a text is, where it is one: five digits or upper-case letters, and not 00000.
pub fn class_of(alloc: Global, code: &Word) -> Result<Option<Class>, NoMemory>
    ensures { IfOk result (λ r. r ≡ class_told code.now) }
{
    let letters = letters_of(alloc, code.text())?;
    Ok(class_of_letters(letters.as_slice()))
}

fn letters_of(alloc: Global, text: &str) -> Result<Vec<char>, AllocError>
    ensures { IfOk result (λ v. v.items ≡ chars text.now) }
{
    text.chars().collect(alloc)
}

#[tactic(auto, using(crate::proofs::ClassRules::class_rules))]
fn class_of_letters(letters: &[char]) -> Option<Class>
    ensures { result ≡ class_told letters.now }
{
    match letters {
        [a, b, c, d, e] => class_of_five(*a, *b, *c, *d, *e),
        _ => None,
    }
}

#[tactic(auto, using(crate::proofs::ClassRules::class_rules))]
fn class_of_five(a: char, b: char, c: char, d: char, e: char) -> Option<Class>
    ensures { result ≡ class_told (a ∷ b ∷ c ∷ d ∷ e ∷ []) }
{
    let code = [
        class_byte(a)?,
        class_byte(b)?,
        class_byte(c)?,
        class_byte(d)?,
        class_byte(e)?,
    ];
    if are_zeros(a, b, c, d, e) {
        None
    } else {
        Some(Class { code })
    }
}

#[tactic(auto, unfolding(crate::specs::Classes::zeros))]
fn are_zeros(a: char, b: char, c: char, d: char, e: char) -> bool
    ensures { result ≡ zeros a b c d e }
{
    a == '0' && b == '0' && c == '0' && d == '0' && e == '0'
}

#[tactic(auto, unfolding(crate::specs::Classes::class_char))]
fn class_byte(c: char) -> Option<u8>
    ensures { MatchOption result (class_char c ≡ false) (λ b. (class_char c ≡ true) × (b ≡ c)) }
{
    let code = c as u32;
    if (code >= 48 && code <= 57) || (code >= 65 && code <= 90) {
        Some(code as u8)
    } else {
        None
    }
}
