//! What RAISE may raise.

ghost use Rattle.std.specs.Prelude.{◌≡◌, chars, length};
ghost use Rattle.away_types.specs.StatementRules as rules;

use away_trees::Raised;

fn length_of(text: &str) -> usize
    ensures { result ≡ length (chars text.now) }
{
    text.chars().count()
}

fn has_percent(text: &str) -> bool
    ensures { result ≡ rules.has_percent (chars text.now) }
{
    text.chars().any(|c| c == '%')
}

fn is_state_character(c: char) -> bool
    ensures { result ≡ rules.is_state_character c }
{
    ('0' <= c && c <= '9') || ('A' <= c && c <= 'Z')
}

fn has_state_characters(text: &str) -> bool
    ensures { result ≡ rules.has_state_characters (chars text.now) }
{
    text.chars().all(|c| is_state_character(c))
}

fn has_zeros(text: &str) -> bool
    ensures { result ≡ rules.has_zeros (chars text.now) }
{
    text.chars().all(|c| c == '0')
}

#[tactic(auto, unfolding(crate::specs::StatementRules::is_state))]
fn is_state(text: &str) -> bool
    ensures { result ≡ rules.is_state (chars text.now) }
{
    length_of(text) == 5 && (has_state_characters(text) && !has_zeros(text))
}

/// A message without `%`, or a SQLSTATE of five digits or upper-case letters other than 00000.
/// The manual: 43.9.1, Reporting Errors and Messages. That a message has no `%` is our own choice.
#[tactic(auto, unfolding(crate::specs::StatementRules::may_raise))]
pub fn may_raise(r: &Raised) -> bool
    ensures { result ≡ rules.may_raise r.now }
{
    match r {
        Raised::Message(t) => !has_percent(t.text()),
        Raised::State(t) => is_state(t.text()),
    }
}
