//! Tokens as slices of a text.

pub use away_grammar::TokenKind;

/// A token: its kind, the slice of the source that it is, and the offset in bytes where it begins.
#[derive(Clone, Copy, Debug)]
pub struct Token<'a> {
    pub kind: TokenKind,
    pub text: &'a str,
    pub start: u64,
}
