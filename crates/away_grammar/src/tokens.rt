//! The kinds of tokens.

/// The kind of a token of SQL or PL/pgSQL text (PostgreSQL manual, Lexical Structure).
#[derive(Clone, Copy, Debug, PartialEq, Eq)]
pub enum TokenKind {
    /// A name or a reserved word, in any case: an ASCII letter or `_`, then letters, digits and `_`, 63 bytes at most.
    Word,
    /// Decimal digits, of a value up to 9223372036854775808.
    Integer,
    /// `'` to `'`, where `''` stands for a quote.
    Str,
    /// `$` and a number from 1 to 64.
    Parameter,
    /// `$tag$` to the next equal `$tag$`.
    Dollar,
    /// An operator or a mark, as `<=` or `(`.
    Symbol,
}
