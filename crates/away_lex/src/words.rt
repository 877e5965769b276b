//! Words, without regard to case.

ghost use Rattle.std.specs.Prelude.{◌≡◌, IfOk};
ghost use Rattle.away_grammar.specs.Nesting as token;
ghost use Rattle.away_grammar.specs.Reserved as spec;
ghost use Rattle.away_grammar.specs.Spellings.{IsNameText};
ghost use Rattle.away_lex.specs.Lexed.{seen};

use crate::slices::{Token, TokenKind};
use away_values::{Name, NoMemory, name};
use std::alloc::Global;

const RESERVED: [&str; 53] = [
    "all",
    "and",
    "as",
    "asc",
    "begin",
    "between",
    "by",
    "case",
    "cast",
    "coalesce",
    "constant",
    "continue",
    "create",
    "declare",
    "default",
    "desc",
    "else",
    "elseif",
    "elsif",
    "end",
    "exists",
    "exit",
    "false",
    "for",
    "from",
    "greatest",
    "if",
    "in",
    "into",
    "is",
    "lateral",
    "least",
    "limit",
    "loop",
    "not",
    "null",
    "on",
    "or",
    "order",
    "raise",
    "recursive",
    "return",
    "reverse",
    "select",
    "strict",
    "table",
    "then",
    "true",
    "union",
    "when",
    "where",
    "while",
    "with",
];

impl Token<'_> {
    /// Whether it is this word, in any case.
    pub fn is_word(&self, word: &str) -> bool
        ensures { result ≡ token.is_word (seen self.now) word.now }
    {
        match self.kind {
            TokenKind::Word => self.text.eq_ignore_ascii_case(word),
            _ => false,
        }
    }

    /// Whether it is this symbol.
    pub fn is_symbol(&self, symbol: &str) -> bool
        ensures { result ≡ token.is_symbol (seen self.now) symbol.now }
    {
        match self.kind {
            TokenKind::Symbol => self.text == symbol,
            _ => false,
        }
    }
}

/// Whether the word is reserved, in any case: then it is never a name. The list is our own, and shorter than PostgreSQL's
/// (PostgreSQL manual, Appendix C, SQL Key Words).
#[tactic(auto, unfolding(away_grammar::specs::Reserved::is_reserved))]
pub fn is_reserved(word: &str) -> bool
    ensures { result ≡ spec.is_reserved word.now }
{
    RESERVED
        .iter()
        .any(|reserved| word.eq_ignore_ascii_case(reserved))
}

/// The name that a word spells, which is the word in lower case (PostgreSQL manual, 4.1.1, Identifiers and Key Words).
pub fn folded(alloc: Global, word: &str) -> Result<Name, NoMemory>
    requires { IsNameText word.now }
    ensures { IfOk result (λ n. n ≡ spec.folded word.now) }
{
    let lower = word.to_ascii_lowercase(alloc)?;
    match name(alloc, lower.as_str())? {
        Some(name) => Ok(name),
        None => {
            prove!(false);
            Err(NoMemory)
        }
    }
}
