//! Why a text has no tokens, and why a reader gives no tree.

use away_values::Name;
use thiserror::Error;

/// No token, white space or comment begins at this offset in bytes.
#[derive(Clone, Copy, Debug, Error)]
#[error("no token begins at byte {offset}")]
pub struct BadToken {
    pub offset: u64,
}

/// Why there is no token list.
#[derive(Clone, Copy, Debug, Error)]
pub enum TokensRefusal {
    /// The first bad token begins at this offset in bytes.
    #[error("no token begins at byte {offset}")]
    Bad { offset: u64 },
    /// No memory was left.
    #[error("no memory was left")]
    NoMemory,
}

/// A limit of the readers. All limits are our own choice.
#[derive(Clone, Copy, Debug, PartialEq, Eq)]
pub enum LimitKind {
    /// The nesting of a token list.
    Nesting,
    /// The nodes of a function.
    Nodes,
    /// The parameters and variables of a function.
    Variables,
    /// The loops of a function.
    Loops,
}

/// Why a reader gives no tree.
#[derive(Debug, Drop, Error)]
pub enum ReadRefusal {
    /// The bytes aren't UTF-8, or contain U+0000.
    #[error("the bytes are no text")]
    NotText,
    /// No token begins at this offset in bytes.
    #[error("no token begins at byte {offset}")]
    Token { offset: u64 },
    /// No tree reads the tokens.
    #[error("no tree reads the tokens")]
    NoTree,
    /// A word of a form that isn't read stands there.
    #[error("a word of a form that is not read stands there")]
    Outside { word: Name },
    /// More was found than a limit allows.
    #[error("{found} were found, which is more than a limit allows")]
    Limit { which: LimitKind, found: u64 },
    /// No memory was left.
    #[error("no memory was left")]
    NoMemory,
}

impl From<TokensRefusal> for ReadRefusal {
    ghost use Rattle.std.specs.Prelude.{◌≡◌};
    ghost use Rattle.away_lex.specs.Refusals.{tokens_refused};

    ghost from_gives = { λ refusal e. e ≡ tokens_refused refusal };

    fn from(refusal: TokensRefusal) -> ReadRefusal {
        match refusal {
            TokensRefusal::Bad { offset } => ReadRefusal::Token { offset },
            TokensRefusal::NoMemory => ReadRefusal::NoMemory,
        }
    }
}
