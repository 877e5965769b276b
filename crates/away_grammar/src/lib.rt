//! What texts are written with, and the definitions of their tokens, their grammars and their printing.
#![tactic(auto)]

mod grammar;
mod tokens;

pub use grammar::{Attribute, Level, Mark};
pub use tokens::TokenKind;
