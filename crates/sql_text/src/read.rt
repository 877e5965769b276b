//! The readers of queries, schemas and expressions.

ghost use Rattle.std.specs.Prelude.{◌≡◌, ◌≤◌, ℕ, map, length, All, IfOk, IfErr, MatchOption};
ghost use Rattle.away_grammar.specs.Texts.{IsText, IsExpression, ReadsQuery, ReadsSchema};
ghost use Rattle.away_grammar.specs.Tokens.{AreSpelled};
ghost use Rattle.away_trees.specs.declared.queries.Expr.{Expr};
ghost use Rattle.away_lex.specs.Lexed.{seen};
ghost use Rattle.sql_text.specs.CodeTerminals.{meaning_of, HasSpelling};
ghost use Rattle.sql_text.specs.Refusals.{HasFewTokens, HasTerminals, MayBeRead, NoExpression, Refuses, RefusesTokens};

use crate::cursor::Cursor;
use crate::expressions::operand;
use crate::files::file_of;
use crate::refusal::Refusal;
use crate::schemas::tables_of;
use crate::terminals::{Terminal, terminals_of};
use away_grammar::Level;
use away_lex::{LimitKind, ReadRefusal, Token, nesting, tokens};
use away_trees::{Expr, Query, Schema};
use sqlite_items::Items;
use std::alloc::Global;

/// The greatest nesting of tokens that is read.
const MOST_NESTING: u64 = 256;

/// The query that a whole file is.
pub fn read_query(alloc: Global, bytes: &[u8]) -> Result<Query, ReadRefusal>
    ensures ok { IfOk result (λ query. MayBeRead bytes.now × ReadsQuery bytes.now query) }
    ensures err { IfErr result (Refuses (ReadsQuery bytes.now) bytes.now) }
{
    let terminals = text_terminals(alloc, bytes)?;
    let mut left = Cursor::new(terminals.as_slice(), 0);
    match file_of(alloc, &mut left) {
        Ok(query) => {
            if left.left() == 0 {
                Ok(query.into_inner())
            } else {
                Err(ReadRefusal::NoTree)
            }
        }
        Err(Refusal::NoTree) => Err(ReadRefusal::NoTree),
        Err(Refusal::NoMemory) => Err(ReadRefusal::NoMemory),
    }
}

/// The schema that a whole file is.
pub fn read_schema(alloc: Global, bytes: &[u8]) -> Result<Schema, ReadRefusal>
    ensures ok { IfOk result (λ schema. MayBeRead bytes.now × ReadsSchema bytes.now schema) }
    ensures err { IfErr result (Refuses (ReadsSchema bytes.now) bytes.now) }
{
    let terminals = text_terminals(alloc, bytes)?;
    let mut left = Cursor::new(terminals.as_slice(), 0);
    match tables_of(alloc, &mut left) {
        Ok(tables) => {
            if left.left() == 0 {
                Ok(Schema { tables })
            } else {
                Err(ReadRefusal::NoTree)
            }
        }
        Err(Refusal::NoTree) => Err(ReadRefusal::NoTree),
        Err(Refusal::NoMemory) => Err(ReadRefusal::NoMemory),
    }
}

/// The expression that begins at this place of a token list, with the place where it ends.
pub fn read_expr(alloc: Global, list: &[Token<'_>], at: usize) -> Result<(Expr, usize), ReadRefusal>
    requires within { at ≤ length list.now }
    requires spelled { AreSpelled (map seen list.now) }
    ensures ok { IfOk result (λ found. IsExpression (map seen list.now) at found.0 found.1) }
    ensures only { IfOk result (λ found. (x : Expr) (end : ℕ)
        → IsExpression (map seen list.now) at x end → (x ≡ found.0) × (end ≡ found.1)) }
    ensures err { IfErr result (NoExpression (map seen list.now) at) }
{
    let behind = &list[at..];
    let Ok(terminals) = terminals_of(alloc, behind) else {
        return Err(ReadRefusal::NoMemory);
    };
    let mut left = Cursor::new(terminals.as_slice(), 0);
    match operand(alloc, &mut left, Level::Or) {
        Ok(found) => {
            if left.continues() {
                Err(ReadRefusal::NoTree)
            } else {
                Ok((found.into_inner(), list.len() - left.left()))
            }
        }
        Err(Refusal::NoTree) => Err(ReadRefusal::NoTree),
        Err(Refusal::NoMemory) => Err(ReadRefusal::NoMemory),
    }
}

/// The terminals of the tokens of bytes that are a text and nest no deeper than is read.
fn text_terminals<'a>(alloc: Global, bytes: &'a [u8]) -> Result<Items<Terminal<'a>>, ReadRefusal>
    ensures ok { IfOk result (λ terminals. HasTerminals bytes.now (map meaning_of terminals)) }
    ensures spelled { IfOk result (λ terminals. All HasSpelling terminals) }
    ensures err { IfErr result (RefusesTokens bytes.now) }
{
    let list = tokens_of(alloc, bytes)?;
    match terminals_of(alloc, list.as_slice()) {
        Ok(terminals) => Ok(terminals),
        Err(_) => Err(ReadRefusal::NoMemory),
    }
}

/// The tokens of bytes that are a text and nest no deeper than is read.
fn tokens_of<'a>(alloc: Global, bytes: &'a [u8]) -> Result<Vec<Token<'a>>, ReadRefusal>
    ensures ok { IfOk result (λ list. HasFewTokens bytes.now (map seen list.items)) }
    ensures err { IfErr result (RefusesTokens bytes.now) }
{
    let Some(text) = as_text(bytes) else {
        return Err(ReadRefusal::NotText);
    };
    let list = tokens(alloc, text)?;
    let found = nesting(list.as_slice());
    if found > MOST_NESTING {
        let which = LimitKind::Nesting;
        Err(ReadRefusal::Limit { which, found })
    } else {
        Ok(list)
    }
}

/// The bytes as text: UTF-8 without U+0000.
pub fn as_text(bytes: &[u8]) -> Option<&str>
    ensures { MatchOption result (¬ (IsText bytes.now))
        (λ text. IsText bytes.now × (text.now ≡ bytes.now)) }
{
    if bytes.contains(&0) {
        return None;
    }
    match str::from_utf8(bytes) {
        Ok(text) => Some(text),
        Err(_) => None,
    }
}
