//! Whether a file begins a query, and tokens of it by the bytes at which they begin.

ghost use Rattle.std.specs.Prelude.{◌≡◌, map, option_map, IfOk, IfSome};
ghost use Rattle.away_grammar.specs.Terminals.{token_terminals};
ghost use Rattle.away_grammar.specs.Tokens.{AreSpelled};
ghost use Rattle.away_lex.specs.Lexed.{seen};
ghost use Rattle.query_places.specs.QueryPlaces.{begins, IsFirstToken, IsQueryDeep, ListFound, StandsFirst, StartsDeep, Tells};

use away_lex::{Token, TokensRefusal, tokens};
use away_values::NoMemory;
use function_places::too_deep;
use sql_text::{Cursor, as_text, terminals_of};
use std::alloc::Global;

/// The greatest nesting of tokens that is read.
const MOST_NESTING: u64 = 256;

/// The tokens of bytes that are a text without a bad one, however deep they nest.
pub(crate) fn list_of<'a>(
    alloc: Global,
    bytes: &'a [u8],
) -> Result<Option<Vec<Token<'a>>>, NoMemory>
    ensures { IfOk result (λ found. ListFound bytes.now (option_map (λ v. v.items) found)) }
{
    let Some(text) = as_text(bytes) else {
        return Ok(None);
    };
    match tokens(alloc, text) {
        Ok(list) => Ok(Some(list)),
        Err(TokensRefusal::Bad { .. }) => Ok(None),
        Err(TokensRefusal::NoMemory) => Err(NoMemory),
    }
}

/// Whether SELECT or WITH stands first.
fn starts_query(alloc: Global, list: &[Token<'_>]) -> Result<bool, NoMemory>
    requires { AreSpelled (map seen list.now) }
    ensures { IfOk result (λ found. begins (token_terminals (map seen list.now)) ≡ found) }
{
    let terminals = terminals_of(alloc, list)?;
    let tokens = Cursor::new(terminals.as_slice(), 0);
    Ok(tokens.sees_select() || tokens.sees_with())
}

/// Whether the bytes are a text without a bad token whose first token is SELECT or WITH.
pub fn begins_query(alloc: Global, bytes: &[u8]) -> Result<bool, NoMemory>
    ensures { IfOk result (Tells bytes.now) }
{
    match list_of(alloc, bytes)? {
        Some(list) => starts_query(alloc, list.as_slice()),
        None => Ok(false),
    }
}

/// Where the first token of the list begins.
fn first_in(list: &[Token<'_>]) -> Option<u64>
    ensures { IfSome result (StandsFirst (map seen list.now)) }
{
    if list.is_empty() {
        return None;
    }
    Some(list[0].start)
}

/// Where the first token begins.
pub fn first_token_place(alloc: Global, bytes: &[u8]) -> Result<Option<u64>, NoMemory>
    ensures { IfOk result (λ found. IfSome found (IsFirstToken bytes.now)) }
{
    match list_of(alloc, bytes)? {
        Some(list) => Ok(first_in(list.as_slice())),
        None => Ok(None),
    }
}

/// Where the list first nests deeper than is read.
fn deep_in(list: &[Token<'_>]) -> Option<u64>
    ensures { IfSome result (StartsDeep (map seen list.now)) }
{
    let number = too_deep(list, MOST_NESTING)?;
    Some(list[number].start)
}

/// Where the first token begins by which the file nests deeper than is read.
pub fn query_nesting_place(alloc: Global, bytes: &[u8]) -> Result<Option<u64>, NoMemory>
    ensures { IfOk result (λ found. IfSome found (IsQueryDeep bytes.now)) }
{
    match list_of(alloc, bytes)? {
        Some(list) => Ok(deep_in(list.as_slice())),
        None => Ok(None),
    }
}
