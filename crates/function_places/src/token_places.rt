//! Where tokens of a function's file begin that a refusal tells.

ghost use Rattle.std.specs.Prelude.{◌≡◌, ◌∷◌, map, IfOk, IfSome};
ghost use Rattle.std.specs.Bool.{OnTrue};
ghost use Rattle.std.specs.List.{All};
ghost use Rattle.away_grammar.specs.Reserved.{folded};
ghost use Rattle.away_grammar.specs.Terminals.{name};
ghost use Rattle.away_grammar.specs.Tokens.{AreSpelled};
ghost use Rattle.away_lex.specs.Lexed.{seen};
ghost use Rattle.sql_text.specs.CodeTerminals.{meaning_of, HasSpelling};
ghost use Rattle.function_places.specs.LimitPlaces.{IsElementPlace};
ghost use Rattle.function_places.specs.TokenPlaces as spec;
ghost use Rattle.function_places.specs.TokenPlaces.{IsNamePlace, WordPlaced};

use crate::node_places::{node_place, start_of};
use away_grammar::Mark;
use away_lex::{FunctionTokens, Token, TokensRefusal, function_tokens};
use away_values::NoMemory;
use plsql_parse::headers::expect_word;
use plsql_parse::outside::outside_word;
use sql_text::{Cursor, Terminal, as_text, terminals_of};
use std::alloc::Global;

/// The token lists of bytes, however deep they nest.
pub(crate) fn tokens_of<'a>(
    alloc: Global,
    bytes: &'a [u8],
) -> Result<Option<FunctionTokens<'a>>, NoMemory>
    ensures { IfOk result (spec.TokensFound bytes.now) }
{
    let Some(text) = as_text(bytes) else {
        return Ok(None);
    };
    match function_tokens(alloc, text) {
        Ok(lists) => Ok(Some(lists)),
        Err(TokensRefusal::Bad { .. }) => Ok(None),
        Err(TokensRefusal::NoMemory) => Err(NoMemory),
    }
}

/// Where the first word outside the language begins.
pub fn word_place(alloc: Global, bytes: &[u8]) -> Result<Option<u64>, NoMemory>
    ensures { IfOk result (WordPlaced bytes.now) }
{
    match tokens_of(alloc, bytes)? {
        Some(lists) => Ok(start_of_word(lists.outer.as_slice(), lists.body.as_slice())),
        None => Ok(None),
    }
}

fn start_of_word(outer: &[Token<'_>], inner: &[Token<'_>]) -> Option<u64>
    requires outer { AreSpelled (map seen outer.now) }
    requires inner { AreSpelled (map seen inner.now) }
    ensures { spec.StartsWord (map seen outer.now) (map seen inner.now) result }
{
    match outside_word(outer, inner) {
        Some(word) => Some(word.start),
        None => None,
    }
}

/// Takes the name that is this word, if it stands next.
fn takes_word(tokens: &mut Cursor<'_>, word: &str) -> bool
    ensures { OnTrue result (tokens.old ≡ name (folded word.now) ∷ tokens.new) }
{
    expect_word(tokens, word).is_ok()
}

/// Takes what stands before the name and its schema. Whether it stood there.
fn takes_head(tokens: &mut Cursor<'_>) -> bool
    ensures { OnTrue result (spec.HeadStands tokens.old tokens.new) }
{
    if !tokens.eat(Mark::Create) {
        return false;
    }
    if !tokens.eat(Mark::Or) {
        return takes_word(tokens, "function");
    }
    if !takes_word(tokens, "replace") {
        return false;
    }
    takes_word(tokens, "function")
}

/// How many terminals are left behind the schema of the name, where it is written.
fn left_behind_schema(tokens: &Cursor<'_>) -> usize
    ensures { spec.SchemaStands tokens.now result }
{
    let mut ahead = tokens.ahead();
    if !takes_word(&mut ahead, "public") {
        return tokens.left();
    }
    if !ahead.eat(Mark::Dot) {
        return tokens.left();
    }
    ahead.left()
}

/// Whether a name with a parenthesis behind it stands next.
fn sees_called_name(tokens: &Cursor<'_>) -> bool
    ensures { OnTrue result (spec.BeginsWithName tokens.now) }
{
    let mut ahead = tokens.ahead();
    match ahead.take() {
        Some(Terminal::Name(_)) => ahead.sees(Mark::Open),
        _ => false,
    }
}

/// How many terminals are left from the function's name on.
fn left_at_name(terminals: &[Terminal<'_>]) -> Option<usize>
    requires { All HasSpelling terminals.now }
    ensures { IfSome result (spec.NameStandsAt (map meaning_of terminals.now)) }
{
    let mut tokens = Cursor::new(terminals, 0);
    if !takes_head(&mut tokens) {
        return None;
    }
    let left = left_behind_schema(&tokens);
    if left > terminals.len() {
        return None;
    }
    if sees_called_name(&Cursor::new(terminals, terminals.len() - left)) {
        Some(left)
    } else {
        None
    }
}

/// Where the token begins that is the function's name.
fn start_of_name(alloc: Global, outer: &[Token<'_>]) -> Result<Option<u64>, NoMemory>
    requires { AreSpelled (map seen outer.now) }
    ensures { IfOk result (λ found. IfSome found (spec.StartsName (map seen outer.now))) }
{
    let terminals = terminals_of(alloc, outer)?;
    match left_at_name(terminals.as_slice()) {
        Some(left) => Ok(start_of(outer, left)),
        None => Ok(None),
    }
}

/// Where the name of the function begins.
pub fn name_place(alloc: Global, bytes: &[u8]) -> Result<Option<u64>, NoMemory>
    ensures { IfOk result (λ found. IfSome found (IsNamePlace bytes.now)) }
{
    match tokens_of(alloc, bytes)? {
        Some(lists) => start_of_name(alloc, lists.outer.as_slice()),
        None => Ok(None),
    }
}

/// Where a node of a function with so many parameters begins, by its number among all its nodes: a parameter is told by the
/// function's name, another one as `node_place` says.
pub fn element_place(
    alloc: Global,
    bytes: &[u8],
    params: u64,
    number: u64,
) -> Result<Option<u64>, NoMemory>
    ensures { IfOk result (λ found. IfSome found (IsElementPlace bytes.now params number)) }
{
    if number < params {
        name_place(alloc, bytes)
    } else {
        node_place(alloc, bytes, number - params)
    }
}
