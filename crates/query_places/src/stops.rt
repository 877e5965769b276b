//! Where the reader of queries finds nothing that goes on.

ghost use Rattle.std.specs.Prelude.{◌≤◌, length, map, IfOk, IfSome};
ghost use Rattle.std.specs.List.{All};
ghost use Rattle.away_grammar.specs.Tokens.{AreSpelled};
ghost use Rattle.away_lex.specs.Lexed.{seen};
ghost use Rattle.sql_text.specs.CodeTerminals.{HasSpelling};
ghost use Rattle.query_places.specs.QueryPlaces.{IsQueryStop, StandsAt};

use crate::places::list_of;
use crate::reading::pass_query;
use away_lex::{Token, TokensRefusal, tokens};
use away_values::NoMemory;
use sql_text::{Cursor, Refusal, Terminal, terminals_of};
use sqlite_items::Items;
use std::alloc::Global;

/// A token of each kind that stands in queries.
const ALL_TOKENS: &str =
    "all and as asc between by case cast coalesce desc else end exists false from greatest in is \
lateral least limit not null on or order recursive select true union when where with \
= <> < <= > >= + - * / % || :: ( ) , ; . 1 'a' $1 x integer";

/// A byte where a token begins, and whether the text ends behind that token where something was still to come.
#[derive(Clone, Copy, Debug)]
pub struct Stop {
    pub offset: u64,
    pub ended: bool,
}

/// How many terminals the reader leaves, and whether it found a query before them.
#[derive(Clone, Copy)]
struct Left {
    number: usize,
    refused: bool,
}

fn left_by(alloc: Global, terminals: &[Terminal<'_>]) -> Result<Left, NoMemory>
    requires { All HasSpelling terminals.now }
    ensures { IfOk result (λ left. left.number ≤ length terminals.now) }
{
    let mut tokens = Cursor::new(terminals, 0);
    let refused = match pass_query(alloc, &mut tokens) {
        Ok(()) => false,
        Err(Refusal::NoTree) => true,
        Err(Refusal::NoMemory) => return Err(NoMemory),
    };
    Ok(Left {
        number: tokens.left(),
        refused,
    })
}

/// Whether the reader takes the terminal behind these.
fn is_taken<'a>(
    alloc: Global,
    before: &[Terminal<'a>],
    next: Terminal<'a>,
) -> Result<bool, NoMemory>
    requires before { All HasSpelling before.now }
    requires next { HasSpelling next }
{
    let mut tried = Items::from_vec(before.to_vec(alloc)?);
    tried.push(next)?;
    let left = left_by(alloc, tried.as_slice())?;
    Ok(left.number == 0)
}

/// Whether the reader takes one of the terminals behind these.
fn is_one_taken<'a>(
    alloc: Global,
    before: &[Terminal<'a>],
    all: &[Terminal<'a>],
) -> Result<bool, NoMemory>
    requires before { All HasSpelling before.now }
    requires all { All HasSpelling all.now }
{
    for next in all {
        if is_taken(alloc, before, *next)? {
            return Ok(true);
        }
    }
    Ok(false)
}

/// Whether the reader takes any token behind these terminals, or where it didn't come to their end it is as if it did.
fn goes_on(alloc: Global, before: &[Terminal<'_>]) -> Result<bool, NoMemory>
    requires { All HasSpelling before.now }
{
    let all = match tokens(alloc, ALL_TOKENS) {
        Ok(list) => list,
        Err(TokensRefusal::Bad { .. }) => return Ok(true),
        Err(TokensRefusal::NoMemory) => return Err(NoMemory),
    };
    let terminals = terminals_of(alloc, all.as_slice())?;
    is_one_taken(alloc, before, terminals.as_slice())
}

/// The number of the token at which the reader is stuck: the first that it left. Where the reader takes nothing behind the
/// tokens before that one, it had taken the one that it refused, which is the last of these.
fn number_in(alloc: Global, terminals: &[Terminal<'_>]) -> Result<usize, NoMemory>
    requires { All HasSpelling terminals.now }
{
    let left = left_by(alloc, terminals)?;
    let number = terminals.len() - left.number;
    if !left.refused || goes_on(alloc, &terminals[..number])? {
        return Ok(number);
    }
    Ok(number.saturating_sub(1))
}

/// The token of this number, or the last one where the list has fewer.
fn stop_at(list: &[Token<'_>], number: usize) -> Option<Stop>
    ensures { IfSome result (StandsAt (map seen list.now)) }
{
    if number < list.len() {
        return Some(Stop {
            offset: list[number].start,
            ended: false,
        });
    }
    if list.is_empty() {
        return None;
    }
    Some(Stop {
        offset: list[list.len() - 1].start,
        ended: true,
    })
}

/// Where the reader is stuck in the list.
fn stop_in(alloc: Global, list: &[Token<'_>]) -> Result<Option<Stop>, NoMemory>
    requires { AreSpelled (map seen list.now) }
    ensures { IfOk result (λ found. IfSome found (StandsAt (map seen list.now))) }
{
    let terminals = terminals_of(alloc, list)?;
    let number = number_in(alloc, terminals.as_slice())?;
    Ok(stop_at(list, number))
}

/// Where the bytes, which read as no query, go on with nothing that a query goes on with. None where the bytes have no
/// tokens. That it is a token of the file is proved; that it is the first at which no query goes on is tested alone.
pub fn query_stop(alloc: Global, bytes: &[u8]) -> Result<Option<Stop>, NoMemory>
    ensures { IfOk result (λ found. IfSome found (IsQueryStop bytes.now)) }
{
    match list_of(alloc, bytes)? {
        Some(list) => stop_in(alloc, list.as_slice()),
        None => Ok(None),
    }
}
