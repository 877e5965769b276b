//! Where the reader of functions finds nothing that goes on.

ghost use Rattle.std.specs.Prelude.{◌≤◌, ◌⊎◌, length, map, IfOk, IfSome};
ghost use Rattle.std.specs.List.{All};
ghost use Rattle.away_grammar.specs.Tokens.{AreSpelled};
ghost use Rattle.away_lex.specs.Lexed.{seen};
ghost use Rattle.sql_text.specs.CodeTerminals.{HasSpelling};
ghost use Rattle.function_places.specs.StuckPlaces.{IsStuckPlace, StandsAt};

use crate::hints::MOST_BEFORE;
use crate::token_places::tokens_of;
use crate::trials::{Reader, is_one_taken, left_by, listed, stands_right};
use away_lex::{Token, TokenKind};
use away_values::NoMemory;
use sql_text::{Terminal, terminals_of};
use std::alloc::Global;

/// A token of each kind, and each word of the language that isn't reserved.
const ALL_TOKENS: &str =
    "all and as asc begin between by case cast coalesce constant continue create declare default desc else elseif elsif end \
exists exit false for from greatest if in into is lateral least limit loop not null on or order raise recursive return reverse \
select strict table then true union when where while with \
:= = <> < <= > >= + - * / % || :: ( ) , ; . .. << >> 1 'a' $1 $$a$$ x integer \
called cost exception function immutable input language leakproof parallel plpgsql public replace restricted returns safe sqlstate stable volatile";

/// A byte where a token begins, and whether the text ends behind that token where something was still to come.
#[derive(Clone, Copy, Debug)]
pub struct Stuck {
    pub offset: u64,
    pub ended: bool,
}

/// Whether the reader takes any token behind these terminals.
fn goes_on(alloc: Global, reader: Reader, before: &[Terminal<'_>]) -> Result<bool, NoMemory>
    requires { All HasSpelling before.now }
{
    let all = listed(alloc, ALL_TOKENS)?;
    is_one_taken(alloc, reader, before, all.as_slice())
}

/// The number of the first terminal from this one on that doesn't stand right behind those before it; where many stand before
/// this one, it is this one.
fn first_wrong(
    alloc: Global,
    reader: Reader,
    terminals: &[Terminal<'_>],
    from: usize,
) -> Result<usize, NoMemory>
    requires { All HasSpelling terminals.now }
{
    let mut number = from;
    while number < MOST_BEFORE {
        if !stands_right(alloc, reader, terminals, number)? {
            return Ok(number);
        }
        number += 1;
    }
    Ok(number)
}

/// The number of the token at which the reader is stuck, if it is: the first that it left. Where the reader takes nothing
/// behind the tokens before that one, it had taken the one that it refused, which is the last of these. Where it looked ahead
/// in vain for a LOOP, it is the first from there on that doesn't stand right.
fn number_in(
    alloc: Global,
    reader: Reader,
    terminals: &[Terminal<'_>],
) -> Result<Option<usize>, NoMemory>
    requires { All HasSpelling terminals.now }
{
    let left = left_by(alloc, reader, terminals)?;
    let number = terminals.len() - left.number;
    if !left.refused {
        return Ok(if left.number == 0 { None } else { Some(number) });
    }
    let from = if goes_on(alloc, reader, &terminals[..number])? {
        number
    } else {
        number.saturating_sub(1)
    };
    Ok(Some(first_wrong(alloc, reader, terminals, from)?))
}

/// The token of this number, or the last one where the list has fewer.
fn stuck_at(list: &[Token<'_>], number: usize) -> Option<Stuck>
    ensures { IfSome result (StandsAt (map seen list.now)) }
{
    if number < list.len() {
        return Some(Stuck {
            offset: list[number].start,
            ended: false,
        });
    }
    if list.is_empty() {
        return None;
    }
    Some(Stuck {
        offset: list[list.len() - 1].start,
        ended: true,
    })
}

/// Where the reader is stuck in the list, if it is.
fn stuck_in(alloc: Global, reader: Reader, list: &[Token<'_>]) -> Result<Option<Stuck>, NoMemory>
    requires { AreSpelled (map seen list.now) }
    ensures { IfOk result (λ found. IfSome found (StandsAt (map seen list.now))) }
{
    let terminals = terminals_of(alloc, list)?;
    match number_in(alloc, reader, terminals.as_slice())? {
        Some(number) => Ok(stuck_at(list, number)),
        None => Ok(None),
    }
}

/// The first dollar quote of the list.
fn quote_in(list: &[Token<'_>]) -> Option<Stuck>
    ensures { IfSome result (StandsAt (map seen list.now)) }
{
    for (number, token) in list.iter().enumerate() {
        if matches!(token.kind, TokenKind::Dollar) {
            return stuck_at(list, number);
        }
    }
    None
}

/// Whether a place of the header comes before one of the body. The header's last token doesn't, where more was to come behind it.
fn comes_first(header: Stuck, body: Stuck) -> bool {
    !header.ended && header.offset < body.offset
}

/// Where one of the two lists is stuck: the place that comes first in the text. An empty body is stuck at its quotes.
fn stuck_in_lists(
    alloc: Global,
    outer: &[Token<'_>],
    inner: &[Token<'_>],
) -> Result<Option<Stuck>, NoMemory>
    requires outer { AreSpelled (map seen outer.now) }
    requires inner { AreSpelled (map seen inner.now) }
    ensures { IfOk result (λ found. IfSome found
        (λ stuck. StandsAt (map seen outer.now) stuck ⊎ StandsAt (map seen inner.now) stuck)) }
{
    let header = stuck_in(alloc, Reader::Header, outer)?;
    let body = stuck_in(alloc, Reader::Body, inner)?;
    match (header, body) {
        (Some(one), Some(other)) => Ok(Some(if comes_first(one, other) { one } else { other })),
        (Some(one), None) => Ok(Some(one)),
        (None, Some(other)) => Ok(Some(other)),
        (None, None) => Ok(quote_in(outer)),
    }
}

/// Where the bytes, which read as no function, go on with nothing that a function goes on with: the first such place of the
/// header and of the body. None where the bytes have no tokens or read as a function. That it is a token of the file is
/// proved; that it is the first at which no function goes on is tested alone, and it isn't so where FOR or WHILE has no LOOP
/// behind it and stands behind very many tokens: then it is at most the token behind that word.
pub fn stuck_place(alloc: Global, bytes: &[u8]) -> Result<Option<Stuck>, NoMemory>
    ensures { IfOk result (λ found. IfSome found (IsStuckPlace bytes.now)) }
{
    match tokens_of(alloc, bytes)? {
        Some(lists) => stuck_in_lists(alloc, lists.outer.as_slice(), lists.body.as_slice()),
        None => Ok(None),
    }
}
