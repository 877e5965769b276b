//! What a reader of functions takes behind tokens.

ghost use Rattle.std.specs.Prelude.{◌≤◌, length, map, IfOk, OnOk};
ghost use Rattle.std.specs.List.{All};
ghost use Rattle.away_grammar.specs.Tokens.{AreSpelled};
ghost use Rattle.away_lex.specs.Lexed.{seen};
ghost use Rattle.sql_text.specs.CodeTerminals.{HasSpelling};

use away_grammar::Mark;
use away_lex::{Token, TokensRefusal, tokens};
use away_values::NoMemory;
use plsql_parse::bodies::body_of;
use plsql_parse::headers::header_of;
use sql_text::{Cursor, Refusal, Terminal, terminals_of};
use sqlite_items::Items;
use std::alloc::Global;

/// Of the tokens that may stand behind a token some one is here.
const CONTINUATIONS: &str =
    "1 ; || ( , ) x and then loop if case end begin when in >> as from into null . by all select \
on input leakproof or replace function returns language";

/// What a file has a list of tokens for.
#[derive(Clone, Copy)]
pub(crate) enum Reader {
    Header,
    Body,
}

/// How many terminals a reader leaves, and whether it found a tree before them.
#[derive(Clone, Copy)]
pub(crate) struct Left {
    pub number: usize,
    pub refused: bool,
}

fn left_by_header(alloc: Global, terminals: &[Terminal<'_>]) -> Result<Left, NoMemory>
    requires { All HasSpelling terminals.now }
    ensures { IfOk result (λ left. left.number ≤ length terminals.now) }
{
    let mut tokens = Cursor::new(terminals, 0);
    let refused = match header_of(alloc, &mut tokens) {
        Ok(_) => false,
        Err(Refusal::NoTree) => true,
        Err(Refusal::NoMemory) => return Err(NoMemory),
    };
    Ok(Left {
        number: tokens.left(),
        refused,
    })
}

fn left_by_body(alloc: Global, terminals: &[Terminal<'_>]) -> Result<Left, NoMemory>
    requires { All HasSpelling terminals.now }
    ensures { IfOk result (λ left. left.number ≤ length terminals.now) }
{
    let mut tokens = Cursor::new(terminals, 0);
    let refused = match body_of(alloc, &mut tokens) {
        Ok(_) => false,
        Err(Refusal::NoTree) => true,
        Err(Refusal::NoMemory) => return Err(NoMemory),
    };
    Ok(Left {
        number: tokens.left(),
        refused,
    })
}

pub(crate) fn left_by(
    alloc: Global,
    reader: Reader,
    terminals: &[Terminal<'_>],
) -> Result<Left, NoMemory>
    requires { All HasSpelling terminals.now }
    ensures { IfOk result (λ left. left.number ≤ length terminals.now) }
{
    match reader {
        Reader::Header => left_by_header(alloc, terminals),
        Reader::Body => left_by_body(alloc, terminals),
    }
}

/// The terminals of a text; none where a token of it is bad.
pub(crate) fn listed<'a>(alloc: Global, text: &'a str) -> Result<Items<Terminal<'a>>, NoMemory>
    ensures { IfOk result (λ list. All HasSpelling list) }
{
    match tokens(alloc, text) {
        Ok(list) => terminals_of(alloc, list.as_slice()),
        Err(TokensRefusal::Bad { .. }) => Ok(Items::new(alloc)),
        Err(TokensRefusal::NoMemory) => Err(NoMemory),
    }
}

/// The terminals, and one behind them.
fn with_next<'a>(
    alloc: Global,
    before: &[Terminal<'a>],
    next: Terminal<'a>,
) -> Result<Items<Terminal<'a>>, NoMemory>
    requires before { All HasSpelling before.now }
    requires next { HasSpelling next }
    ensures { IfOk result (λ list. All HasSpelling list) }
{
    let mut list = Items::from_vec(before.to_vec(alloc)?);
    list.push(next)?;
    Ok(list)
}

/// Whether the reader takes the terminal behind these. A LOOP stands behind it, since FOR and WHILE look for theirs.
fn is_taken<'a>(
    alloc: Global,
    reader: Reader,
    before: &[Terminal<'a>],
    next: Terminal<'a>,
) -> Result<bool, NoMemory>
    requires before { All HasSpelling before.now }
    requires next { HasSpelling next }
{
    let list = with_next(alloc, before, next)?;
    let tried = with_next(alloc, list.as_slice(), Terminal::Mark(Mark::Loop))?;
    let left = left_by(alloc, reader, tried.as_slice())?;
    Ok(left.number < 2)
}

/// Whether the reader takes one of the terminals behind these.
pub(crate) fn is_one_taken<'a>(
    alloc: Global,
    reader: Reader,
    before: &[Terminal<'a>],
    all: &[Terminal<'a>],
) -> Result<bool, NoMemory>
    requires before { All HasSpelling before.now }
    requires all { All HasSpelling all.now }
{
    for next in all {
        if is_taken(alloc, reader, before, *next)? {
            return Ok(true);
        }
    }
    Ok(false)
}

/// Whether the reader takes all terminals of the list, and they are whole.
fn is_whole(alloc: Global, reader: Reader, list: &[Terminal<'_>]) -> Result<bool, NoMemory>
    requires { All HasSpelling list.now }
{
    let left = left_by(alloc, reader, list)?;
    Ok(!left.refused && left.number == 0)
}

/// Whether a function goes on so: the reader takes the terminal behind these and, where they aren't whole with it, another
/// behind it.
pub(crate) fn may_follow<'a>(
    alloc: Global,
    reader: Reader,
    before: &[Terminal<'a>],
    next: Terminal<'a>,
) -> Result<bool, NoMemory>
    requires before { All HasSpelling before.now }
    requires next { HasSpelling next }
{
    if !is_taken(alloc, reader, before, next)? {
        return Ok(false);
    }
    let list = with_next(alloc, before, next)?;
    if is_whole(alloc, reader, list.as_slice())? {
        return Ok(true);
    }
    let all = listed(alloc, CONTINUATIONS)?;
    is_one_taken(alloc, reader, list.as_slice(), all.as_slice())
}

/// Whether a function goes on with the terminal of this number behind those before it, if there is one.
pub(crate) fn stands_right(
    alloc: Global,
    reader: Reader,
    terminals: &[Terminal<'_>],
    number: usize,
) -> Result<bool, NoMemory>
    requires { All HasSpelling terminals.now }
{
    if number < terminals.len() {
        may_follow(alloc, reader, &terminals[..number], terminals[number])
    } else {
        Ok(false)
    }
}

/// Adds terminals behind others.
fn add_all<'a>(list: &mut Items<Terminal<'a>>, more: &[Terminal<'a>]) -> Result<(), NoMemory>
    requires list { All HasSpelling list.old }
    requires more { All HasSpelling more.now }
    ensures { OnOk result (All HasSpelling list.new) }
{
    for terminal in more {
        list.push(*terminal)?;
    }
    Ok(())
}

/// Whether a header is whole that ends with these terminals and the text.
pub(crate) fn completes<'a>(
    alloc: Global,
    before: &[Terminal<'a>],
    next: &[Terminal<'a>],
    ending: &'a str,
) -> Result<bool, NoMemory>
    requires before { All HasSpelling before.now }
    requires next { All HasSpelling next.now }
{
    let mut list = Items::from_vec(before.to_vec(alloc)?);
    add_all(&mut list, next)?;
    let rest = listed(alloc, ending)?;
    add_all(&mut list, rest.as_slice())?;
    is_whole(alloc, Reader::Header, list.as_slice())
}
