//! Where what breaks a rule of names stands in a function's file.

ghost use Rattle.std.specs.Prelude.{◌≡◌, ◌∷◌, drop, map, IfOk, IfSome};
ghost use Rattle.std.specs.Bool.{OnTrue};
ghost use Rattle.away_grammar.specs.Terminals.{name, token_terminals};
ghost use Rattle.away_grammar.specs.Tokens.{AreSpelled};
ghost use Rattle.away_lex.specs.Lexed.{seen};
ghost use Rattle.std.specs.List.{All};
ghost use Rattle.sql_text.specs.CodeTerminals.{HasSpelling, meaning_of};
ghost use Rattle.broken_names.specs.NameTokens as spec;
ghost use Rattle.broken_names.specs.NameTokens.{IsNameToken};

use crate::culprit::Culprit;
use away_grammar::Mark;
use away_lex::{ReadRefusal, Token};
use away_values::{Name, NoMemory};
use plsql_parse::headers::expect_word;
use plsql_parse::read::lists_of;
use sql_text::{Cursor, Terminal, terminals_of};
use std::alloc::Global;

/// By which tokens a culprit is sought: first by those alone around which it is most likely meant, then by its name wherever that is.
#[derive(Clone, Copy)]
enum Search {
    Strict,
    Loose,
}

/// Takes the name, if it stands next.
fn takes_name(tokens: &mut Cursor<'_>, sought: &Name) -> bool
    ensures { OnTrue result (tokens.old ≡ name sought.now ∷ tokens.new) }
{
    expect_word(tokens, sought.text()).is_ok()
}

/// Whether the name stands next and, by strict search, neither a function's arguments nor a column behind it.
fn is_name(tokens: &mut Cursor<'_>, sought: &Name, search: Search) -> bool
    ensures { OnTrue result (spec.BeginsWithName tokens.old sought.now) }
{
    if !takes_name(tokens, sought) {
        return false;
    }
    match search {
        Search::Strict => !tokens.sees(Mark::Dot) && !tokens.sees(Mark::Open),
        Search::Loose => true,
    }
}

/// Whether the column stands next behind its alias.
fn is_column(tokens: &mut Cursor<'_>, alias: &Name, sought: &Name) -> bool
    ensures { OnTrue result (spec.BeginsWithColumn tokens.old alias.now sought.now) }
{
    if !takes_name(tokens, alias) {
        return false;
    }
    if !tokens.eat(Mark::Dot) {
        return false;
    }
    takes_name(tokens, sought)
}

/// Whether the name of a function and its arguments stand next.
fn is_call(tokens: &mut Cursor<'_>, sought: &Name) -> bool
    ensures { OnTrue result (spec.BeginsWithCall tokens.old sought.now) }
{
    if !takes_name(tokens, sought) {
        return false;
    }
    tokens.sees(Mark::Open)
}

/// Whether the parameter stands next.
fn is_parameter(tokens: &mut Cursor<'_>, sought: u32) -> bool
    ensures { OnTrue result (spec.BeginsWithParameter tokens.old sought) }
{
    match tokens.take() {
        Some(Terminal::Parameter(number)) => number == sought,
        _ => false,
    }
}

/// Whether the culprit stands next.
fn stands_next(tokens: &mut Cursor<'_>, it: &Culprit, search: Search) -> bool
    ensures { OnTrue result (spec.BeginsWith it.now tokens.old) }
{
    match it {
        Culprit::Name(n) => is_name(tokens, n, search),
        Culprit::Column(a, n) => is_column(tokens, a, n),
        Culprit::Function(n) => is_call(tokens, n),
        Culprit::Parameter(number) => is_parameter(tokens, *number),
        Culprit::Table(n) => takes_name(tokens, n),
    }
}

/// Whether the culprit may stand behind the terminal.
fn may_stand_behind(before: Terminal<'_>, it: &Culprit, search: Search) -> bool {
    match search {
        Search::Strict => may_be_meant_behind(before, it),
        Search::Loose => true,
    }
}

/// Whether the culprit is most likely meant behind the terminal: a name there isn't a column's behind its alias, a new name or a
/// counter, and a table is one of FROM.
fn may_be_meant_behind(before: Terminal<'_>, it: &Culprit) -> bool {
    match it {
        Culprit::Name(_) => !matches!(before, Terminal::Mark(Mark::Dot | Mark::As | Mark::For)),
        Culprit::Column(_, _) => true,
        Culprit::Function(_) => true,
        Culprit::Parameter(_) => true,
        Culprit::Table(_) => {
            matches!(before, Terminal::Mark(Mark::From | Mark::Comma | Mark::Dot))
        }
    }
}

/// Whether the culprit stands at the place of this number in the list.
fn stands_at(terminals: &[Terminal<'_>], number: usize, it: &Culprit, search: Search) -> bool
    requires { All HasSpelling terminals.now }
    ensures { OnTrue result (spec.BeginsWith it.now (map meaning_of (drop number terminals.now))) }
{
    if number > terminals.len() {
        return false;
    }
    if number > 0 && !may_stand_behind(terminals[number - 1], it, search) {
        return false;
    }
    let mut tokens = Cursor::new(terminals, number);
    stands_next(&mut tokens, it, search)
}

/// Where the first token at or behind the byte begins at which the culprit stands.
fn first_start(
    list: &[Token<'_>],
    terminals: &[Terminal<'_>],
    from: u64,
    it: &Culprit,
    search: Search,
) -> Option<u64>
    requires same { map meaning_of terminals.now ≡ token_terminals (map seen list.now) }
    requires spelled { All HasSpelling terminals.now }
    ensures { IfSome result (spec.StartsCulprit (map seen list.now) from it.now) }
{
    for (number, token) in list.iter().enumerate() {
        if from <= token.start && stands_at(terminals, number, it, search) {
            return Some(token.start);
        }
    }
    None
}

/// The same in the body that the list is.
fn place_in(
    alloc: Global,
    inner: &[Token<'_>],
    from: u64,
    it: &Culprit,
) -> Result<Option<u64>, NoMemory>
    requires { AreSpelled (map seen inner.now) }
    ensures { IfOk result (λ found. IfSome found
        (spec.StartsCulprit (map seen inner.now) from it.now)) }
{
    let terminals = terminals_of(alloc, inner)?;
    match first_start(inner, terminals.as_slice(), from, it, Search::Strict) {
        Some(start) => Ok(Some(start)),
        None => Ok(first_start(inner, terminals.as_slice(), from, it, Search::Loose)),
    }
}

/// Where the culprit stands in the body of a function's file, from the byte on: the first token there that is its name, or its
/// alias where it's a column behind one. None where it isn't found there, or the bytes have no list of tokens that is read.
pub fn culprit_place(
    alloc: Global,
    bytes: &[u8],
    from: u64,
    it: &Culprit,
) -> Result<Option<u64>, NoMemory>
    ensures { IfOk result (λ found. IfSome found (IsNameToken bytes.now from it.now)) }
{
    match lists_of(alloc, bytes) {
        Ok(lists) => place_in(alloc, lists.body.as_slice(), from, it),
        Err(ReadRefusal::NoMemory) => Err(NoMemory),
        Err(_) => Ok(None),
    }
}
