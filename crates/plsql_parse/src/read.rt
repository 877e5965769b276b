//! The reader of functions.

ghost use Rattle.std.specs.Prelude.{◌≡◌, map, IfOk, IfErr};
ghost use Rattle.away_grammar.specs.FunctionGrammar.{ReadsFunction, body, function};
ghost use Rattle.away_grammar.specs.Terminals.{token_terminals};
ghost use Rattle.away_grammar.specs.Tokens.{AreSpelled};
ghost use Rattle.away_lex.specs.Lexed.{seen};
ghost use Rattle.away_lex.specs.declared.refusals.ReadRefusal.TheVariants.{Limit};
ghost use Rattle.plsql_parse.specs.FileRead.{FileRead, HeaderIs, PartRead, RefusesFunction, RefusesLists, RefusesWords};
ghost use Rattle.away_trees.specs.Limits.{KeepsLimits};
ghost use Rattle.plsql_parse.specs.Refusals.{HasFewTokens, MayBeRead, Refuses};

use crate::bodies::body_of;
use crate::counts::counts_of;
use crate::headers::{Header, header_of};
use crate::outside::outside_word;
use away_lex::{FunctionTokens, LimitKind, ReadRefusal, Token, folded, function_tokens, nesting};
use away_trees::{Function, Stmt, node_count};
use sql_text::{Cursor, Refusal, as_text, terminals_of};
use sqlite_items::Boxed;
use std::alloc::Global;

/// The greatest nesting of a body that is read.
pub const MOST_NESTING: u64 = 64;

/// The greatest number of nodes that is read.
pub const MOST_NODES: u64 = 500;

/// The greatest number of variables that is read.
pub const MOST_VARIABLES: u64 = 64;

/// The greatest number of loops that is read.
pub const MOST_LOOPS: u64 = 64;

/// The function that a whole file makes (PostgreSQL manual, CREATE FUNCTION).
pub fn read_function(alloc: Global, bytes: &[u8]) -> Result<Function, ReadRefusal>
    ensures ok { IfOk result (λ f. MayBeRead bytes.now × ReadsFunction bytes.now f
        × KeepsLimits f) }
    ensures err { IfErr result (Refuses bytes.now) }
{
    let lists = lists_of(alloc, bytes)?;
    let (outer, inner) = (lists.outer.as_slice(), lists.body.as_slice());
    match whole_function(alloc, outer, inner) {
        Ok(found) => within_limits(found),
        Err(Refusal::NoTree) => Err(refused_word(alloc, outer, inner)),
        Err(Refusal::NoMemory) => Err(ReadRefusal::NoMemory),
    }
}

/// The token lists of bytes that are a text, where the body's nests no deeper than is read.
pub fn lists_of<'a>(alloc: Global, bytes: &'a [u8]) -> Result<FunctionTokens<'a>, ReadRefusal>
    ensures ok { IfOk result (λ lists. HasFewTokens bytes.now (map seen lists.outer.items)
        (map seen lists.body.items)) }
    ensures err { IfErr result (RefusesLists bytes.now) }
{
    let Some(text) = as_text(bytes) else {
        return Err(ReadRefusal::NotText);
    };
    let lists = function_tokens(alloc, text)?;
    let found = nesting(lists.body.as_slice());
    if found > MOST_NESTING {
        Err(limit(LimitKind::Nesting, found))
    } else {
        Ok(lists)
    }
}

/// The function that the two lists are, with nothing left of either.
pub fn whole_function(
    alloc: Global,
    outer: &[Token<'_>],
    inner: &[Token<'_>],
) -> Result<Function, Refusal>
    requires outer { AreSpelled (map seen outer.now) }
    requires inner { AreSpelled (map seen inner.now) }
    ensures { FileRead (map seen outer.now) (map seen inner.now) result }
{
    match whole_body(alloc, inner) {
        Ok(inside) => function_around(alloc, outer, inside),
        Err(refusal) => Err(refusal),
    }
}

/// The body that the list is, with nothing left of it.
fn whole_body(alloc: Global, inner: &[Token<'_>]) -> Result<Boxed<Stmt>, Refusal>
    requires { AreSpelled (map seen inner.now) }
    ensures { PartRead body (token_terminals (map seen inner.now)) result }
{
    let terminals = terminals_of(alloc, inner)?;
    let mut left = Cursor::new(terminals.as_slice(), 0);
    match body_of(alloc, &mut left) {
        Ok(inside) => {
            if left.left() == 0 {
                Ok(inside)
            } else {
                Err(Refusal::NoTree)
            }
        }
        Err(refusal) => Err(refusal),
    }
}

/// The header that the list is, with nothing left of it.
fn whole_header(alloc: Global, outer: &[Token<'_>]) -> Result<Header, Refusal>
    requires { AreSpelled (map seen outer.now) }
    ensures { HeaderIs (token_terminals (map seen outer.now)) result }
{
    let terminals = terminals_of(alloc, outer)?;
    let mut left = Cursor::new(terminals.as_slice(), 0);
    match header_of(alloc, &mut left) {
        Ok(header) => {
            if left.left() == 0 {
                Ok(header)
            } else {
                Err(Refusal::NoTree)
            }
        }
        Err(refusal) => Err(refusal),
    }
}

/// The function around this body that the list is.
fn function_around(
    alloc: Global,
    outer: &[Token<'_>],
    inside: Boxed<Stmt>,
) -> Result<Function, Refusal>
    requires { AreSpelled (map seen outer.now) }
    ensures { PartRead (function inside) (token_terminals (map seen outer.now)) result }
{
    match whole_header(alloc, outer) {
        Ok(header) => Ok(header.around(inside)),
        Err(refusal) => Err(refusal),
    }
}

/// Why lists that are no function are refused: the first word outside the profile, where there is one.
fn refused_word(alloc: Global, outer: &[Token<'_>], inner: &[Token<'_>]) -> ReadRefusal
    requires outer { AreSpelled (map seen outer.now) }
    requires inner { AreSpelled (map seen inner.now) }
    ensures { RefusesWords (map seen outer.now) (map seen inner.now) result }
{
    match outside_word(outer, inner) {
        Some(found) => match folded(alloc, found.text) {
            Ok(word) => ReadRefusal::Outside { word },
            Err(_) => ReadRefusal::NoMemory,
        },
        None => ReadRefusal::NoTree,
    }
}

/// The function, where no count of it exceeds its limit.
fn within_limits(f: Function) -> Result<Function, ReadRefusal>
    ensures ok { IfOk result (λ kept. (kept ≡ f) × KeepsLimits f) }
    ensures err { IfErr result (RefusesFunction f) }
{
    let (Some(nodes), Some(counts)) = (node_count(&f), counts_of(&f)) else {
        return Err(ReadRefusal::NoMemory);
    };
    if nodes > MOST_NODES {
        return Err(limit(LimitKind::Nodes, nodes));
    }
    if counts.variables > MOST_VARIABLES {
        return Err(limit(LimitKind::Variables, counts.variables));
    }
    if counts.loops > MOST_LOOPS {
        return Err(limit(LimitKind::Loops, counts.loops));
    }
    Ok(f)
}

fn limit(which: LimitKind, found: u64) -> ReadRefusal
    ensures { result ≡ Limit which found }
{
    ReadRefusal::Limit { which, found }
}
