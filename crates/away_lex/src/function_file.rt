//! The two token lists of a function's file: that of the whole file, and that of the function's body.

ghost use Rattle.std.specs.Prelude.{◌≡◌, ◌<◌, ◌+◌, ◌^◌, length, map, List, ℕ, IfOk, IfErr, option_map, None};
ghost use Rattle.away_grammar.specs.FunctionFile.{IsInside, LexesFile, LexesInside, LexesPart};
ghost use Rattle.away_grammar.specs.FunctionFile as spec;
ghost use Rattle.away_grammar.specs.Spellings.{IsDollarQuote};
ghost use Rattle.away_lex.specs.Lexed.{FileRefusedAs, InsideRefusedAs, IsMarkLen, PartRefusedAs, seen};

use crate::cursor::{Tokens, split};
use crate::list::tokens;
use crate::pieces::{Class, run};
use crate::refusals::TokensRefusal;
use crate::slices::{Token, TokenKind};
use std::alloc::Global;

/// The tokens of a function's file.
#[derive(Drop)]
pub struct FunctionTokens<'a> {
    /// Those of the whole file.
    pub outer: Vec<Token<'a>>,
    /// Those of the inside of the file's first dollar quote, with their offsets in the file; none where it has no dollar quote.
    pub body: Vec<Token<'a>>,
}

fn mark_len(quote: &str) -> usize
    requires { IsDollarQuote quote.now }
    ensures { IsMarkLen quote.now result }
{
    2 + run(Class::Name, &quote.as_bytes()[1..])
}

/// What stands between the two marks of a dollar quote (PostgreSQL manual, 4.1.2.4, Dollar-Quoted String Constants).
pub fn inside(quote: &str) -> &str
    requires { IsDollarQuote quote.now }
    ensures { (mark : List ℕ) × IsInside quote.now result.now mark }
{
    let mark = mark_len(quote);
    let (front, _) = split(quote, quote.len() - mark);
    let (_, inside) = split(front, mark);
    inside
}

fn is_dollar(token: &Token<'_>) -> bool
    ensures { result ≡ spec.is_dollar (token.now).kind }
{
    match token.kind {
        TokenKind::Dollar => true,
        _ => false,
    }
}

fn first_dollar<'a>(list: &[Token<'a>]) -> Option<Token<'a>>
    ensures { option_map seen result ≡ spec.first_dollar (map seen list.now) }
{
    for token in list {
        if is_dollar(token) {
            return Some(*token);
        }
    }
    None
}

fn part_tokens<'a>(
    alloc: Global,
    text: &'a str,
    start: u64,
) -> Result<Vec<Token<'a>>, TokensRefusal>
    requires { start + length text.now < 2 ^ 63 }
    ensures ok { IfOk result (λ v. LexesPart start text.now (map seen v.items) None) }
    ensures err { IfErr result (PartRefusedAs start text.now) }
{
    let mut left = Tokens::of_part(text, start);
    let mut list = Vec::new(alloc);
    while let Some(item) = left.next() {
        match item {
            Ok(token) => {
                if is_dollar(&token) {
                    return Err(TokensRefusal::Bad {
                        offset: token.start,
                    });
                }
                if list.push(token).is_err() {
                    return Err(TokensRefusal::NoMemory);
                }
            }
            Err(bad) => return Err(TokensRefusal::Bad { offset: bad.offset }),
        }
    }
    Ok(list)
}

fn inside_tokens<'a>(alloc: Global, quote: &Token<'a>) -> Result<Vec<Token<'a>>, TokensRefusal>
    requires spelled { IsDollarQuote (quote.now).text.now }
    requires within { (quote.now).start + length (quote.now).text.now < 2 ^ 63 }
    ensures ok { IfOk result (λ v. LexesInside (seen quote.now) (map seen v.items) None) }
    ensures err { IfErr result (InsideRefusedAs (seen quote.now)) }
{
    let text = inside(quote.text);
    let mark = (quote.text.len() - text.len()) / 2;
    part_tokens(alloc, text, quote.start + mark as u64)
}

/// Both token lists of a function's file. A bad token of the whole file comes before one of the body; in the body a dollar
/// quote is a bad token. That the body has no dollar quote of its own is our own choice; the manual nests them (4.1.2.4).
pub fn function_tokens<'a>(
    alloc: Global,
    text: &'a str,
) -> Result<FunctionTokens<'a>, TokensRefusal>
    ensures ok { IfOk result (λ f. LexesFile text.now (map seen f.outer.items)
        (map seen f.body.items) None) }
    ensures err { IfErr result (FileRefusedAs text.now) }
{
    let outer = match tokens(alloc, text) {
        Ok(list) => list,
        Err(refusal) => return Err(refusal),
    };
    match first_dollar(outer.as_slice()) {
        None => {
            let body = Vec::new(alloc);
            Ok(FunctionTokens { outer, body })
        }
        Some(quote) => match inside_tokens(alloc, &quote) {
            Ok(body) => Ok(FunctionTokens { outer, body }),
            Err(refusal) => Err(refusal),
        },
    }
}
