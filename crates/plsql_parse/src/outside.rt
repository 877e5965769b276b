//! Words of PL/pgSQL and SQL that aren't read.

ghost use Rattle.std.specs.Prelude.{◌≡◌, map, option_map, codes, IfSome};
ghost use Rattle.away_grammar.specs.OutsideWords as spec;
ghost use Rattle.away_grammar.specs.Spellings.{IsNameText};
ghost use Rattle.away_grammar.specs.Tokens.{AreSpelled, is_word_kind};
ghost use Rattle.away_lex.specs.Lexed.{seen};

use away_lex::{Token, TokenKind};

const OUTSIDE: [&str; 54] = [
    "alias",
    "array",
    "assert",
    "call",
    "close",
    "collate",
    "commit",
    "cross",
    "cursor",
    "debug",
    "delete",
    "diagnostics",
    "distinct",
    "execute",
    "fetch",
    "foreach",
    "full",
    "get",
    "group",
    "having",
    "ilike",
    "info",
    "inout",
    "insert",
    "intersect",
    "join",
    "left",
    "like",
    "log",
    "merge",
    "move",
    "next",
    "notice",
    "numeric",
    "open",
    "out",
    "over",
    "perform",
    "query",
    "record",
    "right",
    "rollback",
    "security",
    "set",
    "setof",
    "similar",
    "slice",
    "trigger",
    "update",
    "using",
    "variadic",
    "warning",
    "window",
    "with",
];

/// The first word outside the profile, of the whole file's list and then of the body's. What the profile leaves out is our own choice.
pub fn outside_word<'a>(outer: &[Token<'a>], inner: &[Token<'a>]) -> Option<Token<'a>>
    requires outer { AreSpelled (map seen outer.now) }
    requires inner { AreSpelled (map seen inner.now) }
    ensures value { option_map seen result ≡ spec.outside_word (map seen outer.now)
        (map seen inner.now) }
    ensures spelled { IfSome result (λ word. IsNameText word.text.now) }
{
    match first_outside(outer) {
        Some(word) => Some(word),
        None => first_outside(inner),
    }
}

fn first_outside<'a>(list: &[Token<'a>]) -> Option<Token<'a>>
    requires { AreSpelled (map seen list.now) }
    ensures value { option_map seen result ≡ spec.first_outside (map seen list.now) }
    ensures spelled { IfSome result (λ word. IsNameText word.text.now) }
{
    let mut left = list;
    while let [token, rest @ ..] = left {
        if stands_outside(token, rest) {
            return Some(*token);
        }
        left = rest;
    }
    None
}

/// Whether the token is outside the profile before these: EXCEPTION is before WHEN alone, the others are everywhere.
fn stands_outside(token: &Token<'_>, rest: &[Token<'_>]) -> bool
    ensures { result ≡ spec.stands_outside (seen token.now) (map seen rest.now) }
{
    if is_word(token) && is_outside(token.text) {
        return true;
    }
    spells_word(token, "exception") && begins_with_when(rest)
}

fn begins_with_when(list: &[Token<'_>]) -> bool
    ensures { result ≡ spec.begins_with_word (codes "when") (map seen list.now) }
{
    match list {
        [token, ..] => spells_word(token, "when"),
        [] => false,
    }
}

fn spells_word(token: &Token<'_>, word: &str) -> bool
    ensures { result ≡ spec.spells_word word.now (seen token.now) }
{
    is_word(token) && token.text.eq_ignore_ascii_case(word)
}

fn is_word(token: &Token<'_>) -> bool
    ensures { result ≡ is_word_kind (token.now).kind }
{
    match token.kind {
        TokenKind::Word => true,
        _ => false,
    }
}

#[tactic(auto, unfolding(away_grammar::specs::OutsideWords::is_outside))]
fn is_outside(word: &str) -> bool
    ensures { result ≡ spec.is_outside word.now }
{
    OUTSIDE
        .iter()
        .any(|outside| word.eq_ignore_ascii_case(outside))
}
