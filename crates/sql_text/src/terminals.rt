//! The terminals of tokens.

ghost use Rattle.std.specs.Prelude.{◌≡◌, ◌≤◌, ◌^◌, map, All, nat_le, bytes_eq, codes, chars, IfOk};
ghost use Rattle.std.specs.Str.{str_eq_ignore_ascii_case};
ghost use Rattle.away_grammar.specs.declared.grammar.Level.TheVariants as level;
ghost use Rattle.away_grammar.specs.Terminals as spec;
ghost use Rattle.away_grammar.specs.Grammar as grammar;
ghost use Rattle.away_grammar.specs.Reserved.{folded};
ghost use Rattle.away_grammar.specs.Spellings.{Spells, IsString, number};
ghost use Rattle.away_grammar.specs.Tokens.{AreSpelled};
ghost use Rattle.away_lex.specs.Lexed.{seen};
ghost use Rattle.sql_text.specs.CodeTerminals.{meaning_of, HasSpelling, entry};

use away_grammar::{Level, Mark};
use away_lex::{INTEGER_LIMIT, Token, TokenKind};
use away_values::{ChainOp, CmpOp, IntOp, Name, NoMemory, Ty, Word, word};
use sqlite_items::Items;
use std::alloc::Global;

const WORDS: [(&str, Mark); 53] = [
    ("all", Mark::All),
    ("and", Mark::And),
    ("as", Mark::As),
    ("asc", Mark::Asc),
    ("begin", Mark::Begin),
    ("between", Mark::Between),
    ("by", Mark::By),
    ("case", Mark::Case),
    ("cast", Mark::Cast),
    ("coalesce", Mark::Coalesce),
    ("constant", Mark::Constant),
    ("continue", Mark::Continue),
    ("create", Mark::Create),
    ("declare", Mark::Declare),
    ("default", Mark::Default),
    ("desc", Mark::Desc),
    ("else", Mark::Else),
    ("elseif", Mark::Elseif),
    ("elsif", Mark::Elsif),
    ("end", Mark::End),
    ("exists", Mark::Exists),
    ("exit", Mark::Exit),
    ("false", Mark::False),
    ("for", Mark::For),
    ("from", Mark::From),
    ("greatest", Mark::Greatest),
    ("if", Mark::If),
    ("in", Mark::In),
    ("into", Mark::Into),
    ("is", Mark::Is),
    ("lateral", Mark::Lateral),
    ("least", Mark::Least),
    ("limit", Mark::Limit),
    ("loop", Mark::Loop),
    ("not", Mark::Not),
    ("null", Mark::Null),
    ("on", Mark::On),
    ("or", Mark::Or),
    ("order", Mark::Order),
    ("raise", Mark::Raise),
    ("recursive", Mark::Recursive),
    ("return", Mark::Return),
    ("reverse", Mark::Reverse),
    ("select", Mark::Select),
    ("strict", Mark::Strict),
    ("table", Mark::Table),
    ("then", Mark::Then),
    ("true", Mark::True),
    ("union", Mark::Union),
    ("when", Mark::When),
    ("where", Mark::Where),
    ("while", Mark::While),
    ("with", Mark::With),
];

const SYMBOLS: [(&str, Mark); 23] = [
    (":=", Mark::Assign),
    ("=", Mark::Equal),
    ("<>", Mark::Differ),
    ("!=", Mark::Differ),
    ("<", Mark::Less),
    ("<=", Mark::LessEqual),
    (">", Mark::Greater),
    (">=", Mark::GreaterEqual),
    ("+", Mark::Plus),
    ("-", Mark::Minus),
    ("*", Mark::Star),
    ("/", Mark::Slash),
    ("%", Mark::Percent),
    ("||", Mark::Bars),
    ("::", Mark::Colons),
    ("(", Mark::Open),
    (")", Mark::Close),
    (",", Mark::Comma),
    (";", Mark::Semicolon),
    (".", Mark::Dot),
    ("..", Mark::Dots),
    ("<<", Mark::LabelOpen),
    (">>", Mark::LabelClose),
];

/// The terminal that a token is.
#[derive(Clone, Copy, Debug)]
pub enum Terminal<'a> {
    /// A symbol or a reserved word.
    Mark(Mark),
    /// A name, in any case.
    Name(&'a str),
    Integer(u64),
    /// A string, as it is written.
    Text(&'a str),
    Parameter(u32),
    /// A dollar quote, as it is written.
    Quote(&'a str),
}

/// The terminal that the token is, where it is spelled as its kind.
pub fn terminal_of<'a>(token: &Token<'a>) -> Terminal<'a>
    requires { Spells (token.now).kind (token.now).text.now }
    ensures value { meaning_of result ≡ spec.token_terminal (seen token.now) }
    ensures spelled { HasSpelling result }
{
    let text = token.text;
    match token.kind {
        TokenKind::Word => match word_mark(text) {
            Some(mark) => Terminal::Mark(mark),
            None => Terminal::Name(text),
        },
        TokenKind::Integer => Terminal::Integer(value_of(text.as_bytes())),
        TokenKind::Str => Terminal::Text(text),
        TokenKind::Parameter => Terminal::Parameter(value_of(&text.as_bytes()[1..]) as u32),
        TokenKind::Dollar => Terminal::Quote(text),
        TokenKind::Symbol => match symbol_mark(text) {
            Some(mark) => Terminal::Mark(mark),
            None => Terminal::Quote(text),
        },
    }
}

/// The terminals of the tokens, one after the other.
pub fn terminals_of<'a>(
    alloc: Global,
    tokens: &[Token<'a>],
) -> Result<Items<Terminal<'a>>, NoMemory>
    requires { AreSpelled (map seen tokens.now) }
    ensures values { IfOk result
        (λ terminals. map meaning_of terminals ≡ spec.token_terminals (map seen tokens.now)) }
    ensures spelled { IfOk result (λ terminals. All HasSpelling terminals) }
{
    let mut terminals = Items::from_vec(Vec::with_capacity(alloc, tokens.len())?);
    for token in tokens {
        terminals.push(terminal_of(token))?;
    }
    Ok(terminals)
}

/// The mark of a reserved word, in any case.
#[tactic(auto, unfolding(away_grammar::specs::Terminals::word_mark))]
fn word_mark(word: &str) -> Option<Mark>
    ensures { result ≡ spec.word_mark word.now }
{
    mark_in_any_case(word, &WORDS)
}

fn mark_in_any_case(word: &str, entries: &[(&str, Mark)]) -> Option<Mark>
    ensures { result ≡ spec.first_mark (str_eq_ignore_ascii_case word.now) (map entry entries.now) }
{
    for (text, mark) in entries {
        if word.eq_ignore_ascii_case(text) {
            return Some(*mark);
        }
    }
    None
}

#[tactic(auto, unfolding(away_grammar::specs::Terminals::symbol_mark))]
fn symbol_mark(symbol: &str) -> Option<Mark>
    ensures { result ≡ spec.symbol_mark symbol.now }
{
    mark_as_written(symbol, &SYMBOLS)
}

fn mark_as_written(symbol: &str, entries: &[(&str, Mark)]) -> Option<Mark>
    ensures { result ≡ spec.first_mark (bytes_eq symbol.now) (map entry entries.now) }
{
    for (text, mark) in entries {
        if symbol == *text {
            return Some(*mark);
        }
    }
    None
}

/// The number that the digits of a token spell.
fn value_of(digits: &[u8]) -> u64
    requires { number digits.now ≤ 2 ^ 63 }
    ensures { result ≡ number digits.now }
{
    match away_lex::number(digits, INTEGER_LIMIT) {
        Some(value) => value,
        None => {
            prove!(false);
            0
        }
    }
}

/// The text that a string spells: each quote in it stands twice. The manual: 4.1.2.1, String Constants.
pub fn text_of(alloc: Global, string: &str) -> Result<Word, NoMemory>
    requires { IsString string.now }
    ensures { IfOk result (λ w. w ≡ chars (spec.undoubled (spec.between_quotes string.now))) }
{
    let inside = &string[1..string.len() - 1];
    let text = inside.replace(alloc, "''", "'")?;
    match word(alloc, text.as_str())? {
        Some(word) => Ok(word),
        None => {
            prove!(false);
            Err(NoMemory)
        }
    }
}

/// The operator of the level that the mark stands for.
/// The manual: 9.1, Logical Operators, 9.3, Mathematical Functions and Operators, and 9.4, String Functions and Operators.
pub fn operator_of(level: Level, mark: Mark) -> Option<ChainOp>
    ensures { result ≡ grammar.operator_of level mark }
{
    match (level, mark) {
        (Level::Or, Mark::Or) => Some(ChainOp::Or),
        (Level::And, Mark::And) => Some(ChainOp::And),
        (Level::Concat, Mark::Bars) => Some(ChainOp::Concat),
        (Level::Sum, Mark::Plus) => Some(ChainOp::Int(IntOp::Add)),
        (Level::Sum, Mark::Minus) => Some(ChainOp::Int(IntOp::Sub)),
        (Level::Product, Mark::Star) => Some(ChainOp::Int(IntOp::Mul)),
        (Level::Product, Mark::Slash) => Some(ChainOp::Int(IntOp::Div)),
        (Level::Product, Mark::Percent) => Some(ChainOp::Int(IntOp::Rem)),
        _ => None,
    }
}

/// The comparison that the mark stands for. The manual: 9.2, Comparison Functions and Operators.
pub fn comparison_of(mark: Mark) -> Option<CmpOp>
    ensures { result ≡ grammar.comparison_of mark }
{
    match mark {
        Mark::Equal => Some(CmpOp::Eq),
        Mark::Differ => Some(CmpOp::Ne),
        Mark::Less => Some(CmpOp::Lt),
        Mark::LessEqual => Some(CmpOp::Le),
        Mark::Greater => Some(CmpOp::Gt),
        Mark::GreaterEqual => Some(CmpOp::Ge),
        _ => None,
    }
}

/// Whether the mark continues an expression. The manual: 4.1.6, Operator Precedence.
pub fn continues(mark: Mark) -> bool
    ensures { result ≡ nat_le (grammar.rank level.Or) (grammar.mark_binds mark) }
{
    match mark {
        Mark::Dot | Mark::Open | Mark::Colons => true,
        Mark::Star | Mark::Slash | Mark::Percent => true,
        Mark::Plus | Mark::Minus | Mark::Bars => true,
        Mark::Between | Mark::In | Mark::Not | Mark::Is => true,
        Mark::And | Mark::Or => true,
        _ => comparison_of(mark).is_some(),
    }
}

/// The type of this name, in any case. The manual: 8, Data Types, the table of names and aliases.
#[tactic(auto, unfolding(away_grammar::specs::Grammar::type_named))]
pub fn type_named(text: &str) -> Option<Ty>
    ensures { result ≡ grammar.type_named (folded text.now) }
{
    if text.eq_ignore_ascii_case("bigint") || text.eq_ignore_ascii_case("int8") {
        Some(Ty::Bigint)
    } else if text.eq_ignore_ascii_case("boolean") || text.eq_ignore_ascii_case("bool") {
        Some(Ty::Boolean)
    } else if text.eq_ignore_ascii_case("text") {
        Some(Ty::Text)
    } else if text.eq_ignore_ascii_case("integer")
        || text.eq_ignore_ascii_case("int")
        || text.eq_ignore_ascii_case("int4")
    {
        Some(Ty::Integer)
    } else {
        None
    }
}

/// Whether it is the name of the function that counts rows.
pub fn is_count(name: &Name) -> bool
    ensures { result ≡ bytes_eq name.now (codes "count") }
{
    name.text() == "count"
}

/// Whether it is the name of the schema that tables stand in.
pub fn is_public(name: &Name) -> bool
    ensures { result ≡ bytes_eq name.now (codes "public") }
{
    name.text() == "public"
}
