//! How terminals are spelled.

ghost use Rattle.std.specs.Prelude.{◌≡◌, ◌++◌, OnOk, string_bytes};
ghost use Rattle.away_grammar.specs.Printing as spec;
ghost use Rattle.away_grammar.specs.Spellings.{quoted};

use away_grammar::Mark;
use away_values::NoMemory;
use std::alloc::Global;

/// A symbol, or a reserved word in upper case.
pub fn mark_text(mark: Mark) -> &'static str
    ensures { result.now ≡ (spec.mark_spelled mark).text }
{
    match mark {
        Mark::Assign => ":=",
        Mark::Equal => "=",
        Mark::Differ => "<>",
        Mark::Less => "<",
        Mark::LessEqual => "<=",
        Mark::Greater => ">",
        Mark::GreaterEqual => ">=",
        Mark::Plus => "+",
        Mark::Minus => "-",
        Mark::Star => "*",
        Mark::Slash => "/",
        Mark::Percent => "%",
        Mark::Bars => "||",
        Mark::Colons => "::",
        Mark::Open => "(",
        Mark::Close => ")",
        Mark::Comma => ",",
        Mark::Semicolon => ";",
        Mark::Dot => ".",
        Mark::Dots => "..",
        Mark::LabelOpen => "<<",
        Mark::LabelClose => ">>",
        Mark::All => "ALL",
        Mark::And => "AND",
        Mark::As => "AS",
        Mark::Asc => "ASC",
        Mark::Begin => "BEGIN",
        Mark::Between => "BETWEEN",
        Mark::By => "BY",
        Mark::Case => "CASE",
        Mark::Cast => "CAST",
        Mark::Coalesce => "COALESCE",
        Mark::Constant => "CONSTANT",
        Mark::Continue => "CONTINUE",
        Mark::Create => "CREATE",
        Mark::Declare => "DECLARE",
        Mark::Default => "DEFAULT",
        Mark::Desc => "DESC",
        Mark::Else => "ELSE",
        Mark::Elseif => "ELSEIF",
        Mark::Elsif => "ELSIF",
        Mark::End => "END",
        Mark::Exists => "EXISTS",
        Mark::Exit => "EXIT",
        Mark::False => "FALSE",
        Mark::For => "FOR",
        Mark::From => "FROM",
        Mark::Greatest => "GREATEST",
        Mark::If => "IF",
        Mark::In => "IN",
        Mark::Into => "INTO",
        Mark::Is => "IS",
        Mark::Lateral => "LATERAL",
        Mark::Least => "LEAST",
        Mark::Limit => "LIMIT",
        Mark::Loop => "LOOP",
        Mark::Not => "NOT",
        Mark::Null => "NULL",
        Mark::On => "ON",
        Mark::Or => "OR",
        Mark::Order => "ORDER",
        Mark::Raise => "RAISE",
        Mark::Recursive => "RECURSIVE",
        Mark::Return => "RETURN",
        Mark::Reverse => "REVERSE",
        Mark::Select => "SELECT",
        Mark::Strict => "STRICT",
        Mark::Table => "TABLE",
        Mark::Then => "THEN",
        Mark::True => "TRUE",
        Mark::Union => "UNION",
        Mark::When => "WHEN",
        Mark::Where => "WHERE",
        Mark::While => "WHILE",
        Mark::With => "WITH",
    }
}

/// Adds the string that spells the text: between quotes, with each quote in it twice.
pub fn push_quoted(alloc: Global, text: &mut String, inside: &str) -> Result<(), NoMemory>
    ensures { OnOk result (string_bytes text.new ≡ string_bytes text.old ++ quoted inside.now) }
{
    let doubled = inside.replace(alloc, "'", "''")?;
    text.push_str("'")?;
    text.push_str(doubled.as_str())?;
    text.push_str("'")?;
    Ok(())
}
