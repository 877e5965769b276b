//! What the grammars are written with: symbols and reserved words, and the levels of expressions.

/// A symbol or a reserved word. The list of reserved words is our own, and shorter than PostgreSQL's (PostgreSQL manual, SQL
/// Key Words).
#[derive(Clone, Copy, Debug, PartialEq, Eq)]
pub enum Mark {
    /// `:=`
    Assign,
    /// `=`
    Equal,
    /// `<>`, or `!=`
    Differ,
    /// `<`
    Less,
    /// `<=`
    LessEqual,
    /// `>`
    Greater,
    /// `>=`
    GreaterEqual,
    /// `+`
    Plus,
    /// `-`
    Minus,
    /// `*`
    Star,
    /// `/`
    Slash,
    /// `%`
    Percent,
    /// `||`
    Bars,
    /// `::`
    Colons,
    /// `(`
    Open,
    /// `)`
    Close,
    /// `,`
    Comma,
    /// `;`
    Semicolon,
    /// `.`
    Dot,
    /// `..`
    Dots,
    /// `<<`
    LabelOpen,
    /// `>>`
    LabelClose,
    All,
    And,
    As,
    Asc,
    Begin,
    Between,
    By,
    Case,
    Cast,
    Coalesce,
    Constant,
    Continue,
    Create,
    Declare,
    Default,
    Desc,
    Else,
    Elseif,
    Elsif,
    End,
    Exists,
    Exit,
    False,
    For,
    From,
    Greatest,
    If,
    In,
    Into,
    Is,
    Lateral,
    Least,
    Limit,
    Loop,
    Not,
    Null,
    On,
    Or,
    Order,
    Raise,
    Recursive,
    Return,
    Reverse,
    Select,
    Strict,
    Table,
    Then,
    True,
    Union,
    When,
    Where,
    While,
    With,
}

/// The levels of expressions, the loosest first (PostgreSQL manual, Operator Precedence, where the order of the comparisons,
/// IS, BETWEEN and IN is as here).
#[derive(Clone, Copy, Debug, PartialEq, Eq)]
pub enum Level {
    /// Operands of OR.
    Or,
    /// Operands of AND.
    And,
    /// NOT.
    Not,
    /// IS NULL, IS TRUE and IS FALSE.
    Is,
    /// Comparisons.
    Compare,
    /// BETWEEN and IN.
    Range,
    /// Operands of `||`.
    Concat,
    /// Operands of `+` and `-`.
    Sum,
    /// Operands of `*`, `/` and `%`.
    Product,
    /// Unary minus.
    Sign,
    /// `::`.
    Cast,
    /// What stands alone or in parentheses.
    Primary,
}

/// An attribute of a function, by the group that it is of (PostgreSQL manual, CREATE FUNCTION).
#[derive(Clone, Copy, Debug, PartialEq, Eq)]
pub enum Attribute {
    /// LANGUAGE plpgsql
    Language,
    /// AS and the dollar quote
    Body,
    /// IMMUTABLE, STABLE or VOLATILE
    Volatility,
    /// What becomes of NULL input: whether the function is strict.
    NullInput(bool),
    /// LEAKPROOF or NOT LEAKPROOF
    Leakproof,
    /// PARALLEL and its kind
    Parallel,
    /// COST and a number
    Cost,
}
