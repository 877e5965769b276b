//! The marks of operators, and the levels at which printed expressions read as they were (PostgreSQL manual, Operator
//! Precedence).

ghost use Rattle.std.specs.Prelude.{◌≡◌, ◌∷◌, [], nat_lt};
ghost use Rattle.away_grammar.specs.Grammar as grammar;
ghost use Rattle.away_grammar.specs.Printing as spec;
ghost use Rattle.away_grammar.specs.Terminals as terminal;
ghost use Rattle.away_grammar.specs.Printing.{printed};
ghost use Rattle.away_trees.specs.declared.queries.Expr.TheVariants as expr;

use away_grammar::{Level, Mark};
use away_trees::Expr;
use away_values::{ChainOp, CmpOp, IntOp, IsTest, Ty};

/// The level at which the printed expression reads as it.
pub fn level_of(expr: &Expr) -> Level
    ensures { result ≡ (printed expr.now).level }
{
    match expr {
        Expr::Int(number) => level_of_integer(*number),
        Expr::Neg(_) | Expr::NegSmall(_) => Level::Sign,
        Expr::Not(_) => Level::Not,
        Expr::Is(..) => Level::Is,
        Expr::Compare(..) => Level::Compare,
        Expr::Between(..) | Expr::OneOf(..) => Level::Range,
        Expr::Chain(_, links) => level_of_chain(links.as_slice()),
        Expr::Str(_)
        | Expr::Bool(_)
        | Expr::Null
        | Expr::Named(_)
        | Expr::Dotted(..)
        | Expr::Slot(_)
        | Expr::Column(_)
        | Expr::Param(..)
        | Expr::Cast(..)
        | Expr::Cases(..)
        | Expr::Call(..)
        | Expr::CountRows
        | Expr::Scalar(_)
        | Expr::Exists(_) => Level::Primary,
    }
}

/// A negative integer has a minus of its own.
fn level_of_integer(number: i64) -> Level
    ensures { result ≡ (printed (expr.Int number)).level }
{
    if number < 0 {
        Level::Sign
    } else {
        Level::Primary
    }
}

/// The level of a chain, by its first operator.
pub fn level_of_chain(links: &[(ChainOp, Expr)]) -> Level
    ensures { result ≡ spec.chain_level links.now }
{
    match links.first() {
        None => Level::Primary,
        Some((op, _)) => level_of_operator(*op),
    }
}

fn level_of_operator(op: ChainOp) -> Level
    ensures { result ≡ spec.operator_level op }
{
    match op {
        ChainOp::Or => Level::Or,
        ChainOp::And => Level::And,
        ChainOp::Concat => Level::Concat,
        ChainOp::Int(op) | ChainOp::Small(op) => match op {
            IntOp::Add | IntOp::Sub => Level::Sum,
            IntOp::Mul | IntOp::Div | IntOp::Rem => Level::Product,
        },
    }
}

/// The level of the operands of a chain.
pub fn level_of_operands(chain: Level) -> Level
    ensures { result ≡ grammar.operands chain }
{
    match chain {
        Level::Or => Level::And,
        Level::And => Level::Not,
        Level::Not => Level::Is,
        Level::Is => Level::Compare,
        Level::Compare => Level::Range,
        Level::Range => Level::Concat,
        Level::Concat => Level::Sum,
        Level::Sum => Level::Product,
        Level::Product => Level::Sign,
        Level::Sign => Level::Cast,
        Level::Cast | Level::Primary => Level::Primary,
    }
}

/// Whether an expression of this level needs parentheses at the place.
pub fn is_looser(level: Level, place: Level) -> bool
    ensures { result ≡ nat_lt (grammar.rank level) (grammar.rank place) }
{
    (level as u8) < (place as u8)
}

pub fn comparison_mark(op: CmpOp) -> Mark
    ensures { result ≡ spec.comparison_mark op }
{
    match op {
        CmpOp::Eq => Mark::Equal,
        CmpOp::Ne => Mark::Differ,
        CmpOp::Lt => Mark::Less,
        CmpOp::Le => Mark::LessEqual,
        CmpOp::Gt => Mark::Greater,
        CmpOp::Ge => Mark::GreaterEqual,
    }
}

pub fn operator_mark(op: ChainOp) -> Mark
    ensures { result ≡ spec.operator_mark op }
{
    match op {
        ChainOp::Or => Mark::Or,
        ChainOp::And => Mark::And,
        ChainOp::Concat => Mark::Bars,
        ChainOp::Int(op) | ChainOp::Small(op) => match op {
            IntOp::Add => Mark::Plus,
            IntOp::Sub => Mark::Minus,
            IntOp::Mul => Mark::Star,
            IntOp::Div => Mark::Slash,
            IntOp::Rem => Mark::Percent,
        },
    }
}

pub fn test_mark(test: IsTest) -> Mark
    ensures { result ≡ spec.test_mark test }
{
    match test {
        IsTest::Null => Mark::Null,
        IsTest::True => Mark::True,
        IsTest::False => Mark::False,
    }
}

pub fn truth_mark(value: bool) -> Mark
    ensures { (printed (expr.Bool value)).terminals ≡ terminal.mark result ∷ [] }
{
    if value { Mark::True } else { Mark::False }
}

pub fn type_name(ty: Ty) -> &'static str
    ensures { result.now ≡ spec.type_name ty }
{
    match ty {
        Ty::Bigint => "bigint",
        Ty::Boolean => "boolean",
        Ty::Text => "text",
        Ty::Integer => "integer",
    }
}
