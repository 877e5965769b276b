//! Expressions, by descent through the levels (PostgreSQL manual, 4.1.6, Operator Precedence).

ghost use Rattle.std.specs.Prelude.{◌≡◌, ◌≤◌, length};
ghost use Rattle.away_grammar.specs.Grammar.{IsChain, Tree, at, links, operands};
ghost use Rattle.sql_text.specs.Plans.{Gives};
ghost use Rattle.sql_text.specs.Descent.{plan, chain_plan, links_plan, not_plan, is_plan, tested_plan, compare_plan, range_plan};
ghost use Rattle.sql_text.specs.Descent.{within_plan, between_plan, sign_plan, cast_plan, types_plan};

use crate::cursor::Cursor;
use crate::nodes::chain_of;
use crate::primaries::{list_of, primary};
use crate::refusal::Refusal;
use away_grammar::{Level, Mark};
use away_trees::Expr;
use away_values::ChainOp;
use sqlite_items::{Boxed, Items};
use std::alloc::Global;

/// An expression of the level.
#[cycle(reader)]
pub fn expression(alloc: Global, tokens: &mut Cursor<'_>, level: Level) -> Result<Expr, Refusal>
    ensures found { Gives Tree plan (at level) (plan (at level)) tokens.old result tokens.new }
    ensures shrinks { length tokens.new ≤ length tokens.old }
{
    match level {
        Level::Or => chain(alloc, tokens, Level::Or, Level::And),
        Level::And => chain(alloc, tokens, Level::And, Level::Not),
        Level::Not => negation(alloc, tokens),
        Level::Is => tested(alloc, tokens),
        Level::Compare => compared(alloc, tokens),
        Level::Range => ranged(alloc, tokens),
        Level::Concat => chain(alloc, tokens, Level::Concat, Level::Sum),
        Level::Sum => chain(alloc, tokens, Level::Sum, Level::Product),
        Level::Product => chain(alloc, tokens, Level::Product, Level::Sign),
        Level::Sign => signed(alloc, tokens),
        Level::Cast => cast(alloc, tokens),
        Level::Primary => primary(alloc, tokens),
    }
}

/// An expression of the level, in a box.
#[cycle(reader)]
pub fn operand(alloc: Global, tokens: &mut Cursor<'_>, level: Level) -> Result<Boxed<Expr>, Refusal>
    ensures found { Gives Tree plan (at level) (plan (at level)) tokens.old result tokens.new }
    ensures shrinks { length tokens.new ≤ length tokens.old }
{
    let found = expression(alloc, tokens, level)?;
    Ok(Boxed::new(alloc, found)?)
}

/// Operands of the inner level with operators of the level between them.
#[cycle(reader)]
fn chain(
    alloc: Global,
    tokens: &mut Cursor<'_>,
    level: Level,
    inner: Level,
) -> Result<Expr, Refusal>
    requires chain { IsChain level }
    requires inner { inner ≡ operands level }
    ensures found { Gives Tree plan (at level) (chain_plan level) tokens.old result tokens.new }
    ensures shrinks { length tokens.new ≤ length tokens.old }
{
    let first = expression(alloc, tokens, inner)?;
    if !tokens.sees_operator(level) {
        return Ok(first);
    }
    let boxed = Boxed::new(alloc, first)?;
    let more = links_of(alloc, tokens, level, inner)?;
    Ok(chain_of(boxed, more))
}

/// The operators of the level that stand next, each with its operand.
#[cycle(reader)]
fn links_of(
    alloc: Global,
    tokens: &mut Cursor<'_>,
    level: Level,
    inner: Level,
) -> Result<Items<(ChainOp, Expr)>, Refusal>
    requires { inner ≡ operands level }
    ensures found { Gives Tree plan (links level) (links_plan level) tokens.old result tokens.new }
    ensures shrinks { length tokens.new ≤ length tokens.old }
{
    let mut found = Items::new(alloc);
    while let Some(op) = tokens.operator(level) {
        found.push((op, expression(alloc, tokens, inner)?))?;
    }
    Ok(found)
}

#[cycle(reader)]
fn negation(alloc: Global, tokens: &mut Cursor<'_>) -> Result<Expr, Refusal>
    ensures found { Gives Tree plan (at Level.Not) not_plan tokens.old result tokens.new }
    ensures shrinks { length tokens.new ≤ length tokens.old }
{
    if tokens.eat(Mark::Not) {
        Ok(Expr::Not(operand(alloc, tokens, Level::Is)?))
    } else {
        expression(alloc, tokens, Level::Is)
    }
}

/// An operand, and IS behind it or not.
#[cycle(reader)]
fn tested(alloc: Global, tokens: &mut Cursor<'_>) -> Result<Expr, Refusal>
    ensures found { Gives Tree plan (at Level.Is) is_plan tokens.old result tokens.new }
    ensures shrinks { length tokens.new ≤ length tokens.old }
{
    let operand = expression(alloc, tokens, Level::Compare)?;
    if !tokens.eat(Mark::Is) {
        return Ok(operand);
    }
    test_of(tokens, Boxed::new(alloc, operand)?)
}

/// The test behind IS.
fn test_of(tokens: &mut Cursor<'_>, operand: Boxed<Expr>) -> Result<Expr, Refusal>
    ensures found { Gives Tree plan (at Level.Is)
        (tested_plan operand) tokens.old result tokens.new }
    ensures shrinks { length tokens.new ≤ length tokens.old }
{
    let negated = tokens.eat(Mark::Not);
    let test = tokens.test()?;
    Ok(Expr::Is(operand, test, negated))
}

/// An operand, and a comparison behind it or not.
#[cycle(reader)]
fn compared(alloc: Global, tokens: &mut Cursor<'_>) -> Result<Expr, Refusal>
    ensures found { Gives Tree plan (at Level.Compare) compare_plan tokens.old result tokens.new }
    ensures shrinks { length tokens.new ≤ length tokens.old }
{
    let left = expression(alloc, tokens, Level::Range)?;
    let Some(op) = tokens.comparison() else {
        return Ok(left);
    };
    let boxed = Boxed::new(alloc, left)?;
    Ok(Expr::Compare(op, boxed, operand(alloc, tokens, Level::Range)?))
}

/// An operand, and BETWEEN or IN behind it or not.
#[cycle(reader)]
fn ranged(alloc: Global, tokens: &mut Cursor<'_>) -> Result<Expr, Refusal>
    ensures found { Gives Tree plan (at Level.Range) range_plan tokens.old result tokens.new }
    ensures shrinks { length tokens.new ≤ length tokens.old }
{
    let operand = expression(alloc, tokens, Level::Concat)?;
    if !tokens.sees_range() {
        return Ok(operand);
    }
    let boxed = Boxed::new(alloc, operand)?;
    let negated = tokens.eat(Mark::Not);
    within(alloc, tokens, boxed, negated)
}

/// BETWEEN or IN behind an operand, or, where no NOT was written, neither.
#[cycle(reader)]
fn within(
    alloc: Global,
    tokens: &mut Cursor<'_>,
    operand: Boxed<Expr>,
    negated: bool,
) -> Result<Expr, Refusal>
    ensures found { Gives Tree plan (at Level.Range)
        (within_plan operand negated) tokens.old result tokens.new }
    ensures shrinks { length tokens.new ≤ length tokens.old }
{
    if tokens.eat(Mark::Between) {
        between(alloc, tokens, operand, negated)
    } else if tokens.eat(Mark::In) {
        tokens.expect(Mark::Open)?;
        let choices = list_of(alloc, tokens)?;
        tokens.expect(Mark::Close)?;
        Ok(Expr::OneOf(negated, operand, choices))
    } else if negated {
        Err(Refusal::NoTree)
    } else {
        Ok(operand.into_inner())
    }
}

/// The bounds behind BETWEEN.
#[cycle(reader)]
fn between(
    alloc: Global,
    tokens: &mut Cursor<'_>,
    value: Boxed<Expr>,
    negated: bool,
) -> Result<Expr, Refusal>
    ensures found { Gives Tree plan (at Level.Range)
        (between_plan value negated) tokens.old result tokens.new }
    ensures shrinks { length tokens.new ≤ length tokens.old }
{
    let low = operand(alloc, tokens, Level::Concat)?;
    tokens.expect(Mark::And)?;
    let high = operand(alloc, tokens, Level::Concat)?;
    Ok(Expr::Between(negated, value, low, high))
}

/// A minus and its operand, or an operand alone.
#[cycle(reader)]
fn signed(alloc: Global, tokens: &mut Cursor<'_>) -> Result<Expr, Refusal>
    ensures found { Gives Tree plan (at Level.Sign) sign_plan tokens.old result tokens.new }
    ensures shrinks { length tokens.new ≤ length tokens.old }
{
    if !tokens.eat(Mark::Minus) {
        return expression(alloc, tokens, Level::Cast);
    }
    if tokens.eat_least() {
        return Ok(Expr::Int(i64::MIN));
    }
    Ok(Expr::Neg(operand(alloc, tokens, Level::Cast)?))
}

/// An operand, and at most two casts behind it.
#[cycle(reader)]
fn cast(alloc: Global, tokens: &mut Cursor<'_>) -> Result<Expr, Refusal>
    ensures found { Gives Tree plan (at Level.Cast) cast_plan tokens.old result tokens.new }
    ensures shrinks { length tokens.new ≤ length tokens.old }
{
    let operand = expression(alloc, tokens, Level::Primary)?;
    if !tokens.eat(Mark::Colons) {
        return Ok(operand);
    }
    casts_of(alloc, tokens, Boxed::new(alloc, operand)?)
}

/// The types behind `::`, of which there are at most two.
fn casts_of(alloc: Global, tokens: &mut Cursor<'_>, operand: Boxed<Expr>) -> Result<Expr, Refusal>
    ensures found { Gives Tree plan (at Level.Cast)
        (types_plan operand) tokens.old result tokens.new }
    ensures shrinks { length tokens.new ≤ length tokens.old }
{
    let first = tokens.type_name()?;
    if !tokens.eat(Mark::Colons) {
        return Ok(Expr::Cast(operand, first));
    }
    let second = tokens.type_name()?;
    Ok(Expr::Cast(Boxed::new(alloc, Expr::Cast(operand, first))?, second))
}
