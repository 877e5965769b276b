//! The innermost expressions: what stands alone, is called, or stands in parentheses.

ghost use Rattle.std.specs.Prelude.{◌≤◌, length};
ghost use Rattle.away_grammar.specs.Grammar.{Tree, at, list, arms};
ghost use Rattle.sql_text.specs.Plans.{Gives};
ghost use Rattle.sql_text.specs.Descent.{plan, primary_plan, named_plan, inside_plan, cast_call_plan, exists_plan, case_plan};
ghost use Rattle.sql_text.specs.Descent.{parameter_plan, typed_parameter_plan, marked_plan, word_plan, rows_plan, list_plan};
ghost use Rattle.sql_text.specs.Descent.{arms_plan};

use crate::cursor::Cursor;
use crate::expressions::{expression, operand};
use crate::nodes::{called_name, literal, number};
use crate::refusal::Refusal;
use crate::selects::query_of;
use crate::terminals::{Terminal, is_count, text_of};
use away_grammar::{Level, Mark};
use away_lex::folded;
use away_trees::Expr;
use away_values::Name;
use sqlite_items::Items;
use std::alloc::Global;

/// What stands alone, is called, or stands in parentheses. The manual: 4.2, Value Expressions, and 9.18, Conditional Expressions.
#[cycle(reader)]
pub fn primary(alloc: Global, tokens: &mut Cursor<'_>) -> Result<Expr, Refusal>
    ensures found { Gives Tree plan (at Level.Primary) primary_plan tokens.old result tokens.new }
    ensures shrinks { length tokens.new ≤ length tokens.old }
{
    match tokens.take() {
        Some(Terminal::Integer(value)) => number(value),
        Some(Terminal::Text(string)) => Ok(Expr::Str(text_of(alloc, string)?)),
        Some(Terminal::Name(text)) => {
            let name = folded(alloc, text)?;
            named(alloc, tokens, name)
        }
        Some(Terminal::Parameter(number)) => parameter(tokens, number),
        Some(Terminal::Mark(mark)) => marked(alloc, tokens, mark),
        Some(Terminal::Quote(_)) => Err(Refusal::NoTree),
        None => Err(Refusal::NoTree),
    }
}

/// The type behind a parameter.
fn parameter(tokens: &mut Cursor<'_>, number: u32) -> Result<Expr, Refusal>
    ensures found { Gives Tree plan (at Level.Primary)
        (parameter_plan number) tokens.old result tokens.new }
    ensures shrinks { length tokens.new ≤ length tokens.old }
{
    tokens.expect(Mark::Colons)?;
    Ok(Expr::Param(number, tokens.type_name()?))
}

/// What a symbol or a reserved word begins, behind it.
#[cycle(reader)]
fn marked(alloc: Global, tokens: &mut Cursor<'_>, mark: Mark) -> Result<Expr, Refusal>
    ensures found { Gives Tree plan (at Level.Primary)
        (marked_plan mark) tokens.old result tokens.new }
    ensures shrinks { length tokens.new ≤ length tokens.old }
{
    match mark {
        Mark::Open => inside(alloc, tokens),
        Mark::Cast => cast_call(alloc, tokens),
        Mark::Exists => exists(alloc, tokens),
        Mark::Case => case(alloc, tokens),
        _ => word(alloc, tokens, mark),
    }
}

/// A literal, or the arguments of a reserved word that is called.
#[cycle(reader)]
fn word(alloc: Global, tokens: &mut Cursor<'_>, mark: Mark) -> Result<Expr, Refusal>
    ensures found { Gives Tree plan (at Level.Primary)
        (word_plan mark) tokens.old result tokens.new }
    ensures shrinks { length tokens.new ≤ length tokens.old }
{
    if let Some(found) = literal(mark) {
        return Ok(found);
    }
    let name = called_name(alloc, mark)?;
    tokens.expect(Mark::Open)?;
    let arguments = list_of(alloc, tokens)?;
    tokens.expect(Mark::Close)?;
    Ok(Expr::Call(name, arguments))
}

/// A query or an expression behind `(`.
#[cycle(reader)]
fn inside(alloc: Global, tokens: &mut Cursor<'_>) -> Result<Expr, Refusal>
    ensures found { Gives Tree plan (at Level.Primary) inside_plan tokens.old result tokens.new }
    ensures shrinks { length tokens.new ≤ length tokens.old }
{
    if tokens.sees_select() {
        let query = query_of(alloc, tokens)?;
        tokens.expect(Mark::Close)?;
        Ok(Expr::Scalar(query))
    } else {
        let inside = operand(alloc, tokens, Level::Or)?;
        tokens.expect(Mark::Close)?;
        Ok(inside.into_inner())
    }
}

/// What stands behind EXISTS.
#[cycle(reader)]
fn exists(alloc: Global, tokens: &mut Cursor<'_>) -> Result<Expr, Refusal>
    ensures found { Gives Tree plan (at Level.Primary) exists_plan tokens.old result tokens.new }
    ensures shrinks { length tokens.new ≤ length tokens.old }
{
    tokens.expect(Mark::Open)?;
    let query = query_of(alloc, tokens)?;
    tokens.expect(Mark::Close)?;
    Ok(Expr::Exists(query))
}

/// What stands behind CAST.
#[cycle(reader)]
fn cast_call(alloc: Global, tokens: &mut Cursor<'_>) -> Result<Expr, Refusal>
    ensures found { Gives Tree plan (at Level.Primary) cast_call_plan tokens.old result tokens.new }
    ensures shrinks { length tokens.new ≤ length tokens.old }
{
    tokens.expect(Mark::Open)?;
    if tokens.sees_typed_parameter() {
        return typed_parameter(tokens);
    }
    let operand = operand(alloc, tokens, Level::Or)?;
    tokens.expect(Mark::As)?;
    let ty = tokens.type_name()?;
    tokens.expect(Mark::Close)?;
    Ok(Expr::Cast(operand, ty))
}

/// A parameter, AS, a type and `)`.
fn typed_parameter(tokens: &mut Cursor<'_>) -> Result<Expr, Refusal>
    ensures found { Gives Tree plan
        (at Level.Primary) typed_parameter_plan tokens.old result tokens.new }
    ensures shrinks { length tokens.new ≤ length tokens.old }
{
    let number = tokens.parameter()?;
    tokens.expect(Mark::As)?;
    let ty = tokens.type_name()?;
    tokens.expect(Mark::Close)?;
    Ok(Expr::Param(number, ty))
}

/// The arms behind CASE, ELSE if it stands there, and END.
#[cycle(reader)]
fn case(alloc: Global, tokens: &mut Cursor<'_>) -> Result<Expr, Refusal>
    ensures found { Gives Tree plan (at Level.Primary) case_plan tokens.old result tokens.new }
    ensures shrinks { length tokens.new ≤ length tokens.old }
{
    let arms = arms_of(alloc, tokens)?;
    if arms.is_empty() {
        return Err(Refusal::NoTree);
    }
    if !tokens.eat(Mark::Else) {
        tokens.expect(Mark::End)?;
        return Ok(Expr::Cases(arms, None));
    }
    let other = operand(alloc, tokens, Level::Or)?;
    tokens.expect(Mark::End)?;
    Ok(Expr::Cases(arms, Some(other)))
}

/// The arms of CASE.
#[cycle(reader)]
fn arms_of(alloc: Global, tokens: &mut Cursor<'_>) -> Result<Items<(Expr, Expr)>, Refusal>
    ensures found { Gives Tree plan arms arms_plan tokens.old result tokens.new }
    ensures shrinks { length tokens.new ≤ length tokens.old }
{
    let mut found = Items::new(alloc);
    while tokens.eat(Mark::When) {
        let test = operand(alloc, tokens, Level::Or)?;
        tokens.expect(Mark::Then)?;
        let value = expression(alloc, tokens, Level::Or)?;
        found.push((test.into_inner(), value))?;
    }
    Ok(found)
}

/// What stands behind a name: a column, or the arguments of a call.
#[cycle(reader)]
fn named(alloc: Global, tokens: &mut Cursor<'_>, name: Name) -> Result<Expr, Refusal>
    ensures found { Gives Tree plan (at Level.Primary)
        (named_plan name) tokens.old result tokens.new }
    ensures shrinks { length tokens.new ≤ length tokens.old }
{
    if tokens.eat(Mark::Dot) {
        let column = tokens.name(alloc)?;
        return Ok(Expr::Dotted(name, column));
    }
    if !tokens.eat(Mark::Open) {
        return Ok(Expr::Named(name));
    }
    if tokens.eat(Mark::Star) {
        return rows_of(tokens, &name);
    }
    if tokens.eat(Mark::Close) {
        return Ok(Expr::Call(name, Items::new(alloc)));
    }
    let arguments = list_of(alloc, tokens)?;
    tokens.expect(Mark::Close)?;
    Ok(Expr::Call(name, arguments))
}

/// The `)` behind `count(*`.
fn rows_of(tokens: &mut Cursor<'_>, name: &Name) -> Result<Expr, Refusal>
    ensures found { Gives Tree plan (at Level.Primary)
        (rows_plan name.now) tokens.old result tokens.new }
    ensures shrinks { length tokens.new ≤ length tokens.old }
{
    if !is_count(name) {
        return Err(Refusal::NoTree);
    }
    tokens.expect(Mark::Close)?;
    Ok(Expr::CountRows)
}

/// One or more expressions.
#[cycle(reader)]
pub fn list_of(alloc: Global, tokens: &mut Cursor<'_>) -> Result<Items<Expr>, Refusal>
    ensures found { Gives Tree plan list list_plan tokens.old result tokens.new }
    ensures shrinks { length tokens.new ≤ length tokens.old }
{
    let mut found = Items::new(alloc);
    loop {
        found.push(expression(alloc, tokens, Level::Or)?)?;
        if !tokens.eat(Mark::Comma) {
            return Ok(found);
        }
    }
}
