//! What stands before LOOP (PostgreSQL manual, 43.6.5, Simple Loops).

ghost use Rattle.std.specs.Prelude.{◌≡◌, ◌≤◌, length};
ghost use Rattle.away_grammar.specs.FunctionGrammar.{kind, step};
ghost use Rattle.away_trees.specs.declared.statements.LoopKind.TheVariants as made;
ghost use Rattle.sql_text.specs.Plans.{Gives};
ghost use Rattle.plsql_parse.specs.Sorts.{AnyTree, part};
ghost use Rattle.plsql_parse.specs.Bodies.{kind_plan, while_plan, counted_plan, step_plan};
ghost use Rattle.plsql_parse.specs.Plans.{any_plan};

use crate::expressions::value_of;
use crate::lookahead::sees_loop;
use away_grammar::Mark;
use away_trees::{Expr, LoopKind};
use away_values::Name;
use sql_text::{Cursor, Refusal, unboxed};
use sqlite_items::Boxed;
use std::alloc::Global;

/// WHILE and its condition, FOR and its bounds, or nothing.
pub fn kind_of(alloc: Global, tokens: &mut Cursor<'_>) -> Result<Boxed<LoopKind>, Refusal>
    ensures found { Gives AnyTree any_plan (part kind) kind_plan tokens.old result tokens.new }
    ensures shrinks { length tokens.new ≤ length tokens.old }
{
    if tokens.eat(Mark::While) {
        return while_loop(alloc, tokens);
    }
    if !tokens.eat(Mark::For) {
        return Ok(Boxed::new(alloc, LoopKind::Plain)?);
    }
    let name = tokens.name(alloc)?;
    tokens.expect(Mark::In)?;
    let reverse = tokens.eat(Mark::Reverse);
    count_loop(alloc, tokens, name, reverse)
}

/// The condition behind WHILE.
fn while_loop(alloc: Global, tokens: &mut Cursor<'_>) -> Result<Boxed<LoopKind>, Refusal>
    ensures found { Gives AnyTree any_plan (part kind) while_plan tokens.old result tokens.new }
    ensures shrinks { length tokens.new ≤ length tokens.old }
{
    if !sees_loop(tokens) {
        return Err(Refusal::NoTree);
    }
    let test = value_of(alloc, tokens)?;
    Ok(Boxed::new(alloc, while_with(test))?)
}

/// The bounds of FOR and its step.
fn count_loop(
    alloc: Global,
    tokens: &mut Cursor<'_>,
    name: Name,
    reverse: bool,
) -> Result<Boxed<LoopKind>, Refusal>
    ensures found { Gives AnyTree any_plan (part kind)
        (counted_plan name reverse) tokens.old result tokens.new }
    ensures shrinks { length tokens.new ≤ length tokens.old }
{
    if !sees_loop(tokens) {
        return Err(Refusal::NoTree);
    }
    let first = value_of(alloc, tokens)?;
    tokens.expect(Mark::Dots)?;
    let last = value_of(alloc, tokens)?;
    let step = step_of(alloc, tokens)?;
    Ok(Boxed::new(alloc, count_with(name, reverse, first, last, step))?)
}

/// The step behind BY, if it stands there.
fn step_of(alloc: Global, tokens: &mut Cursor<'_>) -> Result<Option<Boxed<Expr>>, Refusal>
    ensures found { Gives AnyTree any_plan (part step) step_plan tokens.old result tokens.new }
    ensures shrinks { length tokens.new ≤ length tokens.old }
{
    if tokens.eat(Mark::By) {
        Ok(Some(value_of(alloc, tokens)?))
    } else {
        Ok(None)
    }
}

fn while_with(test: Boxed<Expr>) -> LoopKind
    ensures { result ≡ made.While test }
{
    LoopKind::While(test.into_inner())
}

fn count_with(
    name: Name,
    reverse: bool,
    first: Boxed<Expr>,
    last: Boxed<Expr>,
    step: Option<Boxed<Expr>>,
) -> LoopKind
    ensures { result ≡ made.Count name reverse first last step }
{
    LoopKind::Count {
        var: name,
        reverse,
        first: first.into_inner(),
        last: last.into_inner(),
        step: unboxed(step),
    }
}
