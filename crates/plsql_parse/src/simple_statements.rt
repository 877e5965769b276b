//! Statements that hold no others (PostgreSQL manual, 43.5, 43.6 and 43.9, Errors and Messages).

ghost use Rattle.std.specs.Prelude.{◌≡◌, ◌≤◌, length};
ghost use Rattle.away_grammar.specs.declared.grammar.Mark.TheVariants.{Null, Return};
ghost use Rattle.away_trees.specs.declared.statements.Stmt.TheVariants as made;
ghost use Rattle.away_grammar.specs.FunctionGrammar.{statement, condition};
ghost use Rattle.sql_text.specs.Plans.{Gives};
ghost use Rattle.plsql_parse.specs.Sorts.{AnyTree, part};
ghost use Rattle.plsql_parse.specs.Bodies.{assigned_plan, value_plan, marked_plan, leaving_plan, condition_plan, raise_plan};
ghost use Rattle.plsql_parse.specs.Plans.{any_plan};
ghost use Rattle.plsql_parse.specs.Taken as taken;

use crate::expressions::value_of;
use crate::words_and_strings::{eat_word, string};
use away_grammar::Mark;
use away_trees::{Expr, Raised, Stmt};
use away_values::{Name, Word};
use sql_text::{Cursor, Refusal, unboxed};
use sqlite_items::Boxed;
use std::alloc::Global;

/// What is assigned to the name, behind it.
pub(crate) fn assignment_statement(
    alloc: Global,
    tokens: &mut Cursor<'_>,
    name: Name,
) -> Result<Stmt, Refusal>
    ensures found { Gives AnyTree any_plan (part statement)
        (assigned_plan name) tokens.old result tokens.new }
    ensures shrinks { length tokens.new ≤ length tokens.old }
{
    if tokens.eat(Mark::Assign) {
        return assigned_value(alloc, tokens, name);
    }
    tokens.expect(Mark::Equal)?;
    assigned_value(alloc, tokens, name)
}

/// The value that is assigned.
fn assigned_value(alloc: Global, tokens: &mut Cursor<'_>, name: Name) -> Result<Stmt, Refusal>
    ensures found { Gives AnyTree any_plan (part statement)
        (value_plan name) tokens.old result tokens.new }
    ensures shrinks { length tokens.new ≤ length tokens.old }
{
    let value = value_of(alloc, tokens)?;
    tokens.expect(Mark::Semicolon)?;
    Ok(Stmt::Assign(name, None, value.into_inner()))
}

/// The `;` behind NULL.
pub(crate) fn null_statement(tokens: &mut Cursor<'_>) -> Result<Stmt, Refusal>
    ensures found { Gives AnyTree any_plan (part statement)
        (marked_plan Null) tokens.old result tokens.new }
    ensures shrinks { length tokens.new ≤ length tokens.old }
{
    tokens.expect(Mark::Semicolon)?;
    Ok(Stmt::Nothing)
}

/// The value behind RETURN.
pub(crate) fn return_statement(alloc: Global, tokens: &mut Cursor<'_>) -> Result<Stmt, Refusal>
    ensures found { Gives AnyTree any_plan (part statement)
        (marked_plan Return) tokens.old result tokens.new }
    ensures shrinks { length tokens.new ≤ length tokens.old }
{
    let value = value_of(alloc, tokens)?;
    tokens.expect(Mark::Semicolon)?;
    Ok(Stmt::Return(value.into_inner()))
}

/// What stands behind EXIT.
pub(crate) fn exit_statement(alloc: Global, tokens: &mut Cursor<'_>) -> Result<Stmt, Refusal>
    ensures found { Gives AnyTree any_plan (part statement)
        (leaving_plan made.Exit) tokens.old result tokens.new }
    ensures shrinks { length tokens.new ≤ length tokens.old }
{
    let label = tokens.perhaps_name(alloc)?;
    let condition = condition_of(alloc, tokens)?;
    tokens.expect(Mark::Semicolon)?;
    Ok(Stmt::Exit(label, unboxed(condition)))
}

/// What stands behind CONTINUE.
pub(crate) fn continue_statement(alloc: Global, tokens: &mut Cursor<'_>) -> Result<Stmt, Refusal>
    ensures found { Gives AnyTree any_plan (part statement)
        (leaving_plan made.Continue) tokens.old result tokens.new }
    ensures shrinks { length tokens.new ≤ length tokens.old }
{
    let label = tokens.perhaps_name(alloc)?;
    let condition = condition_of(alloc, tokens)?;
    tokens.expect(Mark::Semicolon)?;
    Ok(Stmt::Continue(label, unboxed(condition)))
}

/// The condition behind WHEN, if it stands there.
fn condition_of(alloc: Global, tokens: &mut Cursor<'_>) -> Result<Option<Boxed<Expr>>, Refusal>
    ensures found { Gives AnyTree any_plan
        (part condition) condition_plan tokens.old result tokens.new }
    ensures shrinks { length tokens.new ≤ length tokens.old }
{
    if tokens.eat(Mark::When) {
        Ok(Some(value_of(alloc, tokens)?))
    } else {
        Ok(None)
    }
}

/// What stands behind RAISE: a message, or a SQLSTATE.
pub(crate) fn raise_statement(alloc: Global, tokens: &mut Cursor<'_>) -> Result<Stmt, Refusal>
    ensures found { Gives AnyTree any_plan
        (part statement) raise_plan tokens.old result tokens.new }
    ensures shrinks { length tokens.new ≤ length tokens.old }
{
    eat_word(tokens, "exception");
    let is_state = eat_word(tokens, "sqlstate");
    let text = string(alloc, tokens)?;
    tokens.expect(Mark::Semicolon)?;
    Ok(Stmt::Raise(raised_with(is_state, text)))
}

fn raised_with(is_state: bool, text: Word) -> Raised
    ensures { result ≡ taken.raised_as is_state text }
{
    if is_state {
        Raised::State(text)
    } else {
        Raised::Message(text)
    }
}
