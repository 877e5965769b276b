//! Declarations of variables (PostgreSQL manual, 43.3, Declarations).

ghost use Rattle.std.specs.Prelude.{◌≡◌, ◌≤◌, ◌<◌, true, false, length, IfOk};
ghost use Rattle.away_grammar.specs.FunctionGrammar.{decl, decls, default};
ghost use Rattle.sql_text.specs.Plans.{Gives};
ghost use Rattle.plsql_parse.specs.Sorts.{AnyTree, part};
ghost use Rattle.plsql_parse.specs.Bodies.{decls_plan, decl_plan, typed_plan, valued_plan, default_plan, default_value};
ghost use Rattle.plsql_parse.specs.Plans.{any_plan};

use crate::expressions::value_of;
use crate::lookahead::sees_name;
use away_grammar::Mark;
use away_trees::{Decl, Expr};
use away_values::{Name, Ty};
use sql_text::{Cursor, Refusal, unboxed};
use sqlite_items::{Boxed, Items};
use std::alloc::Global;

/// The declarations behind DECLARE.
pub(crate) fn decls_of(alloc: Global, tokens: &mut Cursor<'_>) -> Result<Items<Decl>, Refusal>
    ensures found { Gives AnyTree any_plan (part decls) decls_plan tokens.old result tokens.new }
    ensures shrinks { length tokens.new ≤ length tokens.old }
{
    let mut found = Items::new(alloc);
    while sees_name(tokens) {
        found.push(decl_of(alloc, tokens)?)?;
    }
    Ok(found)
}

/// A name, CONSTANT or not, and what stands behind it.
pub fn decl_of(alloc: Global, tokens: &mut Cursor<'_>) -> Result<Decl, Refusal>
    ensures found { Gives AnyTree any_plan (part decl) decl_plan tokens.old result tokens.new }
    ensures shrinks { length tokens.new ≤ length tokens.old }
    ensures shorter { IfOk result (λ _. length tokens.new < length tokens.old) }
{
    let name = tokens.name(alloc)?;
    let constant = tokens.eat(Mark::Constant);
    type_and_value(alloc, tokens, name, constant)
}

/// A type, NOT NULL or not, and what stands behind it.
fn type_and_value(
    alloc: Global,
    tokens: &mut Cursor<'_>,
    name: Name,
    constant: bool,
) -> Result<Decl, Refusal>
    ensures found { Gives AnyTree any_plan (part decl)
        (typed_plan name constant) tokens.old result tokens.new }
    ensures shrinks { length tokens.new ≤ length tokens.old }
{
    let ty = tokens.type_name()?;
    if !tokens.eat(Mark::Not) {
        return value_and_end(alloc, tokens, name, constant, ty, false);
    }
    tokens.expect(Mark::Null)?;
    value_and_end(alloc, tokens, name, constant, ty, true)
}

/// The value of a declaration, or none, and `;`.
fn value_and_end(
    alloc: Global,
    tokens: &mut Cursor<'_>,
    name: Name,
    constant: bool,
    ty: Ty,
    not_null: bool,
) -> Result<Decl, Refusal>
    ensures found { Gives AnyTree any_plan (part decl)
        (valued_plan name constant ty not_null) tokens.old result tokens.new }
    ensures shrinks { length tokens.new ≤ length tokens.old }
{
    let default = default_of(alloc, tokens)?;
    tokens.expect(Mark::Semicolon)?;
    Ok(Decl {
        name,
        ty,
        constant,
        not_null,
        default: unboxed(default),
    })
}

/// The value behind `:=`, `=` or DEFAULT, if one of them stands next.
fn default_of(alloc: Global, tokens: &mut Cursor<'_>) -> Result<Option<Boxed<Expr>>, Refusal>
    ensures found { Gives AnyTree any_plan
        (part default) default_plan tokens.old result tokens.new }
    ensures shrinks { length tokens.new ≤ length tokens.old }
{
    if tokens.eat(Mark::Assign) {
        return default_expression(alloc, tokens);
    }
    if tokens.eat(Mark::Equal) {
        return default_expression(alloc, tokens);
    }
    if tokens.eat(Mark::Default) {
        return default_expression(alloc, tokens);
    }
    Ok(None)
}

fn default_expression(
    alloc: Global,
    tokens: &mut Cursor<'_>,
) -> Result<Option<Boxed<Expr>>, Refusal>
    ensures found { Gives AnyTree any_plan
        (part default) default_value tokens.old result tokens.new }
    ensures shrinks { length tokens.new ≤ length tokens.old }
{
    Ok(Some(value_of(alloc, tokens)?))
}
