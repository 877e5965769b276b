//! The body of a function.

ghost use Rattle.std.specs.Prelude.{◌≡◌, ◌≤◌, length};
ghost use Rattle.away_grammar.specs.FunctionGrammar.{body};
ghost use Rattle.sql_text.specs.Plans.{Gives};
ghost use Rattle.plsql_parse.specs.Sorts.{AnyTree, part};
ghost use Rattle.plsql_parse.specs.Bodies.{body_plan, outermost_plan};
ghost use Rattle.plsql_parse.specs.Plans.{any_plan};

use crate::statements::block;
use away_grammar::Mark;
use away_trees::Stmt;
use away_values::Name;
use sql_text::{Cursor, Refusal};
use sqlite_items::Boxed;
use std::alloc::Global;

/// A block, perhaps behind its label, and `;` or not.
pub fn body_of(alloc: Global, tokens: &mut Cursor<'_>) -> Result<Boxed<Stmt>, Refusal>
    ensures found { Gives AnyTree any_plan (part body) body_plan tokens.old result tokens.new }
    ensures shrinks { length tokens.new ≤ length tokens.old }
{
    if !tokens.eat(Mark::LabelOpen) {
        return outermost(alloc, tokens, None);
    }
    let label = tokens.name(alloc)?;
    tokens.expect(Mark::LabelClose)?;
    outermost(alloc, tokens, Some(label))
}

/// The outermost block behind its label.
fn outermost(
    alloc: Global,
    tokens: &mut Cursor<'_>,
    label: Option<Name>,
) -> Result<Boxed<Stmt>, Refusal>
    ensures found { Gives AnyTree any_plan (part body)
        (outermost_plan label) tokens.old result tokens.new }
    ensures shrinks { length tokens.new ≤ length tokens.old }
{
    let found = block(alloc, tokens, label)?;
    tokens.eat(Mark::Semicolon);
    Ok(found)
}
