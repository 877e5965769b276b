//! Expressions among statements.

ghost use Rattle.std.specs.Prelude.{◌≡◌, ◌≤◌, length};
ghost use Rattle.away_grammar.specs.declared.grammar.Level.TheVariants.{Or};
ghost use Rattle.away_grammar.specs.Grammar.{at};
ghost use Rattle.sql_text.specs.Plans.{Gives};
ghost use Rattle.plsql_parse.specs.Sorts.{AnyTree, sql};
ghost use Rattle.plsql_parse.specs.Plans.{any_plan};

use away_grammar::Level;
use away_trees::Expr;
use sql_text::{Cursor, Refusal, expression};
use sqlite_items::Boxed;
use std::alloc::Global;

/// An expression.
pub fn value_of(alloc: Global, tokens: &mut Cursor<'_>) -> Result<Boxed<Expr>, Refusal>
    ensures found { Gives AnyTree any_plan (sql (at Or))
        (any_plan (sql (at Or))) tokens.old result tokens.new }
    ensures shrinks { length tokens.new ≤ length tokens.old }
{
    let found = expression(alloc, tokens, Level::Or)?;
    Ok(Boxed::new(alloc, found)?)
}
