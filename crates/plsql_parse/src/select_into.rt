//! SELECT INTO (PostgreSQL manual, 43.5.3, Executing a Command with a Single-Row Result).

ghost use Rattle.std.specs.Prelude.{◌≡◌, ◌≤◌, length};
ghost use Rattle.away_grammar.specs.declared.grammar.Mark.TheVariants.{Select};
ghost use Rattle.away_trees.specs.declared.statements.Stmt.TheVariants as made;
ghost use Rattle.away_grammar.specs.FunctionGrammar.{statement, targets, into};
ghost use Rattle.sql_text.specs.Plans.{Gives};
ghost use Rattle.plsql_parse.specs.Sorts.{AnyTree, part};
ghost use Rattle.plsql_parse.specs.Bodies.{targets_plan, into_plan, selected_plan, into_first_plan, into_behind_plan, marked_plan};
ghost use Rattle.plsql_parse.specs.Plans.{any_plan};

use crate::clauses::{clauses_of, list_of};
use away_grammar::Mark;
use away_trees::{Item, Select as Selected, Stmt};
use away_values::Name;
use sql_text::{Cursor, Refusal};
use sqlite_items::{Boxed, Items};
use std::alloc::Global;

/// What stands behind SELECT: INTO and then a list, or a list and then INTO.
/// That INTO stands in one of these two places is our own choice; the manual has it anywhere.
pub(crate) fn select_statement(alloc: Global, tokens: &mut Cursor<'_>) -> Result<Stmt, Refusal>
    ensures found { Gives AnyTree any_plan (part statement)
        (marked_plan Select) tokens.old result tokens.new }
    ensures shrinks { length tokens.new ≤ length tokens.old }
{
    if tokens.eat(Mark::Into) {
        return into_first(alloc, tokens);
    }
    let list = list_of(alloc, tokens)?;
    into_behind(alloc, tokens, list)
}

/// The targets, the list and the clauses behind SELECT INTO.
fn into_first(alloc: Global, tokens: &mut Cursor<'_>) -> Result<Stmt, Refusal>
    ensures found { Gives AnyTree any_plan (part statement)
        into_first_plan tokens.old result tokens.new }
    ensures shrinks { length tokens.new ≤ length tokens.old }
{
    let (strict, names) = into_of(alloc, tokens)?;
    let list = list_of(alloc, tokens)?;
    selected(alloc, tokens, strict, names, list)
}

/// INTO, the targets and the clauses behind a list.
fn into_behind(alloc: Global, tokens: &mut Cursor<'_>, list: Items<Item>) -> Result<Stmt, Refusal>
    ensures found { Gives AnyTree any_plan (part statement)
        (into_behind_plan list) tokens.old result tokens.new }
    ensures shrinks { length tokens.new ≤ length tokens.old }
{
    tokens.expect(Mark::Into)?;
    let (strict, names) = into_of(alloc, tokens)?;
    selected(alloc, tokens, strict, names, list)
}

/// STRICT, if it stands there, and the targets.
fn into_of(
    alloc: Global,
    tokens: &mut Cursor<'_>,
) -> Result<(bool, Items<(Name, Option<u32>)>), Refusal>
    ensures found { Gives AnyTree any_plan (part into) into_plan tokens.old result tokens.new }
    ensures shrinks { length tokens.new ≤ length tokens.old }
{
    let strict = tokens.eat(Mark::Strict);
    let names = targets_of(alloc, tokens)?;
    Ok((strict, names))
}

/// Names with commas between them.
fn targets_of(alloc: Global, tokens: &mut Cursor<'_>) -> Result<Items<(Name, Option<u32>)>, Refusal>
    ensures found { Gives AnyTree any_plan
        (part targets) targets_plan tokens.old result tokens.new }
    ensures shrinks { length tokens.new ≤ length tokens.old }
{
    let mut found = Items::new(alloc);
    loop {
        found.push((tokens.name(alloc)?, None))?;
        if !tokens.eat(Mark::Comma) {
            return Ok(found);
        }
    }
}

/// The clauses behind the list and the targets, and `;`.
fn selected(
    alloc: Global,
    tokens: &mut Cursor<'_>,
    strict: bool,
    names: Items<(Name, Option<u32>)>,
    list: Items<Item>,
) -> Result<Stmt, Refusal>
    ensures found { Gives AnyTree any_plan (part statement)
        (selected_plan (strict, names) list) tokens.old result tokens.new }
    ensures shrinks { length tokens.new ≤ length tokens.old }
{
    let query = clauses_of(alloc, tokens, list)?;
    tokens.expect(Mark::Semicolon)?;
    Ok(into_with(strict, names, query))
}

fn into_with(strict: bool, names: Items<(Name, Option<u32>)>, query: Boxed<Selected>) -> Stmt
    ensures { result ≡ made.Into strict names query }
{
    Stmt::Into {
        strict,
        targets: names,
        query: query.into_inner(),
    }
}
