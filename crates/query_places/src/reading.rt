//! The reader of queries without its trees: it takes the tokens that a query has.

ghost use Rattle.std.specs.Prelude.{◌≤◌, ◌<◌, length, IfOk};

use away_grammar::Mark;
use sql_text::{Cursor, Refusal, Terminal, from_of, items_of, limit_of, order_of, where_of};
use std::alloc::Global;

fn pass_items(alloc: Global, tokens: &mut Cursor<'_>) -> Result<(), Refusal>
    ensures { length tokens.new ≤ length tokens.old }
{
    match items_of(alloc, tokens) {
        Ok(_) => Ok(()),
        Err(error) => Err(error),
    }
}

fn pass_from(alloc: Global, tokens: &mut Cursor<'_>) -> Result<(), Refusal>
    ensures { length tokens.new ≤ length tokens.old }
{
    match from_of(alloc, tokens) {
        Ok(_) => Ok(()),
        Err(error) => Err(error),
    }
}

fn pass_where(alloc: Global, tokens: &mut Cursor<'_>) -> Result<(), Refusal>
    ensures { length tokens.new ≤ length tokens.old }
{
    match where_of(alloc, tokens) {
        Ok(_) => Ok(()),
        Err(error) => Err(error),
    }
}

fn pass_order(alloc: Global, tokens: &mut Cursor<'_>) -> Result<(), Refusal>
    ensures { length tokens.new ≤ length tokens.old }
{
    match order_of(alloc, tokens) {
        Ok(_) => Ok(()),
        Err(error) => Err(error),
    }
}

fn pass_limit(alloc: Global, tokens: &mut Cursor<'_>) -> Result<(), Refusal>
    ensures { length tokens.new ≤ length tokens.old }
{
    match limit_of(alloc, tokens) {
        Ok(_) => Ok(()),
        Err(error) => Err(error),
    }
}

/// Takes a select up to its ORDER BY and its LIMIT.
fn pass_plain(alloc: Global, tokens: &mut Cursor<'_>) -> Result<(), Refusal>
    ensures shrinks { length tokens.new ≤ length tokens.old }
    ensures shorter { IfOk result (λ _. length tokens.new < length tokens.old) }
{
    tokens.expect(Mark::Select)?;
    pass_items(alloc, tokens)?;
    pass_from(alloc, tokens)?;
    pass_where(alloc, tokens)
}

/// Takes ORDER BY and LIMIT where they stand next. Whether neither did.
fn pass_end(alloc: Global, tokens: &mut Cursor<'_>) -> Result<bool, Refusal>
    ensures { length tokens.new ≤ length tokens.old }
{
    let before = tokens.left();
    pass_order(alloc, tokens)?;
    pass_limit(alloc, tokens)?;
    Ok(tokens.left() == before)
}

/// Takes a select. Whether it has neither ORDER BY nor LIMIT.
fn pass_select(alloc: Global, tokens: &mut Cursor<'_>) -> Result<bool, Refusal>
    ensures shrinks { length tokens.new ≤ length tokens.old }
    ensures shorter { IfOk result (λ _. length tokens.new < length tokens.old) }
{
    pass_plain(alloc, tokens)?;
    pass_end(alloc, tokens)
}

/// Takes selects with UNION ALL between them. One with ORDER BY or LIMIT stands alone.
fn pass_selects(alloc: Global, tokens: &mut Cursor<'_>) -> Result<(), Refusal>
    ensures { length tokens.new ≤ length tokens.old }
{
    if !pass_select(alloc, tokens)? {
        return Ok(());
    }
    while tokens.eat(Mark::Union) {
        tokens.expect(Mark::All)?;
        pass_plain(alloc, tokens)?;
    }
    Ok(())
}

/// Takes the terms of a recursive table: two or more selects with UNION ALL between them.
fn pass_terms(alloc: Global, tokens: &mut Cursor<'_>) -> Result<(), Refusal>
    ensures { length tokens.new ≤ length tokens.old }
{
    pass_select(alloc, tokens)?;
    tokens.expect(Mark::Union)?;
    tokens.expect(Mark::All)?;
    pass_select(alloc, tokens)?;
    while tokens.eat(Mark::Union) {
        tokens.expect(Mark::All)?;
        pass_select(alloc, tokens)?;
    }
    Ok(())
}

fn pass_name(tokens: &mut Cursor<'_>) -> Result<(), Refusal>
    ensures { length tokens.new ≤ length tokens.old }
{
    match tokens.take() {
        Some(Terminal::Name(_)) => Ok(()),
        _ => Err(Refusal::NoTree),
    }
}

/// Takes names with commas between them.
fn pass_names(tokens: &mut Cursor<'_>) -> Result<(), Refusal>
    ensures { length tokens.new ≤ length tokens.old }
{
    pass_name(tokens)?;
    while tokens.eat(Mark::Comma) {
        pass_name(tokens)?;
    }
    Ok(())
}

/// Takes WITH RECURSIVE, the table and its columns.
fn pass_head(tokens: &mut Cursor<'_>) -> Result<(), Refusal>
    ensures { length tokens.new ≤ length tokens.old }
{
    tokens.expect(Mark::With)?;
    tokens.expect(Mark::Recursive)?;
    pass_name(tokens)?;
    tokens.expect(Mark::Open)?;
    pass_names(tokens)?;
    tokens.expect(Mark::Close)
}

/// Takes WITH RECURSIVE with its terms.
fn pass_with(alloc: Global, tokens: &mut Cursor<'_>) -> Result<(), Refusal>
    ensures { length tokens.new ≤ length tokens.old }
{
    pass_head(tokens)?;
    tokens.expect(Mark::As)?;
    tokens.expect(Mark::Open)?;
    pass_terms(alloc, tokens)?;
    tokens.expect(Mark::Close)
}

/// Takes a query, perhaps behind WITH RECURSIVE, and perhaps with `;` at its end.
pub(crate) fn pass_query(alloc: Global, tokens: &mut Cursor<'_>) -> Result<(), Refusal>
    ensures { length tokens.new ≤ length tokens.old }
{
    if tokens.sees_with() {
        pass_with(alloc, tokens)?;
    }
    pass_selects(alloc, tokens)?;
    tokens.eat(Mark::Semicolon);
    Ok(())
}
