//! Statements and blocks, by descent (PostgreSQL manual, 43.2, Structure of PL/pgSQL, and 43.6, Control Structures).

ghost use Rattle.std.specs.Prelude.{◌≡◌, ◌≤◌, ◌<◌, ◌∷◌, ◌⊎◌, length, IfOk, Some, None};
ghost use Rattle.std.specs.Bool.{OnTrue, OnFalse};
ghost use Rattle.away_grammar.specs.declared.grammar.Mark.TheVariants.{Elsif, Elseif};
ghost use Rattle.away_trees.specs.declared.statements.Stmt.TheVariants as made;
ghost use Rattle.away_grammar.specs.Terminals.{mark};
ghost use Rattle.away_grammar.specs.FunctionGrammar as grammar;
ghost use Rattle.away_grammar.specs.FunctionGrammar.{branch, elsifs, whens, statement, statements};
ghost use Rattle.sql_text.specs.Plans.{Begins, Gives};
ghost use Rattle.plsql_parse.specs.Sorts.{AnyTree, part};
ghost use Rattle.plsql_parse.specs.Bodies.{statements_plan, statement_plan, labelled_plan, marked_plan, if_plan, cases_plan};
ghost use Rattle.plsql_parse.specs.Bodies.{elsif_plan, when_plan, branch_plan, otherwise_plan, block_plan, begun_plan};
ghost use Rattle.plsql_parse.specs.Bodies.{repeated_plan, repeating_plan};
ghost use Rattle.plsql_parse.specs.Plans.{any_plan};
ghost use Rattle.plsql_parse.specs.Taken.{EndTaken, arm_with};

use crate::declarations::decls_of;
use crate::expressions::value_of;
use crate::lookahead::{sees_block, sees_closing, sees_opening};
use crate::loop_kinds::kind_of;
use crate::select_into::select_statement;
use crate::simple_statements::{
    assignment_statement, continue_statement, exit_statement, null_statement, raise_statement,
    return_statement,
};
use away_grammar::Mark;
use away_lex::folded;
use away_trees::{Arm, Decl, Expr, LoopKind, Stmt};
use away_values::Name;
use sql_text::{Cursor, Refusal, Terminal};
use sqlite_items::{Boxed, Items};
use std::alloc::Global;

/// Statements, up to a mark that ends them.
#[cycle(reader)]
fn statements_of(alloc: Global, tokens: &mut Cursor<'_>) -> Result<Items<Stmt>, Refusal>
    ensures found { Gives AnyTree any_plan
        (part statements) statements_plan tokens.old result tokens.new }
    ensures shrinks { length tokens.new ≤ length tokens.old }
{
    let mut found = Items::new(alloc);
    while !sees_closing(tokens) {
        found.push(statement_of(alloc, tokens)?)?;
    }
    Ok(found)
}

#[cycle(reader)]
pub fn statement_of(alloc: Global, tokens: &mut Cursor<'_>) -> Result<Stmt, Refusal>
    ensures found { Gives AnyTree any_plan
        (part statement) statement_plan tokens.old result tokens.new }
    ensures shrinks { length tokens.new ≤ length tokens.old }
    ensures shorter { IfOk result (λ _. length tokens.new < length tokens.old) }
{
    if tokens.eat(Mark::LabelOpen) {
        let label = tokens.name(alloc)?;
        tokens.expect(Mark::LabelClose)?;
        return labelled(alloc, tokens, Some(label));
    }
    if sees_opening(tokens) {
        return labelled(alloc, tokens, None);
    }
    match tokens.take() {
        Some(Terminal::Name(text)) => {
            let name = folded(alloc, text)?;
            assignment_statement(alloc, tokens, name)
        }
        Some(Terminal::Mark(mark)) => marked(alloc, tokens, mark),
        Some(Terminal::Integer(_)) => Err(Refusal::NoTree),
        Some(Terminal::Text(_)) => Err(Refusal::NoTree),
        Some(Terminal::Parameter(_)) => Err(Refusal::NoTree),
        Some(Terminal::Quote(_)) => Err(Refusal::NoTree),
        None => Err(Refusal::NoTree),
    }
}

/// A block or a loop behind its label.
#[cycle(reader)]
fn labelled(alloc: Global, tokens: &mut Cursor<'_>, label: Option<Name>) -> Result<Stmt, Refusal>
    ensures found { Gives AnyTree any_plan (part statement)
        (labelled_plan label) tokens.old result tokens.new }
    ensures shrinks { length tokens.new ≤ length tokens.old }
    ensures shorter { IfOk result (λ _. length tokens.new < length tokens.old) }
{
    if sees_block(tokens) {
        let found = block(alloc, tokens, label)?;
        tokens.expect(Mark::Semicolon)?;
        Ok(found.into_inner())
    } else {
        let found = repeated(alloc, tokens, label)?;
        tokens.expect(Mark::Semicolon)?;
        Ok(found.into_inner())
    }
}

/// What a reserved word begins, behind it.
#[cycle(reader)]
fn marked(alloc: Global, tokens: &mut Cursor<'_>, mark: Mark) -> Result<Stmt, Refusal>
    ensures found { Gives AnyTree any_plan (part statement)
        (marked_plan mark) tokens.old result tokens.new }
    ensures shrinks { length tokens.new ≤ length tokens.old }
{
    match mark {
        Mark::Null => null_statement(tokens),
        Mark::Return => return_statement(alloc, tokens),
        Mark::If => if_of(alloc, tokens),
        Mark::Case => case_of(alloc, tokens),
        Mark::Exit => exit_statement(alloc, tokens),
        Mark::Continue => continue_statement(alloc, tokens),
        Mark::Raise => raise_statement(alloc, tokens),
        Mark::Select => select_statement(alloc, tokens),
        _ => Err(Refusal::NoTree),
    }
}

/// The arms behind IF, ELSE if it stands there, and END IF.
#[cycle(reader)]
fn if_of(alloc: Global, tokens: &mut Cursor<'_>) -> Result<Stmt, Refusal>
    ensures found { Gives AnyTree any_plan (part statement) if_plan tokens.old result tokens.new }
    ensures shrinks { length tokens.new ≤ length tokens.old }
{
    let arms = elsif_arms(alloc, tokens)?;
    let other = otherwise(alloc, tokens)?;
    end_of(tokens, Mark::If)?;
    Ok(Stmt::If(arms, other))
}

/// WHEN and the arms behind CASE, ELSE if it stands there, and END CASE.
#[cycle(reader)]
fn case_of(alloc: Global, tokens: &mut Cursor<'_>) -> Result<Stmt, Refusal>
    ensures found { Gives AnyTree any_plan
        (part statement) cases_plan tokens.old result tokens.new }
    ensures shrinks { length tokens.new ≤ length tokens.old }
{
    tokens.expect(Mark::When)?;
    let arms = when_arms(alloc, tokens)?;
    let other = otherwise(alloc, tokens)?;
    end_of(tokens, Mark::Case)?;
    Ok(Stmt::Cases(arms, other))
}

/// END, the mark that the statement began with, and `;`.
fn end_of(tokens: &mut Cursor<'_>, mark: Mark) -> Result<(), Refusal>
    ensures found { EndTaken mark tokens.old result tokens.new }
    ensures shrinks { length tokens.new ≤ length tokens.old }
{
    tokens.expect(Mark::End)?;
    tokens.expect(mark)?;
    tokens.expect(Mark::Semicolon)
}

/// The first arm of IF, and those behind ELSIF or ELSEIF.
#[cycle(reader)]
fn elsif_arms(alloc: Global, tokens: &mut Cursor<'_>) -> Result<Items<Arm>, Refusal>
    ensures found { Gives AnyTree any_plan (part elsifs) elsif_plan tokens.old result tokens.new }
    ensures shrinks { length tokens.new ≤ length tokens.old }
{
    let mut found = Items::new(alloc);
    loop {
        found.push(arm_of(alloc, tokens)?)?;
        if !eat_elsif(tokens) {
            return Ok(found);
        }
    }
}

/// Takes ELSIF or ELSEIF, if one of them stands next.
pub fn eat_elsif(tokens: &mut Cursor<'_>) -> bool
    ensures yes { OnTrue result ((tokens.old ≡ mark Elsif ∷ tokens.new)
        ⊎ ((tokens.old ≡ mark Elseif ∷ tokens.new) × ¬ (Begins tokens.old Elsif))) }
    ensures no { OnFalse result ((tokens.new ≡ tokens.old) × ¬ (Begins tokens.old Elsif)
        × ¬ (Begins tokens.old Elseif)) }
    ensures shrinks { length tokens.new ≤ length tokens.old }
    ensures shorter { OnTrue result (length tokens.new < length tokens.old) }
{
    tokens.eat(Mark::Elsif) || tokens.eat(Mark::Elseif)
}

/// The first arm of CASE, and those behind WHEN.
#[cycle(reader)]
fn when_arms(alloc: Global, tokens: &mut Cursor<'_>) -> Result<Items<Arm>, Refusal>
    ensures found { Gives AnyTree any_plan (part whens) when_plan tokens.old result tokens.new }
    ensures shrinks { length tokens.new ≤ length tokens.old }
{
    let mut found = Items::new(alloc);
    loop {
        found.push(arm_of(alloc, tokens)?)?;
        if !tokens.eat(Mark::When) {
            return Ok(found);
        }
    }
}

/// A condition, THEN and its statements.
#[cycle(reader)]
pub fn arm_of(alloc: Global, tokens: &mut Cursor<'_>) -> Result<Arm, Refusal>
    ensures found { Gives AnyTree any_plan (part branch) branch_plan tokens.old result tokens.new }
    ensures shrinks { length tokens.new ≤ length tokens.old }
{
    let test = value_of(alloc, tokens)?;
    tokens.expect(Mark::Then)?;
    let body = statements_of(alloc, tokens)?;
    Ok(new_arm(test, body))
}

fn new_arm(test: Boxed<Expr>, body: Items<Stmt>) -> Arm
    ensures { result ≡ arm_with test body }
{
    Arm {
        test: test.into_inner(),
        body,
    }
}

/// The statements behind ELSE, if it stands there.
#[cycle(reader)]
fn otherwise(alloc: Global, tokens: &mut Cursor<'_>) -> Result<Option<Items<Stmt>>, Refusal>
    ensures found { Gives AnyTree any_plan
        (part grammar.otherwise) otherwise_plan tokens.old result tokens.new }
    ensures shrinks { length tokens.new ≤ length tokens.old }
{
    if tokens.eat(Mark::Else) {
        Ok(Some(statements_of(alloc, tokens)?))
    } else {
        Ok(None)
    }
}

/// A block behind its label.
#[cycle(reader)]
pub(crate) fn block(
    alloc: Global,
    tokens: &mut Cursor<'_>,
    label: Option<Name>,
) -> Result<Boxed<Stmt>, Refusal>
    ensures found { Gives AnyTree any_plan (part (grammar.block label))
        (block_plan label) tokens.old result tokens.new }
    ensures shrinks { length tokens.new ≤ length tokens.old }
    ensures shorter { IfOk result (λ _. length tokens.new < length tokens.old) }
{
    if !tokens.eat(Mark::Declare) {
        tokens.expect(Mark::Begin)?;
        return begun(alloc, tokens, label, Items::new(alloc));
    }
    let decls = decls_of(alloc, tokens)?;
    tokens.expect(Mark::Begin)?;
    begun(alloc, tokens, label, decls)
}

/// The statements of a block, END, and the name behind it if one stands there.
#[cycle(reader)]
fn begun(
    alloc: Global,
    tokens: &mut Cursor<'_>,
    label: Option<Name>,
    decls: Items<Decl>,
) -> Result<Boxed<Stmt>, Refusal>
    ensures found { Gives AnyTree any_plan (part (grammar.block label))
        (begun_plan label decls) tokens.old result tokens.new }
    ensures shrinks { length tokens.new ≤ length tokens.old }
{
    let body = statements_of(alloc, tokens)?;
    tokens.expect(Mark::End)?;
    let closing = tokens.perhaps_name(alloc)?;
    Ok(Boxed::new(alloc, new_block(label, decls, body, closing))?)
}

fn new_block(
    label: Option<Name>,
    decls: Items<Decl>,
    body: Items<Stmt>,
    closing: Option<Name>,
) -> Stmt
    ensures { result ≡ made.Block label decls body closing }
{
    Stmt::Block {
        label,
        decls,
        body,
        closing,
    }
}

/// A loop behind its label.
#[cycle(reader)]
fn repeated(
    alloc: Global,
    tokens: &mut Cursor<'_>,
    label: Option<Name>,
) -> Result<Boxed<Stmt>, Refusal>
    ensures found { Gives AnyTree any_plan (part (grammar.repeated label))
        (repeated_plan label) tokens.old result tokens.new }
    ensures shrinks { length tokens.new ≤ length tokens.old }
    ensures shorter { IfOk result (λ _. length tokens.new < length tokens.old) }
{
    let kind = kind_of(alloc, tokens)?;
    tokens.expect(Mark::Loop)?;
    repeating(alloc, tokens, label, kind)
}

/// The statements of a loop, END LOOP, and the name behind it if one stands there.
#[cycle(reader)]
fn repeating(
    alloc: Global,
    tokens: &mut Cursor<'_>,
    label: Option<Name>,
    kind: Boxed<LoopKind>,
) -> Result<Boxed<Stmt>, Refusal>
    ensures found { Gives AnyTree any_plan (part (grammar.repeated label))
        (repeating_plan label kind) tokens.old result tokens.new }
    ensures shrinks { length tokens.new ≤ length tokens.old }
{
    let body = statements_of(alloc, tokens)?;
    tokens.expect(Mark::End)?;
    tokens.expect(Mark::Loop)?;
    let closing = tokens.perhaps_name(alloc)?;
    Ok(Boxed::new(alloc, new_loop(label, kind, body, closing))?)
}

fn new_loop(
    label: Option<Name>,
    kind: Boxed<LoopKind>,
    body: Items<Stmt>,
    closing: Option<Name>,
) -> Stmt
    ensures { result ≡ made.Loop label kind body closing }
{
    Stmt::Loop {
        label,
        kind: kind.into_inner(),
        body,
        closing,
    }
}
