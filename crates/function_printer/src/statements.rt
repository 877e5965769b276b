//! Statements.

ghost use Rattle.std.specs.Prelude.{◌++◌, ◌∷◌, [], map};
ghost use Rattle.away_trees.specs.StatementAlgebra.{branch_of};
ghost use Rattle.away_trees.specs.declared.statements.Stmt.TheVariants as stmt;
ghost use Rattle.away_grammar.specs.Printing.{joined};
ghost use Rattle.away_grammar.specs.Terminals as terminal;
ghost use Rattle.away_grammar.specs.declared.grammar.Mark.TheVariants as m;
ghost use Rattle.sql_printer.specs.PrintedTerminals.{Adds};
ghost use Rattle.function_printer.specs.FunctionTerminals.{in_order, printing_statements, semicolon, statement_terminals};

use crate::parts::{
    add_clauses, add_closing, add_condition, add_decls, add_end, add_kind, add_label, add_list,
    add_name, add_raised, add_semicolon, add_targets, add_whole,
};
use away_grammar::Mark;
use away_trees::{Arm, Select, Stmt};
use away_values::{Name, NoMemory};
use sql_printer::TerminalList;

/// Adds a statement.
#[cycle(statements)]
pub fn add_statement<'a>(
    terminals: &mut TerminalList<'a>,
    statement: &'a Stmt,
) -> Result<(), NoMemory>
    ensures { Adds (statement_terminals statement.now) terminals.old result terminals.new }
{
    match statement {
        Stmt::Block {
            label,
            decls,
            body,
            closing,
        } => {
            add_label(terminals, label)?;
            add_decls(terminals, decls.as_slice())?;
            terminals.mark(Mark::Begin)?;
            add_statements(terminals, body.as_slice())?;
            terminals.mark(Mark::End)?;
            add_closing(terminals, closing)
        }
        Stmt::Assign(name, _, value) => {
            terminals.name(name)?;
            terminals.mark(Mark::Assign)?;
            add_whole(terminals, value)?;
            add_semicolon(terminals)
        }
        Stmt::If(arms, other) => {
            terminals.mark(Mark::If)?;
            add_arms(terminals, Mark::Elsif, arms.as_slice())?;
            match other {
                None => add_end(terminals, Mark::If),
                Some(body) => add_else(terminals, body.as_slice(), Mark::If),
            }
        }
        Stmt::Cases(arms, other) => {
            terminals.mark(Mark::Case)?;
            terminals.mark(Mark::When)?;
            add_arms(terminals, Mark::When, arms.as_slice())?;
            match other {
                None => add_end(terminals, Mark::Case),
                Some(body) => add_else(terminals, body.as_slice(), Mark::Case),
            }
        }
        Stmt::Loop {
            label,
            kind,
            body,
            closing,
        } => {
            add_label(terminals, label)?;
            add_kind(terminals, kind)?;
            terminals.mark(Mark::Loop)?;
            add_statements(terminals, body.as_slice())?;
            terminals.mark(Mark::End)?;
            terminals.mark(Mark::Loop)?;
            add_closing(terminals, closing)
        }
        Stmt::Exit(label, condition) => {
            terminals.mark(Mark::Exit)?;
            add_name(terminals, label)?;
            add_condition(terminals, condition)?;
            add_semicolon(terminals)
        }
        Stmt::Continue(label, condition) => {
            terminals.mark(Mark::Continue)?;
            add_name(terminals, label)?;
            add_condition(terminals, condition)?;
            add_semicolon(terminals)
        }
        Stmt::Return(value) => {
            terminals.mark(Mark::Return)?;
            add_whole(terminals, value)?;
            add_semicolon(terminals)
        }
        Stmt::Raise(raised) => {
            terminals.mark(Mark::Raise)?;
            terminals.known_name("EXCEPTION")?;
            add_raised(terminals, raised)?;
            add_semicolon(terminals)
        }
        Stmt::Into {
            strict,
            targets,
            query,
        } => add_into(terminals, *strict, targets.as_slice(), query),
        Stmt::Nothing => {
            terminals.mark(Mark::Null)?;
            add_semicolon(terminals)
        }
    }
}

/// Adds a SELECT INTO.
fn add_into<'a>(
    terminals: &mut TerminalList<'a>,
    strict: bool,
    targets: &'a [(Name, Option<u32>)],
    query: &'a Select,
) -> Result<(), NoMemory>
    ensures { Adds (statement_terminals
        (stmt.Into strict targets.now query.now)) terminals.old result terminals.new }
{
    terminals.mark(Mark::Select)?;
    add_list(terminals, query)?;
    terminals.mark(Mark::Into)?;
    terminals.mark_if(strict, Mark::Strict)?;
    add_targets(terminals, targets)?;
    add_clauses(terminals, query)?;
    add_semicolon(terminals)
}

/// Adds statements, one behind the other.
#[cycle(statements)]
fn add_statements<'a>(
    terminals: &mut TerminalList<'a>,
    statements: &'a [Stmt],
) -> Result<(), NoMemory>
    ensures { Adds (in_order
        (map (λ s. statement_terminals s) statements.now)) terminals.old result terminals.new }
{
    for statement in statements {
        add_statement(terminals, statement)?;
    }
    Ok(())
}

/// Adds conditions with their statements, and this mark between any two.
#[cycle(statements)]
fn add_arms<'a>(
    terminals: &mut TerminalList<'a>,
    between: Mark,
    arms: &'a [Arm],
) -> Result<(), NoMemory>
    ensures { Adds (joined (terminal.mark between ∷ [])
        (map (λ a. branch_of printing_statements a) arms.now)) terminals.old result terminals.new }
{
    for (index, arm) in arms.iter().enumerate() {
        terminals.mark_if(index > 0, between)?;
        add_arm(terminals, arm)?;
    }
    Ok(())
}

#[cycle(statements)]
fn add_arm<'a>(terminals: &mut TerminalList<'a>, arm: &'a Arm) -> Result<(), NoMemory>
    ensures { Adds (branch_of printing_statements arm.now) terminals.old result terminals.new }
{
    add_whole(terminals, &arm.test)?;
    terminals.mark(Mark::Then)?;
    add_statements(terminals, arm.body.as_slice())
}

/// Adds ELSE with its statements, and what ends the statement that it is in.
#[cycle(statements)]
fn add_else<'a>(
    terminals: &mut TerminalList<'a>,
    body: &'a [Stmt],
    closing: Mark,
) -> Result<(), NoMemory>
    ensures { Adds (terminal.mark m.Else ∷ (in_order (map (λ s. statement_terminals s) body.now)
        ++ terminal.mark m.End ∷ terminal.mark closing
        ∷ semicolon)) terminals.old result terminals.new }
{
    terminals.mark(Mark::Else)?;
    add_statements(terminals, body)?;
    add_end(terminals, closing)
}
