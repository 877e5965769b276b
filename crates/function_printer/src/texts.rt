//! The text of a function, of an expression, and of the two parts of a select.

ghost use Rattle.std.specs.Prelude.{◌≡◌, ◌<◌, ◌^◌, ℕ, List, [], ◌∷◌, ◌++◌, IfOk, None, OnOk, IsUtf8, length, string_bytes};
ghost use Rattle.away_trees.specs.declared.queries.Expr.TheViews.{roll-Query};
ghost use Rattle.away_grammar.specs.declared.grammar.Level.{Level};
ghost use Rattle.away_grammar.specs.Grammar.{Reads, at};
ghost use Rattle.away_grammar.specs.Terminals.{Terminal};
ghost use Rattle.away_grammar.specs.Printing.{query_text, terminals_text};
ghost use Rattle.sql_printer.specs.PrintedTerminals.{Adds};
ghost use Rattle.sql_printer.specs.Writable.{AllWritable};
ghost use Rattle.function_printer.specs.FunctionTerminals.{function_terminals, statement_terminals};
ghost use Rattle.away_grammar.specs.FunctionGrammar.{ReadsFunction};
ghost use Rattle.function_printer.specs.FunctionTexts.{ReadsExpression, body_text, clauses_text, expression_terminals, expression_text, function_text};
ghost use Rattle.function_printer.specs.FunctionTexts.{in_marks, list_text, spaced_text, with_space};

use crate::closed::add_closed;
use crate::headers::add_function;
use crate::laws::functions_that_were_read_print_back;
use crate::parts::{add_clauses, add_list, add_whole};
use crate::statements::add_statement;
use crate::tags::free_mark;
use away_grammar::Mark;
use away_trees::{Expr, Function, Select, Stmt};
use away_values::NoMemory;
use sql_printer::{TerminalList, laid_out};
use std::alloc::Global;

/// The text of an expression. Where it is closed, it may stand before LOOP: a CASE expression that would end it stands in
/// parentheses. Where terminals that can be written read as the expression, this text does.
pub fn print_expr(alloc: Global, expr: &Expr, closed: bool) -> Result<String, NoMemory>
    ensures text { IfOk result (λ text. string_bytes text ≡ expression_text expr.now closed) }
    ensures reads { IfOk result (λ text. (level : Level) (ts rest : List Terminal) → AllWritable ts
        → Reads (at level) ts expr.now rest → ReadsExpression (string_bytes text) expr.now) }
{
    let mut terminals = TerminalList::new(alloc);
    add_expression(&mut terminals, expr, closed)?;
    spaced(alloc, &terminals)
}

fn add_expression<'a>(
    terminals: &mut TerminalList<'a>,
    expr: &'a Expr,
    closed: bool,
) -> Result<(), NoMemory>
    ensures { Adds (expression_terminals expr.now closed) terminals.old result terminals.new }
{
    if closed {
        add_closed(terminals, expr)
    } else {
        add_whole(terminals, expr)
    }
}

/// The text of a select in two parts: SELECT with the list, and what follows the list. With a space between them, where the
/// second isn't empty, they are the text of the query of the select alone, but for its line feed.
pub fn print_parts(alloc: Global, select: &Select) -> Result<(String, String), NoMemory>
    ensures parts { IfOk result (λ texts. (string_bytes texts.0 ≡ list_text select.now)
        × (string_bytes texts.1 ≡ clauses_text select.now)) }
    ensures joined { IfOk result (λ texts. query_text (roll-Query
        (record { recursive = None; selects = select.now ∷ [] }))
        ≡ with_space (string_bytes texts.0) (string_bytes texts.1) ++ 10 ∷ []) }
{
    let list = print_list(alloc, select)?;
    let clauses = print_clauses(alloc, select)?;
    Ok((list, clauses))
}

fn print_list(alloc: Global, select: &Select) -> Result<String, NoMemory>
    ensures { IfOk result (λ text. string_bytes text ≡ list_text select.now) }
{
    let mut terminals = TerminalList::new(alloc);
    terminals.mark(Mark::Select)?;
    add_list(&mut terminals, select)?;
    spaced(alloc, &terminals)
}

fn print_clauses(alloc: Global, select: &Select) -> Result<String, NoMemory>
    ensures { IfOk result (λ text. string_bytes text ≡ clauses_text select.now) }
{
    let mut terminals = TerminalList::new(alloc);
    add_clauses(&mut terminals, select)?;
    spaced(alloc, &terminals)
}

/// The text of a function. Where some text reads as the function, this one does.
pub fn print_function(alloc: Global, function: &Function) -> Result<String, NoMemory>
    ensures text { IfOk result (λ text. string_bytes text ≡ function_text function.now) }
    ensures reads { IfOk result (λ text. (z : List ℕ) → IsUtf8 z → ReadsFunction z function.now
        → ReadsFunction (string_bytes text) function.now) }
{
    let quote = quoted_body(alloc, &function.body)?;
    functions_that_were_read_print_back();
    around(alloc, function, quote.as_str())
}

/// The text of a function whose body is written as this dollar quote.
fn around(alloc: Global, function: &Function, quote: &str) -> Result<String, NoMemory>
    ensures { IfOk result (λ text. string_bytes text ≡ terminals_text
        (function_terminals function.now quote.now)) }
{
    let mut terminals = TerminalList::new(alloc);
    add_function(&mut terminals, function, quote)?;
    laid_out(alloc, terminals.as_slice())
}

/// The body as a dollar quote.
fn quoted_body(alloc: Global, body: &Stmt) -> Result<String, NoMemory>
    ensures quote { IfOk result (λ text. string_bytes text ≡ in_marks (body_text body.now)) }
    ensures fits { IfOk result (λ text. length (body_text body.now) < 2 ^ 64) }
{
    let text = text_of_body(alloc, body)?;
    let mark = free_mark(alloc, text.as_str())?;
    enclosed(alloc, mark.as_str(), text.as_str())
}

/// What stands between the marks.
fn text_of_body(alloc: Global, body: &Stmt) -> Result<String, NoMemory>
    ensures { IfOk result (λ text. string_bytes text ≡ body_text body.now) }
{
    let inside = spaced_body(alloc, body)?;
    enclosed(alloc, " ", inside.as_str())
}

/// A text with the same at both ends.
fn enclosed(alloc: Global, ends: &str, inside: &str) -> Result<String, NoMemory>
    ensures { IfOk result (λ text. string_bytes text ≡ ends.now ++ (inside.now ++ ends.now)) }
{
    let mut text = String::new(alloc);
    push_enclosed(&mut text, ends, inside)?;
    Ok(text)
}

fn push_enclosed(text: &mut String, ends: &str, inside: &str) -> Result<(), NoMemory>
    ensures { OnOk result (string_bytes text.new ≡ string_bytes text.old
        ++ (ends.now ++ (inside.now ++ ends.now))) }
{
    text.push_str(ends)?;
    text.push_str(inside)?;
    text.push_str(ends)?;
    Ok(())
}

fn spaced_body(alloc: Global, body: &Stmt) -> Result<String, NoMemory>
    ensures { IfOk result (λ text. string_bytes text ≡ spaced_text
        (statement_terminals body.now)) }
{
    let mut terminals = TerminalList::new(alloc);
    add_statement(&mut terminals, body)?;
    spaced(alloc, &terminals)
}

/// The text of terminals, without a line feed at its end.
fn spaced(alloc: Global, terminals: &TerminalList<'_>) -> Result<String, NoMemory>
    ensures { IfOk result (λ text. string_bytes text ≡ spaced_text terminals.now) }
{
    let line = laid_out(alloc, terminals.as_slice())?;
    let mut text = String::new(alloc);
    text.push_str(without_line_feed(line.as_str()))?;
    Ok(text)
}

/// A line without its line feed.
fn without_line_feed(line: &str) -> &str
    requires { (text : List ℕ) × (line.now ≡ text ++ 10 ∷ []) }
    ensures { line.now ≡ result.now ++ 10 ∷ [] }
{
    let (text, _) = line.split_at(line.len() - 1);
    text
}
