//! Expressions before LOOP.

ghost use Rattle.sql_printer.specs.PrintedTerminals.{Adds};
ghost use Rattle.function_printer.specs.Closed.{closed, closed_at, closed_chain, link_at};

use away_grammar::{Level, Mark};
use away_trees::Expr;
use away_values::{ChainOp, NoMemory};
use sql_printer::{
    TerminalList, add_expr, comparison_mark, is_looser, level_of, level_of_chain,
    level_of_operands, operator_mark,
};

/// Adds an expression. A CASE expression that would end it stands in parentheses.
#[cycle(close)]
pub fn add_closed<'a>(terminals: &mut TerminalList<'a>, expr: &'a Expr) -> Result<(), NoMemory>
    ensures { Adds (closed expr.now) terminals.old result terminals.new }
{
    match expr {
        Expr::Neg(operand) | Expr::NegSmall(operand) => {
            terminals.mark(Mark::Minus)?;
            add_closed_at(terminals, Level::Cast, operand.get())
        }
        Expr::Not(operand) => {
            terminals.mark(Mark::Not)?;
            add_closed_at(terminals, Level::Is, operand.get())
        }
        Expr::Chain(first, links) => {
            let level = level_of_chain(links.as_slice());
            add_expr(terminals, level_of_operands(level), first.get())?;
            add_closed_links(terminals, level, links.as_slice())
        }
        Expr::Compare(op, left, right) => {
            add_expr(terminals, Level::Range, left.get())?;
            terminals.mark(comparison_mark(*op))?;
            add_closed_at(terminals, Level::Range, right.get())
        }
        Expr::Between(negative, operand, low, high) => {
            add_expr(terminals, Level::Concat, operand.get())?;
            terminals.mark_if(*negative, Mark::Not)?;
            terminals.mark(Mark::Between)?;
            add_expr(terminals, Level::Concat, low.get())?;
            terminals.mark(Mark::And)?;
            add_closed_at(terminals, Level::Concat, high.get())
        }
        Expr::Cases(..) => {
            terminals.mark(Mark::Open)?;
            add_expr(terminals, Level::Or, expr)?;
            terminals.mark(Mark::Close)
        }
        Expr::Int(_)
        | Expr::Str(_)
        | Expr::Bool(_)
        | Expr::Null
        | Expr::Named(_)
        | Expr::Dotted(..)
        | Expr::Slot(_)
        | Expr::Column(_)
        | Expr::Param(..)
        | Expr::Is(..)
        | Expr::OneOf(..)
        | Expr::Cast(..)
        | Expr::Call(..)
        | Expr::CountRows
        | Expr::Scalar(_)
        | Expr::Exists(_) => add_expr(terminals, Level::Or, expr),
    }
}

/// Adds an expression at a place that it ends.
#[cycle(close)]
fn add_closed_at<'a>(
    terminals: &mut TerminalList<'a>,
    place: Level,
    expr: &'a Expr,
) -> Result<(), NoMemory>
    ensures { Adds (closed_at place expr.now) terminals.old result terminals.new }
{
    if is_looser(level_of(expr), place) {
        add_expr(terminals, place, expr)
    } else {
        add_closed(terminals, expr)
    }
}

/// Adds the operators of a chain, each with its operand, of which the last one ends it.
#[cycle(close)]
fn add_closed_links<'a>(
    terminals: &mut TerminalList<'a>,
    level: Level,
    links: &'a [(ChainOp, Expr)],
) -> Result<(), NoMemory>
    ensures { Adds (closed_chain level links.now) terminals.old result terminals.new }
{
    for (index, link) in links.iter().enumerate() {
        add_closed_link(terminals, level, link.0, &link.1, index + 1 < links.len())?;
    }
    Ok(())
}

/// Adds an operator with its operand, which others follow or which ends the chain.
#[cycle(close)]
fn add_closed_link<'a>(
    terminals: &mut TerminalList<'a>,
    level: Level,
    op: ChainOp,
    operand: &'a Expr,
    is_followed: bool,
) -> Result<(), NoMemory>
    ensures { Adds (link_at level is_followed
        (op, operand.now)) terminals.old result terminals.new }
{
    terminals.mark(operator_mark(op))?;
    if is_followed {
        add_expr(terminals, level_of_operands(level), operand)
    } else {
        add_closed_at(terminals, level_of_operands(level), operand)
    }
}
