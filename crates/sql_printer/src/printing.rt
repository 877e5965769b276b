//! The text of a query: its terminals, terminal by terminal, and then their text.

ghost use Rattle.std.specs.Prelude.{◌≡◌, ◌∷◌, ◌++◌, [], List, IfOk, map, option_map, string_bytes};
ghost use Rattle.away_trees.specs.Algebra.{from_of, item_of, key_of, recursive_of, select_of, source_of};
ghost use Rattle.away_grammar.specs.Grammar.{Reads, file};
ghost use Rattle.away_grammar.specs.Printing as spec;
ghost use Rattle.away_grammar.specs.Printing.{placed, printed, printing, query_terminals, query_text};
ghost use Rattle.away_grammar.specs.Terminals.{Terminal};
ghost use Rattle.away_grammar.specs.Terminals as terminal;
ghost use Rattle.away_grammar.specs.Texts.{ReadsQuery};
ghost use Rattle.away_grammar.specs.declared.grammar.Mark.TheVariants as m;
ghost use Rattle.sql_printer.specs.PrintedTerminals.{Adds, arm_printed, each_before, link_printed};
ghost use Rattle.sql_printer.specs.Writable.{AllWritable};

use crate::layout::laid_out;
use crate::names_and_literals::{
    add_alias, add_alias_behind, add_columns, add_count, add_function, add_integer, add_names,
    add_parameter, add_qualified, add_test, add_type,
};
use crate::operators::{
    comparison_mark, is_looser, level_of, level_of_chain, level_of_operands, operator_mark,
    truth_mark,
};
use crate::terminal_list::TerminalList;
use away_grammar::{Level, Mark};
use away_trees::{Expr, FromItem, Item, Key, Query, Recursive, Select, Source};
use away_values::{ChainOp, NoMemory};
use sqlite_items::Boxed;
use std::alloc::Global;

/// The text of a query. Parentheses stand only where they are needed, reserved words are in upper case, and one LF ends the
/// text. What no text reads as, as a slot, prints as nothing.
pub fn print_query(alloc: Global, query: &Query) -> Result<String, NoMemory>
    ensures text { IfOk result (λ text. string_bytes text ≡ query_text query.now) }
    ensures reads { IfOk result (λ text. (ts : List Terminal) → AllWritable ts
        → Reads file ts query.now [] → ReadsQuery (string_bytes text) query.now) }
{
    let mut terminals = TerminalList::new(alloc);
    add_query(&mut terminals, query)?;
    laid_out(alloc, terminals.as_slice())
}

#[cycle(print)]
fn add_query<'a>(terminals: &mut TerminalList<'a>, query: &'a Query) -> Result<(), NoMemory>
    ensures { Adds (query_terminals query.now) terminals.old result terminals.new }
{
    match &query.recursive {
        None => add_selects(terminals, query.selects.as_slice()),
        Some(recursive) => {
            add_recursive(terminals, recursive)?;
            add_selects(terminals, query.selects.as_slice())
        }
    }
}

#[cycle(print)]
fn add_recursive<'a>(
    terminals: &mut TerminalList<'a>,
    recursive: &'a Recursive,
) -> Result<(), NoMemory>
    ensures { Adds (recursive_of printing recursive.now) terminals.old result terminals.new }
{
    terminals.mark(Mark::With)?;
    terminals.mark(Mark::Recursive)?;
    terminals.name(&recursive.name)?;
    terminals.mark(Mark::Open)?;
    add_names(terminals, recursive.columns.as_slice())?;
    terminals.mark(Mark::Close)?;
    terminals.mark(Mark::As)?;
    terminals.mark(Mark::Open)?;
    add_terms(terminals, recursive.first.as_slice())?;
    add_select(terminals, &recursive.second)?;
    terminals.mark(Mark::Close)
}

/// Adds the selects of the first term, with UNION ALL behind each.
#[cycle(print)]
fn add_terms<'a>(terminals: &mut TerminalList<'a>, selects: &'a [Select]) -> Result<(), NoMemory>
    ensures { Adds (each_before (terminal.mark m.Union ∷ terminal.mark m.All ∷ [])
        (map (select_of printing) selects.now)) terminals.old result terminals.new }
{
    for select in selects {
        add_select(terminals, select)?;
        terminals.mark(Mark::Union)?;
        terminals.mark(Mark::All)?;
    }
    Ok(())
}

#[cycle(print)]
fn add_selects<'a>(terminals: &mut TerminalList<'a>, selects: &'a [Select]) -> Result<(), NoMemory>
    ensures { Adds (spec.selects_terminals
        (map (select_of printing) selects.now)) terminals.old result terminals.new }
{
    for (index, select) in selects.iter().enumerate() {
        terminals.mark_if(index > 0, Mark::Union)?;
        terminals.mark_if(index > 0, Mark::All)?;
        add_select(terminals, select)?;
    }
    Ok(())
}

#[cycle(print)]
fn add_select<'a>(terminals: &mut TerminalList<'a>, select: &'a Select) -> Result<(), NoMemory>
    ensures { Adds (select_of printing select.now) terminals.old result terminals.new }
{
    terminals.mark(Mark::Select)?;
    add_items(terminals, select.list.as_slice())?;
    add_from(terminals, select.from.as_slice())?;
    add_where(terminals, &select.filter)?;
    add_order(terminals, select.order.as_slice())?;
    add_limit(terminals, &select.limit)
}

#[cycle(print)]
pub fn add_items<'a>(terminals: &mut TerminalList<'a>, items: &'a [Item]) -> Result<(), NoMemory>
    ensures { Adds (spec.with_commas
        (map (item_of printing) items.now)) terminals.old result terminals.new }
{
    for (index, item) in items.iter().enumerate() {
        terminals.mark_if(index > 0, Mark::Comma)?;
        add_item(terminals, item)?;
    }
    Ok(())
}

#[cycle(print)]
fn add_item<'a>(terminals: &mut TerminalList<'a>, item: &'a Item) -> Result<(), NoMemory>
    ensures { Adds (item_of printing item.now) terminals.old result terminals.new }
{
    add_expr(terminals, Level::Or, &item.expr)?;
    match &item.alias {
        None => Ok(()),
        Some(alias) => add_alias(terminals, alias),
    }
}

#[cycle(print)]
pub fn add_from<'a>(terminals: &mut TerminalList<'a>, items: &'a [FromItem]) -> Result<(), NoMemory>
    ensures { Adds (spec.from_terminals
        (map (from_of printing) items.now)) terminals.old result terminals.new }
{
    terminals.mark_if(!items.is_empty(), Mark::From)?;
    for (index, item) in items.iter().enumerate() {
        terminals.mark_if(index > 0, Mark::Comma)?;
        add_from_item(terminals, item)?;
    }
    Ok(())
}

#[cycle(print)]
fn add_from_item<'a>(terminals: &mut TerminalList<'a>, item: &'a FromItem) -> Result<(), NoMemory>
    ensures { Adds (from_of printing item.now) terminals.old result terminals.new }
{
    add_source(terminals, &item.source)?;
    add_alias_behind(terminals, &item.source, &item.alias)?;
    add_columns(terminals, item.columns.as_slice())
}

#[cycle(print)]
fn add_source<'a>(terminals: &mut TerminalList<'a>, source: &'a Source) -> Result<(), NoMemory>
    ensures { Adds (source_of printing source.now).terminals terminals.old result terminals.new }
{
    match source {
        Source::Table(name) => terminals.name(name),
        Source::Sub(query, lateral) => {
            terminals.mark_if(*lateral, Mark::Lateral)?;
            add_subquery(terminals, query.get())
        }
    }
}

#[cycle(print)]
pub fn add_where<'a>(
    terminals: &mut TerminalList<'a>,
    filter: &'a Option<Expr>,
) -> Result<(), NoMemory>
    ensures { Adds (spec.where_terminals
        (option_map printed filter.now)) terminals.old result terminals.new }
{
    match filter {
        None => Ok(()),
        Some(condition) => {
            terminals.mark(Mark::Where)?;
            add_expr(terminals, Level::Or, condition)
        }
    }
}

#[cycle(print)]
pub fn add_order<'a>(terminals: &mut TerminalList<'a>, keys: &'a [Key]) -> Result<(), NoMemory>
    ensures { Adds (spec.order_terminals
        (map (key_of printing) keys.now)) terminals.old result terminals.new }
{
    terminals.mark_if(!keys.is_empty(), Mark::Order)?;
    terminals.mark_if(!keys.is_empty(), Mark::By)?;
    for (index, key) in keys.iter().enumerate() {
        terminals.mark_if(index > 0, Mark::Comma)?;
        add_key(terminals, key)?;
    }
    Ok(())
}

#[cycle(print)]
fn add_key<'a>(terminals: &mut TerminalList<'a>, key: &'a Key) -> Result<(), NoMemory>
    ensures { Adds (key_of printing key.now) terminals.old result terminals.new }
{
    add_expr(terminals, Level::Or, &key.expr)?;
    terminals.mark_if(key.descending, Mark::Desc)
}

#[cycle(print)]
pub fn add_limit<'a>(
    terminals: &mut TerminalList<'a>,
    limit: &'a Option<Expr>,
) -> Result<(), NoMemory>
    ensures { Adds (spec.limit_terminals
        (option_map printed limit.now)) terminals.old result terminals.new }
{
    match limit {
        None => Ok(()),
        Some(count) => {
            terminals.mark(Mark::Limit)?;
            add_expr(terminals, Level::Or, count)
        }
    }
}

#[cycle(print)]
fn add_subquery<'a>(terminals: &mut TerminalList<'a>, query: &'a Query) -> Result<(), NoMemory>
    ensures { Adds (terminal.mark m.Open ∷ (query_terminals query.now ++ terminal.mark m.Close
        ∷ [])) terminals.old result terminals.new }
{
    terminals.mark(Mark::Open)?;
    add_query(terminals, query)?;
    terminals.mark(Mark::Close)
}

/// Adds an expression, in parentheses where it binds less than the place asks for.
#[cycle(print)]
pub fn add_expr<'a>(
    terminals: &mut TerminalList<'a>,
    place: Level,
    expr: &'a Expr,
) -> Result<(), NoMemory>
    ensures { Adds (placed place (printed expr.now)) terminals.old result terminals.new }
{
    if is_looser(level_of(expr), place) {
        terminals.mark(Mark::Open)?;
        add_inside(terminals, expr)?;
        terminals.mark(Mark::Close)
    } else {
        add_inside(terminals, expr)
    }
}

/// Adds an expression without parentheses round it.
#[cycle(print)]
fn add_inside<'a>(terminals: &mut TerminalList<'a>, expr: &'a Expr) -> Result<(), NoMemory>
    ensures { Adds (printed expr.now).terminals terminals.old result terminals.new }
{
    match expr {
        Expr::Int(number) => add_integer(terminals, *number),
        Expr::Str(text) => terminals.text(text),
        Expr::Bool(value) => terminals.mark(truth_mark(*value)),
        Expr::Null => terminals.mark(Mark::Null),
        Expr::Named(name) => terminals.name(name),
        Expr::Dotted(alias, name) => add_qualified(terminals, alias, name),
        Expr::Slot(_) | Expr::Column(_) => Ok(()),
        Expr::Param(number, ty) => add_parameter(terminals, *number, *ty),
        Expr::Neg(operand) | Expr::NegSmall(operand) => {
            terminals.mark(Mark::Minus)?;
            add_expr(terminals, Level::Cast, operand.get())
        }
        Expr::Not(operand) => {
            terminals.mark(Mark::Not)?;
            add_expr(terminals, Level::Is, operand.get())
        }
        Expr::Is(operand, test, negative) => {
            add_expr(terminals, Level::Compare, operand.get())?;
            add_test(terminals, *test, *negative)
        }
        Expr::Chain(first, links) => {
            let level = level_of_chain(links.as_slice());
            add_expr(terminals, level_of_operands(level), first.get())?;
            add_links(terminals, level, links.as_slice())
        }
        Expr::Compare(op, left, right) => {
            add_expr(terminals, Level::Range, left.get())?;
            terminals.mark(comparison_mark(*op))?;
            add_expr(terminals, Level::Range, right.get())
        }
        Expr::Between(negative, operand, low, high) => {
            add_expr(terminals, Level::Concat, operand.get())?;
            terminals.mark_if(*negative, Mark::Not)?;
            terminals.mark(Mark::Between)?;
            add_expr(terminals, Level::Concat, low.get())?;
            terminals.mark(Mark::And)?;
            add_expr(terminals, Level::Concat, high.get())
        }
        Expr::OneOf(negative, operand, choices) => {
            add_expr(terminals, Level::Concat, operand.get())?;
            terminals.mark_if(*negative, Mark::Not)?;
            terminals.mark(Mark::In)?;
            add_list(terminals, choices.as_slice())
        }
        Expr::Cast(operand, ty) => {
            terminals.mark(Mark::Cast)?;
            terminals.mark(Mark::Open)?;
            add_expr(terminals, Level::Or, operand.get())?;
            add_type(terminals, *ty)
        }
        Expr::Cases(arms, other) => {
            terminals.mark(Mark::Case)?;
            add_arms(terminals, arms.as_slice())?;
            add_else(terminals, other)?;
            terminals.mark(Mark::End)
        }
        Expr::Call(name, args) => {
            add_function(terminals, name, !args.is_empty())?;
            add_list(terminals, args.as_slice())
        }
        Expr::CountRows => add_count(terminals),
        Expr::Scalar(query) => add_subquery(terminals, query.get()),
        Expr::Exists(query) => {
            terminals.mark(Mark::Exists)?;
            add_subquery(terminals, query.get())
        }
    }
}

/// Adds the operators of a chain, each with its operand.
#[cycle(print)]
fn add_links<'a>(
    terminals: &mut TerminalList<'a>,
    level: Level,
    links: &'a [(ChainOp, Expr)],
) -> Result<(), NoMemory>
    ensures { Adds (spec.links_terminals level
        (map link_printed links.now)) terminals.old result terminals.new }
{
    for (op, operand) in links {
        terminals.mark(operator_mark(*op))?;
        add_expr(terminals, level_of_operands(level), operand)?;
    }
    Ok(())
}

/// Adds expressions with commas between them, in parentheses.
#[cycle(print)]
fn add_list<'a>(terminals: &mut TerminalList<'a>, list: &'a [Expr]) -> Result<(), NoMemory>
    ensures { Adds (terminal.mark m.Open ∷ (spec.list_terminals (map printed list.now)
        ++ terminal.mark m.Close ∷ [])) terminals.old result terminals.new }
{
    terminals.mark(Mark::Open)?;
    for (index, expr) in list.iter().enumerate() {
        terminals.mark_if(index > 0, Mark::Comma)?;
        add_expr(terminals, Level::Or, expr)?;
    }
    terminals.mark(Mark::Close)
}

#[cycle(print)]
fn add_arms<'a>(terminals: &mut TerminalList<'a>, arms: &'a [(Expr, Expr)]) -> Result<(), NoMemory>
    ensures { Adds (spec.arms_terminals
        (map arm_printed arms.now)) terminals.old result terminals.new }
{
    for (condition, value) in arms {
        terminals.mark(Mark::When)?;
        add_expr(terminals, Level::Or, condition)?;
        terminals.mark(Mark::Then)?;
        add_expr(terminals, Level::Or, value)?;
    }
    Ok(())
}

#[cycle(print)]
fn add_else<'a>(
    terminals: &mut TerminalList<'a>,
    other: &'a Option<Boxed<Expr>>,
) -> Result<(), NoMemory>
    ensures { Adds (spec.else_terminals
        (option_map printed other.now)) terminals.old result terminals.new }
{
    match other {
        None => Ok(()),
        Some(value) => {
            terminals.mark(Mark::Else)?;
            add_expr(terminals, Level::Or, value.get())
        }
    }
}
