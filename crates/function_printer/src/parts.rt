//! Parts of statements that hold no statement.

ghost use Rattle.std.specs.Prelude.{◌++◌, ◌∷◌, map};
ghost use Rattle.away_grammar.specs.declared.grammar.Mark.TheVariants as m;
ghost use Rattle.away_grammar.specs.Printing.{names_terminals};
ghost use Rattle.away_grammar.specs.Terminals as terminal;
ghost use Rattle.sql_printer.specs.PrintedTerminals.{Adds};
ghost use Rattle.function_printer.specs.FunctionTerminals as spec;
ghost use Rattle.function_printer.specs.FunctionTerminals.{in_order, semicolon, whole};

use crate::closed::add_closed;
use away_grammar::{Level, Mark};
use away_trees::{Decl, Expr, LoopKind, Raised, Select};
use away_values::{Name, NoMemory};
use sql_printer::{
    TerminalList, add_expr, add_from, add_items, add_limit, add_order, add_where, type_name,
};

/// Adds `;`.
pub fn add_semicolon(terminals: &mut TerminalList<'_>) -> Result<(), NoMemory>
    ensures { Adds semicolon terminals.old result terminals.new }
{
    terminals.mark(Mark::Semicolon)
}

/// Adds END and what it ends, and `;`.
pub fn add_end(terminals: &mut TerminalList<'_>, what: Mark) -> Result<(), NoMemory>
    ensures { Adds (terminal.mark m.End ∷ terminal.mark what
        ∷ semicolon) terminals.old result terminals.new }
{
    terminals.mark(Mark::End)?;
    terminals.mark(what)?;
    add_semicolon(terminals)
}

/// Adds an expression.
pub fn add_whole<'a>(terminals: &mut TerminalList<'a>, expr: &'a Expr) -> Result<(), NoMemory>
    ensures { Adds (whole expr.now) terminals.old result terminals.new }
{
    add_expr(terminals, Level::Or, expr)
}

/// Adds a label, where there is one.
pub fn add_label<'a>(
    terminals: &mut TerminalList<'a>,
    label: &'a Option<Name>,
) -> Result<(), NoMemory>
    ensures { Adds (spec.label_of label.now) terminals.old result terminals.new }
{
    match label {
        None => Ok(()),
        Some(name) => {
            terminals.mark(Mark::LabelOpen)?;
            terminals.name(name)?;
            terminals.mark(Mark::LabelClose)
        }
    }
}

/// Adds a name, where there is one.
pub fn add_name<'a>(
    terminals: &mut TerminalList<'a>,
    name: &'a Option<Name>,
) -> Result<(), NoMemory>
    ensures { Adds (spec.name_of name.now) terminals.old result terminals.new }
{
    match name {
        None => Ok(()),
        Some(name) => terminals.name(name),
    }
}

/// Adds a closing name, where there is one, and `;`.
pub fn add_closing<'a>(
    terminals: &mut TerminalList<'a>,
    closing: &'a Option<Name>,
) -> Result<(), NoMemory>
    ensures { Adds (spec.name_of closing.now ++ semicolon) terminals.old result terminals.new }
{
    add_name(terminals, closing)?;
    add_semicolon(terminals)
}

/// Adds declarations, with DECLARE where there are any.
pub fn add_decls<'a>(terminals: &mut TerminalList<'a>, decls: &'a [Decl]) -> Result<(), NoMemory>
    ensures { Adds (spec.decls_of decls.now) terminals.old result terminals.new }
{
    if decls.is_empty() {
        return Ok(());
    }
    terminals.mark(Mark::Declare)?;
    add_each_decl(terminals, decls)
}

fn add_each_decl<'a>(terminals: &mut TerminalList<'a>, decls: &'a [Decl]) -> Result<(), NoMemory>
    ensures { Adds (in_order
        (map (λ x. spec.decl_of x) decls.now)) terminals.old result terminals.new }
{
    for decl in decls {
        add_decl(terminals, decl)?;
    }
    Ok(())
}

fn add_decl<'a>(terminals: &mut TerminalList<'a>, decl: &'a Decl) -> Result<(), NoMemory>
    ensures { Adds (spec.decl_of decl.now) terminals.old result terminals.new }
{
    terminals.name(&decl.name)?;
    terminals.mark_if(decl.constant, Mark::Constant)?;
    terminals.known_name(type_name(decl.ty))?;
    terminals.mark_if(decl.not_null, Mark::Not)?;
    terminals.mark_if(decl.not_null, Mark::Null)?;
    add_default(terminals, &decl.default)?;
    add_semicolon(terminals)
}

fn add_default<'a>(
    terminals: &mut TerminalList<'a>,
    default: &'a Option<Expr>,
) -> Result<(), NoMemory>
    ensures { Adds (spec.default_of default.now) terminals.old result terminals.new }
{
    match default {
        None => Ok(()),
        Some(value) => {
            terminals.mark(Mark::Assign)?;
            add_whole(terminals, value)
        }
    }
}

/// Adds what stands before LOOP.
pub fn add_kind<'a>(terminals: &mut TerminalList<'a>, kind: &'a LoopKind) -> Result<(), NoMemory>
    ensures { Adds (spec.kind_of kind.now) terminals.old result terminals.new }
{
    match kind {
        LoopKind::Plain => Ok(()),
        LoopKind::While(condition) => {
            terminals.mark(Mark::While)?;
            add_closed(terminals, condition)
        }
        LoopKind::Count {
            var,
            reverse,
            first,
            last,
            step,
        } => {
            terminals.mark(Mark::For)?;
            terminals.name(var)?;
            terminals.mark(Mark::In)?;
            terminals.mark_if(*reverse, Mark::Reverse)?;
            add_whole(terminals, first)?;
            terminals.mark(Mark::Dots)?;
            add_range(terminals, last, step)
        }
    }
}

fn add_range<'a>(
    terminals: &mut TerminalList<'a>,
    last: &'a Expr,
    step: &'a Option<Expr>,
) -> Result<(), NoMemory>
    ensures { Adds (spec.range_of last.now step.now) terminals.old result terminals.new }
{
    match step {
        None => add_closed(terminals, last),
        Some(step) => {
            add_whole(terminals, last)?;
            terminals.mark(Mark::By)?;
            add_closed(terminals, step)
        }
    }
}

/// Adds a condition with WHEN, where there is one.
pub fn add_condition<'a>(
    terminals: &mut TerminalList<'a>,
    condition: &'a Option<Expr>,
) -> Result<(), NoMemory>
    ensures { Adds (spec.condition_of condition.now) terminals.old result terminals.new }
{
    match condition {
        None => Ok(()),
        Some(condition) => {
            terminals.mark(Mark::When)?;
            add_whole(terminals, condition)
        }
    }
}

/// Adds what RAISE raises.
pub fn add_raised<'a>(terminals: &mut TerminalList<'a>, raised: &'a Raised) -> Result<(), NoMemory>
    ensures { Adds (spec.raised_of raised.now) terminals.old result terminals.new }
{
    match raised {
        Raised::Message(message) => terminals.text(message),
        Raised::State(state) => {
            terminals.known_name("SQLSTATE")?;
            terminals.text(state)
        }
    }
}

/// Adds the list of a select.
pub fn add_list<'a>(terminals: &mut TerminalList<'a>, select: &'a Select) -> Result<(), NoMemory>
    ensures { Adds (spec.list_of select.now) terminals.old result terminals.new }
{
    add_items(terminals, select.list.as_slice())
}

/// Adds what follows the list of a select.
pub fn add_clauses<'a>(terminals: &mut TerminalList<'a>, select: &'a Select) -> Result<(), NoMemory>
    ensures { Adds (spec.clauses_of select.now) terminals.old result terminals.new }
{
    add_from(terminals, select.from.as_slice())?;
    add_where(terminals, &select.filter)?;
    add_order(terminals, select.order.as_slice())?;
    add_limit(terminals, &select.limit)
}

/// Adds the names of targets, with commas between them.
pub fn add_targets<'a>(
    terminals: &mut TerminalList<'a>,
    targets: &'a [(Name, Option<u32>)],
) -> Result<(), NoMemory>
    ensures { Adds (names_terminals
        (spec.target_names targets.now)) terminals.old result terminals.new }
{
    for (index, target) in targets.iter().enumerate() {
        terminals.mark_if(index > 0, Mark::Comma)?;
        terminals.name(&target.0)?;
    }
    Ok(())
}
