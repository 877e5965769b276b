//! The parts of printed queries that hold no tree.

ghost use Rattle.std.specs.Prelude.{◌≡◌, ◌∷◌, [], if◌then◌else◌};
ghost use Rattle.away_trees.specs.Algebra.{source_of};
ghost use Rattle.away_grammar.specs.Grammar.{perhaps};
ghost use Rattle.away_grammar.specs.Printing as spec;
ghost use Rattle.away_grammar.specs.Printing.{printed, printing};
ghost use Rattle.away_grammar.specs.Terminals as terminal;
ghost use Rattle.away_grammar.specs.declared.grammar.Mark.TheVariants as m;
ghost use Rattle.away_trees.specs.declared.queries.Expr.TheVariants as e;
ghost use Rattle.sql_printer.specs.PrintedTerminals.{Adds, alias_behind, columns_terminals};

use crate::operators::{test_mark, type_name};
use crate::terminal_list::TerminalList;
use away_grammar::Mark;
use away_trees::Source;
use away_values::{IsTest, Name, NoMemory, Ty};

/// Adds AS and a name.
pub fn add_alias<'a>(terminals: &mut TerminalList<'a>, alias: &'a Name) -> Result<(), NoMemory>
    ensures { Adds (terminal.mark m.As ∷ terminal.name alias.now
        ∷ []) terminals.old result terminals.new }
{
    terminals.mark(Mark::As)?;
    terminals.name(alias)
}

/// Adds the alias of a FROM item. A table's own name is its alias where no other is written.
pub fn add_alias_behind<'a>(
    terminals: &mut TerminalList<'a>,
    source: &Source,
    alias: &'a Name,
) -> Result<(), NoMemory>
    ensures { Adds (alias_behind (source_of printing source.now).own_alias alias.now) terminals.old result terminals.new }
{
    match source {
        Source::Table(name) => {
            if name.text() == alias.text() {
                Ok(())
            } else {
                add_alias(terminals, alias)
            }
        }
        Source::Sub(..) => add_alias(terminals, alias),
    }
}

/// Adds names in parentheses, where there are any.
pub fn add_columns<'a>(
    terminals: &mut TerminalList<'a>,
    columns: &'a [Name],
) -> Result<(), NoMemory>
    ensures { Adds (columns_terminals columns.now) terminals.old result terminals.new }
{
    if columns.is_empty() {
        return Ok(());
    }
    terminals.mark(Mark::Open)?;
    add_names(terminals, columns)?;
    terminals.mark(Mark::Close)
}

/// Adds names with commas between them.
pub fn add_names<'a>(terminals: &mut TerminalList<'a>, names: &'a [Name]) -> Result<(), NoMemory>
    ensures { Adds (spec.names_terminals names.now) terminals.old result terminals.new }
{
    for (index, name) in names.iter().enumerate() {
        terminals.mark_if(index > 0, Mark::Comma)?;
        terminals.name(name)?;
    }
    Ok(())
}

/// Adds an integer. A negative one has a minus before it.
pub fn add_integer(terminals: &mut TerminalList<'_>, number: i64) -> Result<(), NoMemory>
    ensures { Adds (printed (e.Int number)).terminals terminals.old result terminals.new }
{
    if number < 0 {
        terminals.mark(Mark::Minus)?;
        terminals.integer(number.unsigned_abs())
    } else {
        terminals.integer(number as u64)
    }
}

/// Adds a column by an alias and its name.
pub fn add_qualified<'a>(
    terminals: &mut TerminalList<'a>,
    alias: &'a Name,
    name: &'a Name,
) -> Result<(), NoMemory>
    ensures { Adds (terminal.name alias.now ∷ terminal.mark m.Dot ∷ terminal.name name.now
        ∷ []) terminals.old result terminals.new }
{
    terminals.name(alias)?;
    terminals.mark(Mark::Dot)?;
    terminals.name(name)
}

/// Adds the cast of a parameter to its type.
pub fn add_parameter(terminals: &mut TerminalList<'_>, number: u32, ty: Ty) -> Result<(), NoMemory>
    ensures { Adds (printed (e.Param number ty)).terminals terminals.old result terminals.new }
{
    terminals.mark(Mark::Cast)?;
    terminals.mark(Mark::Open)?;
    terminals.parameter(number)?;
    add_type(terminals, ty)
}

/// Adds the end of a CAST.
pub fn add_type(terminals: &mut TerminalList<'_>, ty: Ty) -> Result<(), NoMemory>
    ensures { Adds (terminal.mark m.As ∷ terminal.name (spec.type_name ty) ∷ terminal.mark m.Close
        ∷ []) terminals.old result terminals.new }
{
    terminals.mark(Mark::As)?;
    terminals.known_name(type_name(ty))?;
    terminals.mark(Mark::Close)
}

/// Adds what stands behind the operand of IS NULL and the like.
pub fn add_test(
    terminals: &mut TerminalList<'_>,
    test: IsTest,
    negative: bool,
) -> Result<(), NoMemory>
    ensures { Adds (terminal.mark m.Is ∷ perhaps negative (terminal.mark m.Not)
        (terminal.mark (spec.test_mark test) ∷ [])) terminals.old result terminals.new }
{
    terminals.mark(Mark::Is)?;
    terminals.mark_if(negative, Mark::Not)?;
    terminals.mark(test_mark(test))
}

/// Adds the name of a function, which is a reserved word for some that have arguments.
pub fn add_function<'a>(
    terminals: &mut TerminalList<'a>,
    name: &'a Name,
    has_arguments: bool,
) -> Result<(), NoMemory>
    ensures { Adds ((if has_arguments then spec.function_terminal name.now else terminal.name name.now) ∷ []) terminals.old result terminals.new }
{
    if !has_arguments {
        return terminals.name(name);
    }
    match function_mark(name) {
        Some(mark) => terminals.mark(mark),
        None => terminals.name(name),
    }
}

/// The reserved word that reads as the name.
#[tactic(auto, unfolding(away_grammar::specs::Printing::function_terminal))]
fn function_mark(name: &Name) -> Option<Mark>
    ensures { terminal.mark_or result (terminal.name name.now) ≡ spec.function_terminal name.now }
{
    if name.text() == "coalesce" {
        Some(Mark::Coalesce)
    } else if name.text() == "greatest" {
        Some(Mark::Greatest)
    } else if name.text() == "least" {
        Some(Mark::Least)
    } else {
        None
    }
}

/// Adds the call that counts rows.
pub fn add_count(terminals: &mut TerminalList<'_>) -> Result<(), NoMemory>
    ensures { Adds (printed e.CountRows).terminals terminals.old result terminals.new }
{
    terminals.known_name("count")?;
    terminals.mark(Mark::Open)?;
    terminals.mark(Mark::Star)?;
    terminals.mark(Mark::Close)
}
