//! What stands around a body.

ghost use Rattle.std.specs.Prelude.{map};
ghost use Rattle.away_grammar.specs.Printing.{with_commas};
ghost use Rattle.sql_printer.specs.PrintedTerminals.{Adds};
ghost use Rattle.function_printer.specs.FunctionTerminals.{function_terminals, parameter_terminals};

use crate::parts::add_semicolon;
use away_grammar::Mark;
use away_trees::Function;
use away_values::{Name, NoMemory, Ty};
use sql_printer::{TerminalList, type_name};

/// Adds a function whose body is written as this dollar quote.
pub fn add_function<'a>(
    terminals: &mut TerminalList<'a>,
    function: &'a Function,
    body: &'a str,
) -> Result<(), NoMemory>
    ensures { Adds (function_terminals function.now body.now) terminals.old result terminals.new }
{
    terminals.mark(Mark::Create)?;
    terminals.known_name("FUNCTION")?;
    terminals.known_name("public")?;
    terminals.mark(Mark::Dot)?;
    terminals.name(&function.name)?;
    terminals.mark(Mark::Open)?;
    add_parameters(terminals, function.params.as_slice())?;
    terminals.mark(Mark::Close)?;
    terminals.known_name("RETURNS")?;
    terminals.known_name(type_name(function.result))?;
    terminals.known_name("LANGUAGE")?;
    terminals.known_name("plpgsql")?;
    terminals.mark_if(function.strict, Mark::Strict)?;
    terminals.mark(Mark::As)?;
    terminals.quote(body)?;
    add_semicolon(terminals)
}

fn add_parameters<'a>(
    terminals: &mut TerminalList<'a>,
    params: &'a [(Name, Ty)],
) -> Result<(), NoMemory>
    ensures { Adds (with_commas
        (map (λ p. parameter_terminals p) params.now)) terminals.old result terminals.new }
{
    for (index, param) in params.iter().enumerate() {
        terminals.mark_if(index > 0, Mark::Comma)?;
        add_parameter(terminals, param)?;
    }
    Ok(())
}

fn add_parameter<'a>(
    terminals: &mut TerminalList<'a>,
    param: &'a (Name, Ty),
) -> Result<(), NoMemory>
    ensures { Adds (parameter_terminals param.now) terminals.old result terminals.new }
{
    terminals.name(&param.0)?;
    terminals.known_name(type_name(param.1))
}
