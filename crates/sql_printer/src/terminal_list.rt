//! The terminals of a text that is to be printed.

ghost use Rattle.std.specs.Prelude.{◌≡◌, [], ◌∷◌, map};
ghost use Rattle.away_grammar.specs.Terminals as spec;
ghost use Rattle.away_grammar.specs.Grammar.{perhaps};
ghost use Rattle.sql_printer.specs.PrintedTerminals.{Adds, terminal_of};

use away_grammar::Mark;
use away_values::{Name, NoMemory, Word};
use sqlite_items::Items;
use std::alloc::Global;
use std::marker::Model;

/// A terminal that a query prints.
#[derive(Clone, Copy)]
pub enum PrintedTerminal<'a> {
    /// A symbol or a reserved word.
    Mark(Mark),
    /// A name, in lower case.
    Name(&'a str),
    Integer(u64),
    /// A string, by its text.
    Text(&'a Word),
    Parameter(u32),
    /// A dollar quote, as it is written.
    Quote(&'a str),
}

/// The terminals so far. Contracts see them as their list.
#[derive(Drop)]
pub struct TerminalList<'a> {
    list: Items<PrintedTerminal<'a>>,
}

impl<'a> Model for TerminalList<'a> {
    ghost use Rattle.std.specs.Prelude.{List, map};
    ghost use Rattle.away_grammar.specs.Terminals.{Terminal};
    ghost use Rattle.sql_printer.specs.PrintedTerminals.{terminal_of};

    ghost Value = { List Terminal };

    ghost view = { λ p. map terminal_of p.list };
}

impl<'a> TerminalList<'a> {
    pub fn new(alloc: Global) -> TerminalList<'a>
        ensures { result ≡ [] }
    {
        TerminalList {
            list: Items::new(alloc),
        }
    }

    pub fn as_slice(&self) -> &[PrintedTerminal<'a>]
        ensures { map terminal_of result.now ≡ self.now }
    {
        self.list.as_slice()
    }

    fn add(&mut self, terminal: PrintedTerminal<'a>) -> Result<(), NoMemory>
        ensures { Adds (terminal_of terminal.entry ∷ []) self.old result self.new }
    {
        self.list.push(terminal)?;
        Ok(())
    }

    /// Adds a symbol or a reserved word.
    pub fn mark(&mut self, mark: Mark) -> Result<(), NoMemory>
        ensures { Adds (spec.mark mark ∷ []) self.old result self.new }
    {
        self.add(PrintedTerminal::Mark(mark))
    }

    /// Adds the mark where the condition holds.
    pub fn mark_if(&mut self, condition: bool, mark: Mark) -> Result<(), NoMemory>
        ensures { Adds (perhaps condition (spec.mark mark) []) self.old result self.new }
    {
        if condition { self.mark(mark) } else { Ok(()) }
    }

    pub fn name(&mut self, name: &'a Name) -> Result<(), NoMemory>
        ensures { Adds (spec.name name.now ∷ []) self.old result self.new }
    {
        self.add(PrintedTerminal::Name(name.text()))
    }

    /// Adds a name of the language, as that of a type.
    pub fn known_name(&mut self, name: &'static str) -> Result<(), NoMemory>
        ensures { Adds (spec.name name.now ∷ []) self.old result self.new }
    {
        self.add(PrintedTerminal::Name(name))
    }

    pub fn integer(&mut self, number: u64) -> Result<(), NoMemory>
        ensures { Adds (spec.integer number ∷ []) self.old result self.new }
    {
        self.add(PrintedTerminal::Integer(number))
    }

    /// Adds a string, by its text.
    pub fn text(&mut self, text: &'a Word) -> Result<(), NoMemory>
        ensures { Adds (spec.string text.now ∷ []) self.old result self.new }
    {
        self.add(PrintedTerminal::Text(text))
    }

    /// Adds a dollar quote, as it is written.
    pub fn quote(&mut self, text: &'a str) -> Result<(), NoMemory>
        ensures { Adds (spec.quote text.now ∷ []) self.old result self.new }
    {
        self.add(PrintedTerminal::Quote(text))
    }

    pub fn parameter(&mut self, number: u32) -> Result<(), NoMemory>
        ensures { Adds (spec.parameter number ∷ []) self.old result self.new }
    {
        self.add(PrintedTerminal::Parameter(number))
    }
}
