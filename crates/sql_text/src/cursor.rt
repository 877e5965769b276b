//! A place in a list of terminals.

ghost use Rattle.std.specs.Prelude.{◌≡◌, ◌≤◌, ◌<◌, ◌∷◌, true, false, length, map, drop, All, IfOk, IfSome};
ghost use Rattle.std.specs.Bool.{OnTrue, OnFalse};
ghost use Rattle.away_grammar.specs.declared.grammar.Level.TheVariants as level;
ghost use Rattle.away_grammar.specs.declared.grammar.Mark.TheVariants as m;
ghost use Rattle.away_grammar.specs.Grammar.{at as expression, Stops};
ghost use Rattle.away_grammar.specs.Terminals.{mark};
ghost use Rattle.sql_text.specs.Plans.{first, is_some, tail, Begins};
ghost use Rattle.sql_text.specs.TerminalKinds.{operator_in, comparison_in, test_in, name_in, type_in, parameter_in, is_least};
ghost use Rattle.sql_text.specs.TerminalKinds.{is_select, is_with, is_typed_parameter};
ghost use Rattle.sql_text.specs.CodeTerminals.{meaning_of, next_meaning, HasSpelling, Found, Expected, Taken};

use crate::refusal::Refusal;
use crate::terminals::{Terminal, comparison_of, continues, operator_of, type_named};
use away_grammar::{Level, Mark};
use away_lex::folded;
use away_values::{ChainOp, CmpOp, IsTest, Name, NoMemory, Ty};
use std::alloc::Global;
use std::marker::Model;

/// The opposite of the least bigint.
const LEAST: u64 = 1 << 63;

/// A place in a list of terminals. Contracts see the terminals from there on.
#[derive(Drop)]
pub struct Cursor<'a> {
    terminals: &'a [Terminal<'a>],
    at: usize,
}

impl<'a> Model for Cursor<'a> {
    ghost use Rattle.std.specs.Prelude.{List, drop, length, map, All, ◌≤◌};
    ghost use Rattle.away_grammar.specs.Terminals.{Terminal};
    ghost use Rattle.sql_text.specs.CodeTerminals.{meaning_of, HasSpelling};

    ghost Value = { List Terminal };

    ghost view = { λ c. map meaning_of (drop c.at c.terminals.now) };

    ghost invariant = { λ c. (c.at ≤ length c.terminals.now) × All HasSpelling c.terminals.now };
}

impl<'a> Cursor<'a> {
    /// The place of this number in the list, from 0.
    pub fn new(terminals: &'a [Terminal<'a>], at: usize) -> Cursor<'a>
        requires within { at ≤ length terminals.now }
        requires spelled { All HasSpelling terminals.now }
        ensures { result ≡ map meaning_of (drop at terminals.now) }
    {
        Cursor { terminals, at }
    }

    /// The same place, to look ahead from.
    pub fn ahead(&self) -> Cursor<'a>
        ensures { result ≡ self.now }
    {
        Cursor::new(self.terminals, self.at)
    }

    /// How many terminals are left.
    pub fn left(&self) -> usize
        ensures { result ≡ length self.now }
    {
        self.terminals.len() - self.at
    }

    /// What stands next.
    pub fn peek(&self) -> Option<Terminal<'a>>
        ensures value { next_meaning result ≡ first self.now }
        ensures spelled { IfSome result HasSpelling }
    {
        if self.at < self.terminals.len() {
            Some(self.terminals[self.at])
        } else {
            None
        }
    }

    /// Takes what stands next.
    pub fn take(&mut self) -> Option<Terminal<'a>>
        ensures next { next_meaning result ≡ first self.old }
        ensures rest { self.new ≡ tail self.old }
        ensures spelled { IfSome result HasSpelling }
        ensures shrinks { length self.new ≤ length self.old }
        ensures shorter { IfSome result (λ _. length self.new < length self.old) }
    {
        let next = self.peek();
        self.step();
        next
    }

    /// Goes on by one terminal, if one is left.
    fn step(&mut self)
        ensures { self.new ≡ tail self.old }
    {
        if self.at < self.terminals.len() {
            self.at += 1;
        }
    }

    /// Whether the mark stands next.
    pub fn sees(&self, sought: Mark) -> bool
        ensures yes { OnTrue result (Begins self.now sought) }
        ensures no { OnFalse result (¬ (Begins self.now sought)) }
    {
        match self.peek() {
            Some(Terminal::Mark(next)) => next == sought,
            _ => false,
        }
    }

    /// Takes the mark, if it stands next.
    pub fn eat(&mut self, sought: Mark) -> bool
        ensures yes { OnTrue result (self.old ≡ mark sought ∷ self.new) }
        ensures no { OnFalse result ((self.new ≡ self.old) × ¬ (Begins self.old sought)) }
        ensures shrinks { length self.new ≤ length self.old }
        ensures shorter { OnTrue result (length self.new < length self.old) }
    {
        let found = self.sees(sought);
        if found {
            self.step();
        }
        found
    }

    /// Takes the mark, which has to stand next.
    pub fn expect(&mut self, sought: Mark) -> Result<(), Refusal>
        ensures found { Expected sought self.old result self.new }
        ensures shrinks { length self.new ≤ length self.old }
        ensures shorter { IfOk result (λ _. length self.new < length self.old) }
    {
        if self.eat(sought) {
            Ok(())
        } else {
            Err(Refusal::NoTree)
        }
    }

    /// Takes the operator of the level that stands next, if one does.
    pub fn operator(&mut self, level: Level) -> Option<ChainOp>
        ensures found { result ≡ operator_in level (first self.old) }
        ensures rest { Taken result self.old self.new }
        ensures shrinks { length self.new ≤ length self.old }
        ensures shorter { IfSome result (λ _. length self.new < length self.old) }
    {
        let found = match self.peek() {
            Some(Terminal::Mark(next)) => operator_of(level, next),
            _ => None,
        };
        if found.is_some() {
            self.step();
        }
        found
    }

    /// Whether an operator of the level stands next.
    pub fn sees_operator(&self, level: Level) -> bool
        ensures { result ≡ is_some (operator_in level (first self.now)) }
    {
        match self.peek() {
            Some(Terminal::Mark(next)) => operator_of(level, next).is_some(),
            _ => false,
        }
    }

    /// Takes the comparison that stands next, if one does.
    pub fn comparison(&mut self) -> Option<CmpOp>
        ensures found { result ≡ comparison_in (first self.old) }
        ensures rest { Taken result self.old self.new }
        ensures shrinks { length self.new ≤ length self.old }
        ensures shorter { IfSome result (λ _. length self.new < length self.old) }
    {
        let found = match self.peek() {
            Some(Terminal::Mark(next)) => comparison_of(next),
            _ => None,
        };
        if found.is_some() {
            self.step();
        }
        found
    }

    /// Whether NOT, BETWEEN or IN stands next.
    pub fn sees_range(&self) -> bool
        ensures { OnFalse result ((¬ (Begins self.now m.Not)) × (¬ (Begins self.now m.Between))
            × (¬ (Begins self.now m.In))) }
    {
        match self.peek() {
            Some(Terminal::Mark(next)) => matches!(next, Mark::Not | Mark::Between | Mark::In),
            _ => false,
        }
    }

    /// Takes what stands next, which has to be a test of IS.
    /// The manual: 9.2, Comparison Functions and Operators, the comparison predicates.
    pub fn test(&mut self) -> Result<IsTest, Refusal>
        ensures found { Found (test_in (first self.old)) result }
        ensures rest { self.new ≡ tail self.old }
        ensures shrinks { length self.new ≤ length self.old }
        ensures shorter { IfOk result (λ _. length self.new < length self.old) }
    {
        match self.take() {
            Some(Terminal::Mark(Mark::Null)) => Ok(IsTest::Null),
            Some(Terminal::Mark(Mark::True)) => Ok(IsTest::True),
            Some(Terminal::Mark(Mark::False)) => Ok(IsTest::False),
            _ => Err(Refusal::NoTree),
        }
    }

    /// Takes what stands next, which has to be a name.
    pub fn name(&mut self, alloc: Global) -> Result<Name, Refusal>
        ensures found { Found (name_in (first self.old)) result }
        ensures rest { self.new ≡ tail self.old }
        ensures shrinks { length self.new ≤ length self.old }
        ensures shorter { IfOk result (λ _. length self.new < length self.old) }
    {
        match self.take() {
            Some(Terminal::Name(text)) => Ok(folded(alloc, text)?),
            _ => Err(Refusal::NoTree),
        }
    }

    /// Takes the name that stands next, if one does.
    pub fn perhaps_name(&mut self, alloc: Global) -> Result<Option<Name>, NoMemory>
        ensures found { IfOk result
            (λ found. (found ≡ name_in (first self.old)) × Taken found self.old self.new) }
        ensures shrinks { length self.new ≤ length self.old }
        ensures shorter { IfOk result
            (λ found. IfSome found (λ _. length self.new < length self.old)) }
    {
        match self.peek() {
            Some(Terminal::Name(text)) => {
                self.step();
                Ok(Some(folded(alloc, text)?))
            }
            _ => Ok(None),
        }
    }

    /// Takes what stands next, which has to be the name of a type.
    pub fn type_name(&mut self) -> Result<Ty, Refusal>
        ensures found { Found (type_in (first self.old)) result }
        ensures rest { self.new ≡ tail self.old }
        ensures shrinks { length self.new ≤ length self.old }
        ensures shorter { IfOk result (λ _. length self.new < length self.old) }
    {
        match self.take() {
            Some(Terminal::Name(text)) => type_named(text).ok_or(Refusal::NoTree),
            _ => Err(Refusal::NoTree),
        }
    }

    /// Takes what stands next, which has to be a parameter.
    /// The manual: 4.2.2, Positional Parameters; that the number is at most 64 is our own choice.
    pub fn parameter(&mut self) -> Result<u32, Refusal>
        ensures found { Found (parameter_in (first self.old)) result }
        ensures rest { self.new ≡ tail self.old }
        ensures spelled { IfOk result (λ i. (1 ≤ i) × (i ≤ 64)) }
        ensures shrinks { length self.new ≤ length self.old }
        ensures shorter { IfOk result (λ _. length self.new < length self.old) }
    {
        match self.take() {
            Some(Terminal::Parameter(number)) => Ok(number),
            _ => Err(Refusal::NoTree),
        }
    }

    /// Takes the opposite of the least bigint, if it stands next.
    /// The manual: 4.1.2.6, Numeric Constants, where a minus is an operator and no part of the constant.
    pub fn eat_least(&mut self) -> bool
        ensures yes { OnTrue result ((is_least self.old ≡ true) × (self.new ≡ tail self.old)) }
        ensures no { OnFalse result ((is_least self.old ≡ false) × (self.new ≡ self.old)) }
        ensures shrinks { length self.new ≤ length self.old }
        ensures shorter { OnTrue result (length self.new < length self.old) }
    {
        let found = match self.peek() {
            Some(Terminal::Integer(number)) => number == LEAST,
            _ => false,
        };
        if found {
            self.step();
        }
        found
    }

    pub fn sees_select(&self) -> bool
        ensures { result ≡ is_select self.now }
    {
        self.sees(Mark::Select)
    }

    pub fn sees_with(&self) -> bool
        ensures { result ≡ is_with self.now }
    {
        self.sees(Mark::With)
    }

    /// Whether a parameter and AS stand next.
    pub fn sees_typed_parameter(&self) -> bool
        ensures { result ≡ is_typed_parameter self.now }
    {
        let mut ahead = self.ahead();
        match ahead.take() {
            Some(Terminal::Parameter(_)) => ahead.sees(Mark::As),
            _ => false,
        }
    }

    /// Whether what stands next continues an expression.
    pub fn continues(&self) -> bool
        ensures yes { OnTrue result (¬ (Stops (expression level.Or) self.now)) }
        ensures no { OnFalse result (Stops (expression level.Or) self.now) }
    {
        match self.peek() {
            Some(Terminal::Mark(next)) => continues(next),
            _ => false,
        }
    }
}
