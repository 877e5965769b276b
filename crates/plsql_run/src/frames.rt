//! The stack of a run: what is left to do behind the statement that runs.

ghost use Rattle.std.specs.Prelude.{◌≡◌};

use crate::layout::Layout;
use away_trees::{Expr, Stmt};
use away_values::{Name, Value};
use std::marker::Model;

/// Statements that are left of a list, with their layouts, and the first slot that the text before them doesn't take.
#[derive(Drop)]
pub struct Stretch<'a> {
    pub(crate) list: &'a [Stmt],
    pub(crate) layouts: &'a [Layout],
    pub(crate) at: usize,
}

impl<'a> Model for Stretch<'a> {
    ghost use Rattle.plsql_run.specs.Places.{ListPosition, IsPlace};
    ghost use Rattle.away_trees.specs.contracts.statements.Stmt as e;
    ghost use Rattle.std.specs.Coded.{codes};

    ghost Value = { ListPosition };

    ghost coded = { Prim.hlevel (codes, e.the_row.coded) };

    ghost view = { λ s. record { list = s.list.now; at = s.at } };

    ghost invariant = { λ s. IsPlace s.list.now s.layouts.now s.at };
}

impl<'a> Stretch<'a> {
    /// The same place once more.
    pub(crate) fn again(&self) -> Stretch<'a>
        ensures { result ≡ self.now }
    {
        Stretch {
            list: self.list,
            layouts: self.layouts,
            at: self.at,
        }
    }
}

/// A FOR that runs: what stays the same over its turns. Its last value and its step are numbers.
#[derive(Drop)]
pub struct Counting<'a> {
    pub(crate) label: &'a Option<Name>,
    pub(crate) reverse: bool,
    pub(crate) last: Value,
    pub(crate) step: Value,
    /// the slot of its variable
    pub(crate) var: usize,
    pub(crate) body: Stretch<'a>,
}

/// What goes on when the statement above it has ended.
#[derive(Drop)]
pub enum Frame<'a> {
    /// The statements behind it.
    Rest(Stretch<'a>),
    /// The end of a block.
    Block(&'a Option<Name>),
    Plain(&'a Option<Name>, Stretch<'a>),
    While(&'a Option<Name>, &'a Expr, Stretch<'a>),
    /// FOR, with its counter.
    Count(Value, Counting<'a>),
}

/// How a statement ended, where the run goes on.
#[derive(Drop, Clone, Copy)]
pub enum Way<'a> {
    Normal,
    Exits(&'a Option<Name>),
    Continues(&'a Option<Name>),
}

/// What is next in a run.
#[derive(Drop)]
pub enum Signal<'a> {
    Ends(Way<'a>),
    Returns(Value),
    /// A loop is about to begin a turn.
    Turn,
}
