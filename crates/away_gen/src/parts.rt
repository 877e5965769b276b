//! What a case is made of, drawn in the order of the draws.

ghost use Rattle.std.specs.Prelude.{◌≡◌, ◌*◌, ◌+◌, ◌<◌, ◌^◌, IfOk, OnOk};
ghost use Rattle.away_gen.specs.Draws.{after};
ghost use Rattle.away_gen.specs.Parts.{kind_of as kind_by, parts_of, row_from, rows_from, statement_from, statements_from};

use crate::draws::Draws;
use sqlite_items::Items;
use std::alloc::{AllocError, Global};

/// A row of the table of routes.
#[derive(Clone, Copy, Debug, PartialEq, Eq)]
pub struct Row {
    pub src: u64,
    pub dst: u64,
    pub cost: u64,
}

/// What a statement does.
#[derive(Clone, Copy, Debug, PartialEq, Eq)]
pub enum Kind {
    /// Sets the target to the sum of the source and the constant.
    Add,
    /// Sets it to their product, below a million.
    Multiply,
    /// Takes the source from a greater target; otherwise the source grows by one.
    Subtract,
    /// Adds 1, 2 and so on up to the constant, until the target has the rest 3 by 7.
    Loop,
    /// Sets the target to the greatest cost of the routes from a place.
    Query,
}

/// A statement of the function's loop, over two of its four variables.
#[derive(Clone, Copy, Debug, PartialEq, Eq)]
pub struct Statement {
    pub kind: Kind,
    pub target: u64,
    pub source: u64,
    pub constant: u64,
}

/// The parts of a case.
#[derive(Drop)]
pub struct Parts {
    pub rows: Items<Row>,
    pub first: u64,
    pub second: u64,
    pub statements: Items<Statement>,
}

/// The parts of the case of a number.
pub fn draw_parts(alloc: Global, number: u64) -> Result<Parts, AllocError>
    ensures parts { IfOk result (λ parts. parts ≡ parts_of number) }
    ensures below { IfOk result (λ parts. (parts.first < 1000) × (parts.second < 1000)) }
{
    let mut draws = Draws::new(number);
    let count = 50 + draws.below(50);
    let rows = draw_rows(alloc, &mut draws, count)?;
    let first = draws.below(1000);
    let second = draws.below(1000);
    let count = 40 + draws.below(24);
    let statements = draw_statements(alloc, &mut draws, count)?;
    Ok(Parts {
        rows,
        first,
        second,
        statements,
    })
}

fn draw_rows(alloc: Global, draws: &mut Draws, count: u64) -> Result<Items<Row>, AllocError>
    ensures rows { IfOk result (λ rows. rows ≡ rows_from count draws.old.state) }
    ensures state { OnOk result (draws.new.state ≡ after (3 * count) draws.old.state) }
{
    let mut rows = Items::new(alloc);
    for _ in 0..count {
        rows.push(draw_row(draws))?;
    }
    Ok(rows)
}

fn draw_row(draws: &mut Draws) -> Row
    ensures row { result ≡ row_from draws.old.state }
    ensures state { draws.new.state ≡ after 3 draws.old.state }
{
    let src = draws.below(10);
    let dst = draws.below(10);
    let cost = draws.below(1000);
    Row { src, dst, cost }
}

fn draw_statements(
    alloc: Global,
    draws: &mut Draws,
    count: u64,
) -> Result<Items<Statement>, AllocError>
    ensures { IfOk result (λ statements. statements ≡ statements_from count draws.old.state) }
{
    let mut statements = Items::new(alloc);
    for _ in 0..count {
        statements.push(draw_statement(draws))?;
    }
    Ok(statements)
}

fn draw_statement(draws: &mut Draws) -> Statement
    ensures statement { result ≡ statement_from draws.old.state }
    ensures state { draws.new.state ≡ after 4 draws.old.state }
{
    let kind = kind_of(draws.below(5));
    let target = draws.below(4);
    let source = draws.below(4);
    let constant = 1 + draws.below(99);
    Statement {
        kind,
        target,
        source,
        constant,
    }
}

fn kind_of(number: u64) -> Kind
    ensures { result ≡ kind_by number }
{
    match number {
        0 => Kind::Add,
        1 => Kind::Multiply,
        2 => Kind::Subtract,
        3 => Kind::Loop,
        _ => Kind::Query,
    }
}
