//! The trees of functions.

use crate::queries::{Expr, Select};
use away_values::{Name, Ty, Word};
use sqlite_items::Items;

/// A declaration. The manual: 43.3, Declarations.
#[derive(Drop)]
pub struct Decl {
    pub name: Name,
    pub ty: Ty,
    pub constant: bool,
    pub not_null: bool,
    pub default: Option<Expr>,
}

/// A condition of IF, ELSIF or CASE with its statements. The manual: 43.6.4, Conditionals. A condition that is NULL isn't true.
#[cycle(statement)]
#[derive(Drop)]
pub struct Arm {
    pub test: Expr,
    pub body: Items<Stmt>,
}

/// The head of a loop. The manual: 43.6.5, Simple Loops.
#[derive(Drop)]
pub enum LoopKind {
    Plain,
    While(Expr),
    /// FOR over integers.
    Count {
        var: Name,
        reverse: bool,
        first: Expr,
        last: Expr,
        step: Option<Expr>,
    },
}

/// What RAISE raises: a message's fault, or a SQLSTATE.
/// The manual: 43.9.1, Reporting Errors and Messages. A message raises P0001, raise_exception.
#[derive(Drop)]
pub enum Raised {
    Message(Word),
    State(Word),
}

/// A statement (PostgreSQL manual, 43.5, Basic Statements, and 43.6, Control Structures). The number beside an assigned name
/// is its slot, and None before names are resolved.
#[cycle(statement)]
#[derive(Drop)]
pub enum Stmt {
    Block {
        label: Option<Name>,
        decls: Items<Decl>,
        body: Items<Stmt>,
        closing: Option<Name>,
    },
    Assign(Name, Option<u32>, Expr),
    If(Items<Arm>, Option<Items<Stmt>>),
    Cases(Items<Arm>, Option<Items<Stmt>>),
    Loop {
        label: Option<Name>,
        kind: LoopKind,
        body: Items<Stmt>,
        closing: Option<Name>,
    },
    Exit(Option<Name>, Option<Expr>),
    Continue(Option<Name>, Option<Expr>),
    Return(Expr),
    Raise(Raised),
    /// SELECT INTO: whether it is STRICT, its targets with their slots once names are resolved, and its select.
    Into {
        strict: bool,
        targets: Items<(Name, Option<u32>)>,
        query: Select,
    },
    Nothing,
}

/// A function. The manual: CREATE FUNCTION; a STRICT function is NULL where an argument is, and doesn't run.
#[derive(Drop)]
pub struct Function {
    pub name: Name,
    pub strict: bool,
    pub params: Items<(Name, Ty)>,
    pub result: Ty,
    pub body: Stmt,
}
