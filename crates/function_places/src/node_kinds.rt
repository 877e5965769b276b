//! The nodes of a function in the order of the text, by what they count as.

ghost use Rattle.std.specs.Prelude.{◌≡◌, ◌++◌, ◌∷◌, [], replicate, map, IfOk};
ghost use Rattle.function_places.specs.LimitPlaces as spec;
ghost use Rattle.function_places.specs.LimitPlaces.{AddsKinds};

use away_trees::{Arm, Function, LoopKind, Stmt};
use away_values::NoMemory;
use sqlite_items::Items;
use std::alloc::Global;

/// What a node counts as.
#[derive(Clone, Copy, Debug, PartialEq, Eq)]
pub enum Kind {
    /// A parameter or a declaration.
    Variable,
    /// A FOR loop.
    Counter,
    Other,
}

fn kind_of_loop(kind: &LoopKind) -> Kind
    ensures { result ≡ spec.of_loop kind.now }
{
    match kind {
        LoopKind::Count { .. } => Kind::Counter,
        _ => Kind::Other,
    }
}

/// Adds so many nodes of a kind.
fn add_all(list: &mut Items<Kind>, kind: Kind, times: usize) -> Result<(), NoMemory>
    ensures { AddsKinds (replicate times kind) list.old result list.new }
{
    for _ in 0..times {
        list.push(kind)?;
    }
    Ok(())
}

/// Adds one node.
fn add_one(list: &mut Items<Kind>, kind: Kind) -> Result<(), NoMemory>
    ensures { AddsKinds (kind ∷ []) list.old result list.new }
{
    list.push(kind)?;
    Ok(())
}

/// Adds a statement, and what stands in it.
#[cycle(kinds)]
fn add_statement(list: &mut Items<Kind>, s: &Stmt) -> Result<(), NoMemory>
    ensures { AddsKinds (spec.kinds_of s.now) list.old result list.new }
{
    match s {
        Stmt::Block { decls, body, .. } => {
            add_one(list, Kind::Other)?;
            add_all(list, Kind::Variable, decls.len())?;
            add_statements(list, body.as_slice())
        }
        Stmt::If(arms, other) => {
            add_one(list, Kind::Other)?;
            add_arms(list, arms.as_slice())?;
            match other {
                None => Ok(()),
                Some(body) => add_else(list, body.as_slice()),
            }
        }
        Stmt::Cases(arms, other) => {
            add_one(list, Kind::Other)?;
            add_arms(list, arms.as_slice())?;
            match other {
                None => Ok(()),
                Some(body) => add_else(list, body.as_slice()),
            }
        }
        Stmt::Loop { kind, body, .. } => {
            add_one(list, kind_of_loop(kind))?;
            add_statements(list, body.as_slice())
        }
        Stmt::Into { targets, .. } => {
            add_one(list, Kind::Other)?;
            add_all(list, Kind::Other, targets.len())
        }
        Stmt::Assign(_, _, _) => add_one(list, Kind::Other),
        Stmt::Exit(_, _) => add_one(list, Kind::Other),
        Stmt::Continue(_, _) => add_one(list, Kind::Other),
        Stmt::Return(_) => add_one(list, Kind::Other),
        Stmt::Raise(_) => add_one(list, Kind::Other),
        Stmt::Nothing => add_one(list, Kind::Other),
    }
}

/// Adds statements, one behind the other.
#[cycle(kinds)]
fn add_statements(list: &mut Items<Kind>, statements: &[Stmt]) -> Result<(), NoMemory>
    ensures { AddsKinds (spec.in_order
        (map (λ s. spec.kinds_of s) statements.now)) list.old result list.new }
{
    for statement in statements {
        add_statement(list, statement)?;
    }
    Ok(())
}

/// Adds arms, one behind the other.
#[cycle(kinds)]
fn add_arms(list: &mut Items<Kind>, arms: &[Arm]) -> Result<(), NoMemory>
    ensures { AddsKinds (spec.in_order
        (map (λ a. spec.kinds_of_arm a) arms.now)) list.old result list.new }
{
    for arm in arms {
        add_arm(list, arm)?;
    }
    Ok(())
}

#[cycle(kinds)]
fn add_arm(list: &mut Items<Kind>, arm: &Arm) -> Result<(), NoMemory>
    ensures { AddsKinds (spec.kinds_of_arm arm.now) list.old result list.new }
{
    add_one(list, Kind::Other)?;
    add_statements(list, arm.body.as_slice())
}

/// Adds ELSE with its statements.
#[cycle(kinds)]
fn add_else(list: &mut Items<Kind>, body: &[Stmt]) -> Result<(), NoMemory>
    ensures { AddsKinds (spec.kinds_behind_else body.now) list.old result list.new }
{
    add_one(list, Kind::Other)?;
    add_statements(list, body)
}

/// The nodes of a function, its parameters first.
#[tactic(auto, unfolding(crate::specs::LimitPlaces::kinds))]
pub(crate) fn kinds_of(alloc: Global, f: &Function) -> Result<Items<Kind>, NoMemory>
    ensures { IfOk result (λ list. list ≡ spec.kinds f.now) }
{
    let mut list = Items::new(alloc);
    add_all(&mut list, Kind::Variable, f.params.len())?;
    add_statement(&mut list, &f.body)?;
    Ok(list)
}
