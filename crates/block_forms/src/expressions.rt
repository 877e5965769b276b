//! The expression table of a function.

ghost use Rattle.std.specs.Prelude.{◌≡◌, ◌++◌, [], ◌∷◌, IfOk, OnOk, flat_map};
ghost use Rattle.block_forms.specs.Expressions as spec;
ghost use Rattle.select_into.specs.Entries.{into_entries};

use crate::fixed_list::push_fixed_list;
use crate::shown_types::shown_types;
use away_core::Copied;
use away_trees::{Arm, Decl, Expr, Function, LoopKind, Stmt};
use away_types::CheckedFunction;
use away_values::{NoMemory, Ty};
use select_into::push_entries;
use sqlite_items::Items;
use std::alloc::Global;

/// The expressions that a function's forms name by number: those of its text in their order, then a fixed list of seventeen.
#[derive(Drop)]
pub struct ExprTable {
    pub list: Items<Expr>,
}

fn push_copy(alloc: Global, list: &mut Items<Expr>, e: &Expr) -> Result<(), NoMemory>
    ensures { OnOk result (list.new ≡ list.old ++ e.now ∷ []) }
{
    list.push(e.copy(alloc)?)?;
    Ok(())
}

fn push_if_there(alloc: Global, list: &mut Items<Expr>, e: &Option<Expr>) -> Result<(), NoMemory>
    ensures { OnOk result (list.new ≡ list.old ++ spec.if_there e.now) }
{
    match e {
        None => Ok(()),
        Some(e) => push_copy(alloc, list, e),
    }
}

#[tactic(auto, using(crate::proofs::SourceEquations::list_rules))]
fn push_defaults(alloc: Global, list: &mut Items<Expr>, decls: &[Decl]) -> Result<(), NoMemory>
    ensures { OnOk result (list.new ≡ list.old ++ flat_map spec.default_of decls.now) }
{
    for i in 0..decls.len() {
        push_if_there(alloc, list, &decls[i].default)?;
    }
    Ok(())
}

fn push_kind(alloc: Global, list: &mut Items<Expr>, kind: &LoopKind) -> Result<(), NoMemory>
    ensures { OnOk result (list.new ≡ list.old ++ spec.of_kind kind.now) }
{
    match kind {
        LoopKind::Plain => Ok(()),
        LoopKind::While(test) => push_copy(alloc, list, test),
        LoopKind::Count {
            first,
            last,
            step,
            ..
        } => {
            push_copy(alloc, list, first)?;
            push_copy(alloc, list, last)?;
            push_if_there(alloc, list, step)
        }
    }
}

#[cycle(sources)]
#[tactic(auto, using(crate::proofs::SourceEquations::source_rules))]
fn push_statement(
    alloc: Global,
    types: &[Ty],
    s: &Stmt,
    list: &mut Items<Expr>,
) -> Result<(), NoMemory>
    ensures { OnOk result (list.new ≡ list.old ++ spec.sources (into_entries types.now) s.now) }
{
    match s {
        Stmt::Block { decls, body, .. } => {
            push_defaults(alloc, list, decls.as_slice())?;
            push_statements(alloc, types, body.as_slice(), list)
        }
        Stmt::If(arms, other) | Stmt::Cases(arms, other) => {
            push_arms(alloc, types, arms.as_slice(), list)?;
            match other {
                None => Ok(()),
                Some(body) => push_statements(alloc, types, body.as_slice(), list),
            }
        }
        Stmt::Loop { kind, body, .. } => {
            push_kind(alloc, list, kind)?;
            push_statements(alloc, types, body.as_slice(), list)
        }
        Stmt::Exit(_, when) | Stmt::Continue(_, when) => push_if_there(alloc, list, when),
        Stmt::Assign(_, _, e) | Stmt::Return(e) => push_copy(alloc, list, e),
        Stmt::Into {
            strict,
            targets,
            query,
        } => push_entries(alloc, types, *strict, targets.as_slice(), query, list),
        Stmt::Raise(_) | Stmt::Nothing => Ok(()),
    }
}

#[cycle(sources)]
#[tactic(auto, using(crate::proofs::SourceEquations::source_rules))]
fn push_statements(
    alloc: Global,
    types: &[Ty],
    body: &[Stmt],
    list: &mut Items<Expr>,
) -> Result<(), NoMemory>
    ensures { OnOk result (list.new
        ≡ list.old ++ flat_map (spec.sources (into_entries types.now)) body.now) }
{
    for i in 0..body.len() {
        push_statement(alloc, types, &body[i], list)?;
    }
    Ok(())
}

#[cycle(sources)]
#[tactic(auto, using(crate::proofs::SourceEquations::source_rules))]
fn push_arms(
    alloc: Global,
    types: &[Ty],
    arms: &[Arm],
    list: &mut Items<Expr>,
) -> Result<(), NoMemory>
    ensures { OnOk result (list.new
        ≡ list.old ++ flat_map (spec.sources_of_arm (into_entries types.now)) arms.now) }
{
    for i in 0..arms.len() {
        push_arm(alloc, types, &arms[i], list)?;
    }
    Ok(())
}

#[cycle(sources)]
#[tactic(auto, using(crate::proofs::SourceEquations::source_rules))]
fn push_arm(alloc: Global, types: &[Ty], arm: &Arm, list: &mut Items<Expr>) -> Result<(), NoMemory>
    ensures { OnOk result (list.new
        ≡ list.old ++ spec.sources_of_arm (into_entries types.now) arm.now) }
{
    push_copy(alloc, list, &arm.test)?;
    push_statements(alloc, types, arm.body.as_slice(), list)
}

/// The expressions of a function whose names are resolved.
pub(crate) fn expressions_of(alloc: Global, f: &Function) -> Result<ExprTable, NoMemory>
    ensures { IfOk result (λ t. t.list ≡ spec.expressions f.now) }
{
    let types = shown_types(alloc, f)?;
    let mut list = Items::new(alloc);
    push_statement(alloc, types.as_slice(), &f.body, &mut list)?;
    push_fixed_list(alloc, &mut list)?;
    Ok(ExprTable { list })
}

/// The function's expressions by number.
pub fn expr_table(alloc: Global, f: &CheckedFunction) -> Result<ExprTable, NoMemory>
    ensures { IfOk result (λ t. t.list ≡ spec.expressions f.now.function) }
{
    expressions_of(alloc, &f.function)
}
