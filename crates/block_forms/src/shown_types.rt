//! The types of the slots that a function's text names.

ghost use Rattle.std.specs.Prelude.{◌≡◌, ◌++◌, [], ◌∷◌, IfOk, OnOk, flat_map};
ghost use Rattle.block_forms.specs.Slots as spec;

use away_trees::{Arm, Decl, Function, LoopKind, Stmt};
use away_values::{Name, NoMemory, Ty};
use sqlite_items::Items;
use std::alloc::Global;

#[tactic(auto, using(crate::proofs::TypeEquations::type_rules))]
fn push_declared(decls: &[Decl], list: &mut Items<Ty>) -> Result<(), NoMemory>
    ensures { OnOk result (list.new ≡ list.old ++ spec.types_of (spec.declared_slots decls.now)) }
{
    for i in 0..decls.len() {
        list.push(decls[i].ty)?;
    }
    Ok(())
}

fn push_counter(kind: &LoopKind, list: &mut Items<Ty>) -> Result<(), NoMemory>
    ensures { OnOk result (list.new ≡ list.old ++ spec.types_of (spec.of_kind kind.now)) }
{
    match kind {
        LoopKind::Plain | LoopKind::While(_) => Ok(()),
        LoopKind::Count { .. } => {
            list.push(Ty::Integer)?;
            Ok(())
        }
    }
}

#[cycle(types)]
#[tactic(auto, using(crate::proofs::TypeEquations::type_rules))]
fn push_statement(s: &Stmt, list: &mut Items<Ty>) -> Result<(), NoMemory>
    ensures { OnOk result (list.new ≡ list.old ++ spec.types_of (spec.variables s.now)) }
{
    match s {
        Stmt::Block { decls, body, .. } => {
            push_declared(decls.as_slice(), list)?;
            push_statements(body.as_slice(), list)
        }
        Stmt::If(arms, other) | Stmt::Cases(arms, other) => {
            push_arms(arms.as_slice(), list)?;
            match other {
                None => Ok(()),
                Some(body) => push_statements(body.as_slice(), list),
            }
        }
        Stmt::Loop { kind, body, .. } => {
            push_counter(kind, list)?;
            push_statements(body.as_slice(), list)
        }
        Stmt::Assign(_, _, _)
        | Stmt::Exit(_, _)
        | Stmt::Continue(_, _)
        | Stmt::Return(_)
        | Stmt::Raise(_)
        | Stmt::Into { .. }
        | Stmt::Nothing => Ok(()),
    }
}

#[cycle(types)]
#[tactic(auto, using(crate::proofs::TypeEquations::type_rules))]
fn push_statements(body: &[Stmt], list: &mut Items<Ty>) -> Result<(), NoMemory>
    ensures { OnOk result (list.new
        ≡ list.old ++ spec.types_of (flat_map spec.variables body.now)) }
{
    for i in 0..body.len() {
        push_statement(&body[i], list)?;
    }
    Ok(())
}

#[cycle(types)]
#[tactic(auto, using(crate::proofs::TypeEquations::type_rules))]
fn push_arms(arms: &[Arm], list: &mut Items<Ty>) -> Result<(), NoMemory>
    ensures { OnOk result (list.new
        ≡ list.old ++ spec.types_of (flat_map spec.variables_of_arm arms.now)) }
{
    for i in 0..arms.len() {
        push_statements(arms[i].body.as_slice(), list)?;
    }
    Ok(())
}

#[tactic(auto, using(crate::proofs::TypeEquations::type_rules))]
fn push_params(params: &[(Name, Ty)], list: &mut Items<Ty>) -> Result<(), NoMemory>
    ensures { OnOk result (list.new ≡ list.old ++ spec.types_of (spec.param_slots params.now)) }
{
    for i in 0..params.len() {
        list.push(params[i].1)?;
    }
    Ok(())
}

/// The types of a function's parameters, and of its declarations and FOR variables in the order of the text.
#[tactic(auto, using(crate::proofs::TypeEquations::type_rules))]
pub(crate) fn shown_types(alloc: Global, f: &Function) -> Result<Items<Ty>, NoMemory>
    ensures { IfOk result (λ list. list ≡ spec.shown_types f.now) }
{
    let mut list = Items::new(alloc);
    push_params(f.params.as_slice(), &mut list)?;
    push_statement(&f.body, &mut list)?;
    Ok(list)
}
