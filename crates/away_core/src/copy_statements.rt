//! Copies of statements and functions, each equal to what it copies.

ghost use Rattle.std.specs.Prelude.{◌≡◌, IfOk};
ghost use Rattle.away_trees.specs.declared.statements.Stmt.{Block, Loop, Assign, Exit, Continue, Return, Raise, Into};

use crate::copy_names::copy_name;
use crate::copy_queries::{copy_expr, copy_filter, copy_select};
use away_trees::{Arm, Decl, Expr, Function, LoopKind, Raised, Select, Stmt};
use away_values::{Name, NoMemory, Ty};
use sqlite_items::Items;
use std::alloc::Global;

pub(crate) fn copy_decl(value: &Decl, alloc: Global) -> Result<Decl, NoMemory>
    ensures { IfOk result (λ r. r ≡ value.now) }
{
    Ok(Decl {
        name: value.name.copy(alloc)?,
        ty: value.ty,
        constant: value.constant,
        not_null: value.not_null,
        default: copy_filter(&value.default, alloc)?,
    })
}

fn copy_decls(list: &[Decl], alloc: Global) -> Result<Items<Decl>, NoMemory>
    ensures { IfOk result (λ r. r ≡ list.now) }
{
    let mut all = Items::new(alloc);
    for i in 0..list.len() {
        all.push(copy_decl(&list[i], alloc)?)?;
    }
    Ok(all)
}

fn copy_params(list: &[(Name, Ty)], alloc: Global) -> Result<Items<(Name, Ty)>, NoMemory>
    ensures { IfOk result (λ r. r ≡ list.now) }
{
    let mut all = Items::new(alloc);
    for i in 0..list.len() {
        all.push((list[i].0.copy(alloc)?, list[i].1))?;
    }
    Ok(all)
}

fn copy_targets(
    list: &[(Name, Option<u32>)],
    alloc: Global,
) -> Result<Items<(Name, Option<u32>)>, NoMemory>
    ensures { IfOk result (λ r. r ≡ list.now) }
{
    let mut all = Items::new(alloc);
    for i in 0..list.len() {
        all.push((list[i].0.copy(alloc)?, list[i].1))?;
    }
    Ok(all)
}

pub(crate) fn copy_loop_kind(value: &LoopKind, alloc: Global) -> Result<LoopKind, NoMemory>
    ensures { IfOk result (λ r. r ≡ value.now) }
{
    match value {
        LoopKind::Plain => Ok(LoopKind::Plain),
        LoopKind::While(test) => Ok(LoopKind::While(copy_expr(test, alloc)?)),
        LoopKind::Count {
            var,
            reverse,
            first,
            last,
            step,
        } => Ok(LoopKind::Count {
            var: var.copy(alloc)?,
            reverse: *reverse,
            first: copy_expr(first, alloc)?,
            last: copy_expr(last, alloc)?,
            step: copy_filter(step, alloc)?,
        }),
    }
}

pub(crate) fn copy_raised(value: &Raised, alloc: Global) -> Result<Raised, NoMemory>
    ensures { IfOk result (λ r. r ≡ value.now) }
{
    match value {
        Raised::Message(text) => Ok(Raised::Message(text.copy(alloc)?)),
        Raised::State(text) => Ok(Raised::State(text.copy(alloc)?)),
    }
}

#[cycle(copy_statement)]
pub(crate) fn copy_stmt(value: &Stmt, alloc: Global) -> Result<Stmt, NoMemory>
    ensures { IfOk result (λ r. r ≡ value.now) }
{
    match value {
        Stmt::Block {
            label,
            decls,
            body,
            closing,
        } => block_of(
            label,
            decls,
            copy_body(body.as_slice(), alloc)?,
            closing,
            alloc,
        ),
        Stmt::Assign(name, slot, value) => copy_assign(name, *slot, value, alloc),
        Stmt::If(arms, other) => {
            let arms = copy_arms(arms.as_slice(), alloc)?;
            match other {
                None => Ok(Stmt::If(arms, None)),
                Some(body) => Ok(Stmt::If(arms, Some(copy_body(body.as_slice(), alloc)?))),
            }
        }
        Stmt::Cases(arms, other) => {
            let arms = copy_arms(arms.as_slice(), alloc)?;
            match other {
                None => Ok(Stmt::Cases(arms, None)),
                Some(body) => Ok(Stmt::Cases(arms, Some(copy_body(body.as_slice(), alloc)?))),
            }
        }
        Stmt::Loop {
            label,
            kind,
            body,
            closing,
        } => loop_of(
            label,
            kind,
            copy_body(body.as_slice(), alloc)?,
            closing,
            alloc,
        ),
        Stmt::Exit(label, when) => copy_exit(label, when, alloc),
        Stmt::Continue(label, when) => copy_continue(label, when, alloc),
        Stmt::Return(value) => copy_return(value, alloc),
        Stmt::Raise(raised) => copy_raise(raised, alloc),
        Stmt::Into {
            strict,
            targets,
            query,
        } => copy_into(*strict, targets, query, alloc),
        Stmt::Nothing => Ok(Stmt::Nothing),
    }
}

fn copy_assign(
    name: &Name,
    slot: Option<u32>,
    value: &Expr,
    alloc: Global,
) -> Result<Stmt, NoMemory>
    ensures { IfOk result (λ r. r ≡ Assign name.now slot value.now) }
{
    Ok(Stmt::Assign(name.copy(alloc)?, slot, copy_expr(value, alloc)?))
}

fn copy_exit(label: &Option<Name>, when: &Option<Expr>, alloc: Global) -> Result<Stmt, NoMemory>
    ensures { IfOk result (λ r. r ≡ Exit label.now when.now) }
{
    Ok(Stmt::Exit(copy_name(label, alloc)?, copy_filter(when, alloc)?))
}

fn copy_continue(label: &Option<Name>, when: &Option<Expr>, alloc: Global) -> Result<Stmt, NoMemory>
    ensures { IfOk result (λ r. r ≡ Continue label.now when.now) }
{
    Ok(Stmt::Continue(copy_name(label, alloc)?, copy_filter(when, alloc)?))
}

fn copy_into(
    strict: bool,
    targets: &Items<(Name, Option<u32>)>,
    query: &Select,
    alloc: Global,
) -> Result<Stmt, NoMemory>
    ensures { IfOk result (λ r. r ≡ Into strict targets.now query.now) }
{
    Ok(Stmt::Into {
        strict,
        targets: copy_targets(targets.as_slice(), alloc)?,
        query: copy_select(query, alloc)?,
    })
}

#[cycle(copy_statement)]
fn copy_body(list: &[Stmt], alloc: Global) -> Result<Items<Stmt>, NoMemory>
    ensures { IfOk result (λ r. r ≡ list.now) }
{
    let mut all = Items::new(alloc);
    for i in 0..list.len() {
        all.push(copy_stmt(&list[i], alloc)?)?;
    }
    Ok(all)
}

#[cycle(copy_statement)]
fn copy_arms(list: &[Arm], alloc: Global) -> Result<Items<Arm>, NoMemory>
    ensures { IfOk result (λ r. r ≡ list.now) }
{
    let mut all = Items::new(alloc);
    for i in 0..list.len() {
        all.push(copy_arm(&list[i], alloc)?)?;
    }
    Ok(all)
}

#[cycle(copy_statement)]
pub(crate) fn copy_arm(value: &Arm, alloc: Global) -> Result<Arm, NoMemory>
    ensures { IfOk result (λ r. r ≡ value.now) }
{
    Ok(Arm {
        test: copy_expr(&value.test, alloc)?,
        body: copy_body(value.body.as_slice(), alloc)?,
    })
}

pub(crate) fn copy_function(value: &Function, alloc: Global) -> Result<Function, NoMemory>
    ensures { IfOk result (λ r. r ≡ value.now) }
{
    Ok(Function {
        name: value.name.copy(alloc)?,
        strict: value.strict,
        params: copy_params(value.params.as_slice(), alloc)?,
        result: value.result,
        body: copy_stmt(&value.body, alloc)?,
    })
}

fn block_of(
    label: &Option<Name>,
    decls: &Items<Decl>,
    body: Items<Stmt>,
    closing: &Option<Name>,
    alloc: Global,
) -> Result<Stmt, NoMemory>
    ensures { IfOk result (λ r. r ≡ Block label.now decls.now body closing.now) }
{
    Ok(Stmt::Block {
        label: copy_name(label, alloc)?,
        decls: copy_decls(decls.as_slice(), alloc)?,
        body,
        closing: copy_name(closing, alloc)?,
    })
}

fn loop_of(
    label: &Option<Name>,
    kind: &LoopKind,
    body: Items<Stmt>,
    closing: &Option<Name>,
    alloc: Global,
) -> Result<Stmt, NoMemory>
    ensures { IfOk result (λ r. r ≡ Loop label.now kind.now body closing.now) }
{
    Ok(Stmt::Loop {
        label: copy_name(label, alloc)?,
        kind: copy_loop_kind(kind, alloc)?,
        body,
        closing: copy_name(closing, alloc)?,
    })
}

fn copy_return(value: &Expr, alloc: Global) -> Result<Stmt, NoMemory>
    ensures { IfOk result (λ r. r ≡ Return value.now) }
{
    Ok(Stmt::Return(copy_expr(value, alloc)?))
}

fn copy_raise(raised: &Raised, alloc: Global) -> Result<Stmt, NoMemory>
    ensures { IfOk result (λ r. r ≡ Raise raised.now) }
{
    Ok(Stmt::Raise(copy_raised(raised, alloc)?))
}
