//! Functions that call others, as they are judged.

ghost use Rattle.std.specs.Prelude.{◌≡◌, IfOk, map};
ghost use Rattle.away_trees.specs.Limits.{KeepsLimits};
ghost use Rattle.away_trees.specs.declared.statements.Stmt.TheVariants as stmt;
ghost use Rattle.call_expand.specs.Judges as whose;
ghost use Rattle.call_expand.specs.Judging as spec;

use crate::judging::judged_call;
use crate::places::{call_place, self_call};
use away_core::Copied;
use away_names::listings::copy_alias;
use away_trees::{Arm, Decl, Expr, Function, LoopKind, Stmt};
use away_values::{Name, NoMemory, Ty};
use sqlite_items::{Boxed, Items};
use std::alloc::Global;

/// Whose calls are looked at: those of some functions, or those of a function itself at its ends.
#[derive(Clone, Copy)]
pub enum Callees<'a> {
    All(&'a [Function]),
    Own(&'a Function),
}

fn judged_place(alloc: Global, c: Callees<'_>, e: &Expr) -> Result<Expr, NoMemory>
    ensures { IfOk result (λ x. x
        ≡ spec.judged_place (whose.everywhere c.entry) (whose.names c.entry) (whose.functions c.entry) e.now) }
{
    match c {
        Callees::All(fs) => match call_place(fs, e) {
            None => e.copy(alloc),
            Some(p) => {
                if p.part < fs.len() {
                    judged_call(alloc, &fs[p.part], p.args)
                } else {
                    Err(NoMemory)
                }
            }
        },
        Callees::Own(f) => match self_call(f, e) {
            None => e.copy(alloc),
            Some(p) => judged_call(alloc, f, p.args),
        },
    }
}

fn judged_assigned(alloc: Global, c: Callees<'_>, e: &Expr) -> Result<Expr, NoMemory>
    ensures { IfOk result (λ x. x
        ≡ spec.judged_assigned (whose.everywhere c.entry) (whose.names c.entry) (whose.functions c.entry) e.now) }
{
    match c {
        Callees::All(_) => judged_place(alloc, c, e),
        Callees::Own(_) => e.copy(alloc),
    }
}

fn copy_decls(alloc: Global, list: &[Decl]) -> Result<Items<Decl>, NoMemory>
    ensures { IfOk result (λ all. all ≡ list.now) }
{
    let mut all = Items::new(alloc);
    for d in list {
        all.push(d.copy(alloc)?)?;
    }
    Ok(all)
}

fn copy_params(alloc: Global, list: &[(Name, Ty)]) -> Result<Items<(Name, Ty)>, NoMemory>
    ensures { IfOk result (λ all. all ≡ list.now) }
{
    let mut all = Items::new(alloc);
    for p in list {
        all.push((p.0.copy(alloc)?, p.1))?;
    }
    Ok(all)
}

fn block_of(
    alloc: Global,
    label: &Option<Name>,
    decls: &[Decl],
    body: Items<Stmt>,
    closing: &Option<Name>,
) -> Result<Stmt, NoMemory>
    ensures { IfOk result (λ x. x ≡ stmt.Block label.now decls.now body closing.now) }
{
    Ok(Stmt::Block {
        label: copy_alias(alloc, label)?,
        decls: copy_decls(alloc, decls)?,
        body,
        closing: copy_alias(alloc, closing)?,
    })
}

fn loop_of(
    alloc: Global,
    label: &Option<Name>,
    kind: &LoopKind,
    body: Items<Stmt>,
    closing: &Option<Name>,
) -> Result<Stmt, NoMemory>
    ensures { IfOk result (λ x. x ≡ stmt.Loop label.now kind.now body closing.now) }
{
    let kind = Boxed::new(alloc, kind.copy(alloc)?)?;
    let label = copy_alias(alloc, label)?;
    let closing = copy_alias(alloc, closing)?;
    Ok(Stmt::Loop {
        label,
        kind: kind.into_inner(),
        body,
        closing,
    })
}

fn assign_of(
    alloc: Global,
    c: Callees<'_>,
    name: &Name,
    slot: Option<u32>,
    e: &Expr,
) -> Result<Stmt, NoMemory>
    ensures { IfOk result (λ x. x ≡ stmt.Assign name.now slot (spec.judged_assigned
        (whose.everywhere c.entry) (whose.names c.entry) (whose.functions c.entry) e.now)) }
{
    let target = name.copy(alloc)?;
    Ok(Stmt::Assign(target, slot, judged_assigned(alloc, c, e)?))
}

#[cycle(judging)]
#[tactic(auto, using(crate::proofs::JudgingRules::statement_rules))]
fn judged_stmt(alloc: Global, c: Callees<'_>, s: &Stmt) -> Result<Stmt, NoMemory>
    ensures { IfOk result (λ x. x
        ≡ spec.judged_stmt (whose.everywhere c.entry) (whose.names c.entry) (whose.functions c.entry) s.now) }
{
    match s {
        Stmt::Block {
            label,
            decls,
            body,
            closing,
        } => {
            let body = judged_body(alloc, c, body.as_slice())?;
            block_of(alloc, label, decls.as_slice(), body, closing)
        }
        Stmt::Assign(name, slot, e) => assign_of(alloc, c, name, *slot, e),
        Stmt::If(arms, other) => {
            let xs = judged_arms(alloc, c, arms.as_slice())?;
            match other {
                None => Ok(Stmt::If(xs, None)),
                Some(body) => {
                    let ys = judged_body(alloc, c, body.as_slice())?;
                    Ok(Stmt::If(xs, Some(ys)))
                }
            }
        }
        Stmt::Cases(arms, other) => {
            let xs = judged_arms(alloc, c, arms.as_slice())?;
            match other {
                None => Ok(Stmt::Cases(xs, None)),
                Some(body) => {
                    let ys = judged_body(alloc, c, body.as_slice())?;
                    Ok(Stmt::Cases(xs, Some(ys)))
                }
            }
        }
        Stmt::Loop {
            label,
            kind,
            body,
            closing,
        } => {
            let body = judged_body(alloc, c, body.as_slice())?;
            loop_of(alloc, label, kind, body, closing)
        }
        Stmt::Return(e) => Ok(Stmt::Return(judged_place(alloc, c, e)?)),
        Stmt::Exit(_, _) => s.copy(alloc),
        Stmt::Continue(_, _) => s.copy(alloc),
        Stmt::Raise(_) => s.copy(alloc),
        Stmt::Into { .. } => s.copy(alloc),
        Stmt::Nothing => s.copy(alloc),
    }
}

#[cycle(judging)]
fn judged_body(alloc: Global, c: Callees<'_>, list: &[Stmt]) -> Result<Items<Stmt>, NoMemory>
    ensures { IfOk result (λ xs. xs ≡ map
        (spec.judged_stmt (whose.everywhere c.entry) (whose.names c.entry) (whose.functions c.entry)) list.now) }
{
    let mut done = Items::new(alloc);
    for s in list {
        done.push(judged_stmt(alloc, c, s)?)?;
    }
    Ok(done)
}

#[cycle(judging)]
fn judged_arms(alloc: Global, c: Callees<'_>, list: &[Arm]) -> Result<Items<Arm>, NoMemory>
    ensures { IfOk result (λ xs. xs ≡ map
        (spec.judged_arm (whose.everywhere c.entry) (whose.names c.entry) (whose.functions c.entry)) list.now) }
{
    let mut done = Items::new(alloc);
    for a in list {
        done.push(judged_arm(alloc, c, a)?)?;
    }
    Ok(done)
}

#[cycle(judging)]
#[tactic(auto, using(crate::proofs::JudgingRules::arm_rule))]
fn judged_arm(alloc: Global, c: Callees<'_>, a: &Arm) -> Result<Arm, NoMemory>
    ensures { IfOk result (λ x. x
        ≡ spec.judged_arm (whose.everywhere c.entry) (whose.names c.entry) (whose.functions c.entry) a.now) }
{
    let test = a.test.copy(alloc)?;
    let body = judged_body(alloc, c, a.body.as_slice())?;
    Ok(Arm { test, body })
}

/// The function of which the rules are judged, which is as great as the function.
pub fn judged(alloc: Global, c: Callees<'_>, f: &Function) -> Result<Function, NoMemory>
    ensures is { IfOk result (λ x. x ≡ record f.now {
      body = spec.judged_stmt (whose.everywhere c.entry) (whose.names c.entry)
          (whose.functions c.entry) f.now.body;
    }) }
    ensures limits { IfOk result (λ x. KeepsLimits f.now → KeepsLimits x) }
{
    Ok(Function {
        name: f.name.copy(alloc)?,
        strict: f.strict,
        params: copy_params(alloc, f.params.as_slice())?,
        result: f.result,
        body: judged_stmt(alloc, c, &f.body)?,
    })
}
