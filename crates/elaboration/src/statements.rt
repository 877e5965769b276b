//! Statements with their operations marked, and with a cast where a number stands for the other type of numbers.

ghost use Rattle.std.specs.Prelude.{◌≡◌, IfOk};
ghost use Rattle.elaboration.specs.Converting as spec;
ghost use Rattle.elaboration.specs.ConvertingLists as lists;
ghost use Rattle.elaboration.specs.ConvertingLists.{around};

use crate::converting::{Around, converted_to, decls_converted, kind_converted, marked};
use crate::steps::{assign_of, block_of, continue_of, exit_of, into_of, loop_of};
use away_core::Copied;
use away_trees::{Arm, Stmt};
use away_values::NoMemory;
use sqlite_items::Items;
use std::alloc::Global;

/// A statement.
#[cycle(converting)]
#[tactic(auto, using(crate::proofs::ConvertingRules::statement_rules))]
pub fn converted(alloc: Global, s: &Stmt, a: &Around<'_>) -> Result<Stmt, NoMemory>
    ensures { IfOk result (λ x. x ≡ spec.converted (around a.now) s.now) }
{
    match s {
        Stmt::Block {
            label,
            decls,
            body,
            closing,
        } => {
            let decls = decls_converted(alloc, decls.as_slice(), a)?;
            let body = body_converted(alloc, body.as_slice(), a)?;
            block_of(alloc, label, decls, body, closing)
        }
        Stmt::Assign(name, slot, e) => assign_of(alloc, name, *slot, e, a),
        Stmt::If(arms, other) => {
            let xs = arms_converted(alloc, arms.as_slice(), a)?;
            match other {
                None => Ok(Stmt::If(xs, None)),
                Some(body) => {
                    let ys = body_converted(alloc, body.as_slice(), a)?;
                    Ok(Stmt::If(xs, Some(ys)))
                }
            }
        }
        Stmt::Cases(arms, other) => {
            let xs = arms_converted(alloc, arms.as_slice(), a)?;
            match other {
                None => Ok(Stmt::Cases(xs, None)),
                Some(body) => {
                    let ys = body_converted(alloc, body.as_slice(), a)?;
                    Ok(Stmt::Cases(xs, Some(ys)))
                }
            }
        }
        Stmt::Loop {
            label,
            kind,
            body,
            closing,
        } => {
            let head = kind_converted(alloc, kind, a)?;
            let body = body_converted(alloc, body.as_slice(), a)?;
            loop_of(alloc, label, head, body, closing)
        }
        Stmt::Exit(label, when) => exit_of(alloc, label, when, &a.places),
        Stmt::Continue(label, when) => continue_of(alloc, label, when, &a.places),
        Stmt::Return(e) => Ok(Stmt::Return(converted_to(alloc, a.result, e, &a.places)?)),
        Stmt::Raise(raised) => Ok(Stmt::Raise(raised.copy(alloc)?)),
        Stmt::Into {
            strict,
            targets,
            query,
        } => into_of(alloc, *strict, targets.as_slice(), query, a),
        Stmt::Nothing => Ok(Stmt::Nothing),
    }
}

#[cycle(converting)]
fn body_converted(alloc: Global, list: &[Stmt], a: &Around<'_>) -> Result<Items<Stmt>, NoMemory>
    ensures { IfOk result (λ x. x ≡ lists.body_in (around a.now) list.now) }
{
    let mut done = Items::new(alloc);
    for s in list {
        done.push(converted(alloc, s, a)?)?;
    }
    Ok(done)
}

#[cycle(converting)]
fn arms_converted(alloc: Global, list: &[Arm], a: &Around<'_>) -> Result<Items<Arm>, NoMemory>
    ensures { IfOk result (λ x. x ≡ lists.arms_in (around a.now) list.now) }
{
    let mut done = Items::new(alloc);
    for arm in list {
        done.push(arm_converted(alloc, arm, a)?)?;
    }
    Ok(done)
}

#[cycle(converting)]
#[tactic(auto, using(crate::proofs::ConvertingRules::arm_rule))]
fn arm_converted(alloc: Global, arm: &Arm, a: &Around<'_>) -> Result<Arm, NoMemory>
    ensures { IfOk result (λ x. x ≡ spec.converted_arm (around a.now) arm.now) }
{
    let body = body_converted(alloc, arm.body.as_slice(), a)?;
    let test = marked(alloc, &arm.test, &a.places)?;
    Ok(Arm { test, body })
}
