//! A body with new names, in which calls become what a plan says. It ends by how many statements may still nest.

ghost use Rattle.std.specs.Prelude.{◌≡◌, IfOk};
ghost use Rattle.call_expand.specs.Plans as spec;
ghost use Rattle.away_trees.specs.declared.statements.Stmt.TheVariants as stmt;

use crate::blocks::{block_of, entered, loop_of, opened};
use crate::calls::{call_assigned, call_returned, function_at, plain_assignment, plain_return};
use crate::leaves::{continue_of, exit_of, into_of};
use crate::made::{Back, Entered, Expansion, Made, Opened, Plan, Seen, Work};
use crate::places::call_place;
use crate::seeing::{further, next, seeing_params};
use crate::turns::turned;
use away_core::Copied;
use away_trees::{Arm, Expr, Stmt};
use away_values::{Name, NoMemory};
use moved_names::renaming::renamed_expr;
use moved_names::sight::Sight;
use sqlite_items::Items;
use std::alloc::Global;

/// A statement, in which so many may nest.
#[cycle(moving)]
pub(crate) fn moved_stmt(
    alloc: Global,
    w: Work<'_>,
    left: usize,
    s: &Stmt,
    seen: &Seen,
    k: usize,
) -> Result<Made<Stmt>, NoMemory>
    ensures { IfOk result (λ x. x ≡ spec.planned_stmt w.entry s.now seen.now k) }
{
    if left == 0 {
        return Err(NoMemory);
    }
    moved_by_parts(alloc, w, left - 1, s, seen, k)
}

#[cycle(moving)]
#[tactic(auto, using(crate::proofs::MovingRules::statement_rules))]
fn moved_by_parts(
    alloc: Global,
    w: Work<'_>,
    left: usize,
    s: &Stmt,
    seen: &Seen,
    k: usize,
) -> Result<Made<Stmt>, NoMemory>
    ensures { IfOk result (λ x. x ≡ spec.planned_stmt w.entry s.now seen.now k) }
{
    match s {
        Stmt::Block {
            label,
            decls,
            body,
            closing,
        } => {
            let Opened { it, inside, next } = opened(
                alloc,
                w.names,
                label,
                decls.as_slice(),
                seen,
                k,
            )?;
            let xs = moved_body(alloc, w, left, body.as_slice(), &inside, next)?;
            block_of(alloc, w.names, label, closing, seen, k, it, xs)
        }
        Stmt::Assign(name, _, e) => assigned(alloc, w, left, name, e, seen, k),
        Stmt::If(arms, other) => {
            let Made { it, next } = moved_arms(alloc, w, left, arms.as_slice(), seen, k)?;
            match other {
                None => Ok(Made {
                    it: Stmt::If(it, None),
                    next,
                }),
                Some(body) => {
                    let y = moved_body(alloc, w, left, body.as_slice(), seen, next)?;
                    Ok(Made {
                        it: Stmt::If(it, Some(y.it)),
                        next: y.next,
                    })
                }
            }
        }
        Stmt::Cases(arms, other) => {
            let Made { it, next } = moved_arms(alloc, w, left, arms.as_slice(), seen, k)?;
            match other {
                None => Ok(Made {
                    it: Stmt::Cases(it, None),
                    next,
                }),
                Some(body) => {
                    let y = moved_body(alloc, w, left, body.as_slice(), seen, next)?;
                    Ok(Made {
                        it: Stmt::Cases(it, Some(y.it)),
                        next: y.next,
                    })
                }
            }
        }
        Stmt::Loop {
            label,
            kind,
            body,
            closing,
        } => {
            let Entered { it, inside, next } = entered(alloc, w.names, label, kind, seen, k)?;
            let xs = moved_body(alloc, w, left, body.as_slice(), &inside, next)?;
            loop_of(alloc, w.names, label, closing, seen, k, it, xs)
        }
        Stmt::Exit(label, when) => exit_of(alloc, w.names, label, when, seen, k),
        Stmt::Continue(label, when) => continue_of(alloc, w.names, label, when, seen, k),
        Stmt::Return(e) => returned(alloc, w, left, e, seen, k),
        Stmt::Raise(raised) => Ok(Made {
            it: Stmt::Raise(raised.copy(alloc)?),
            next: k,
        }),
        Stmt::Into {
            strict,
            targets,
            query,
        } => into_of(alloc, w.names, *strict, targets.as_slice(), query, seen, k),
        Stmt::Nothing => Ok(Made {
            it: Stmt::Nothing,
            next: k,
        }),
    }
}

#[cycle(moving)]
fn moved_body(
    alloc: Global,
    w: Work<'_>,
    left: usize,
    list: &[Stmt],
    seen: &Seen,
    k: usize,
) -> Result<Made<Items<Stmt>>, NoMemory>
    ensures { IfOk result (λ x. x ≡ spec.planned_body w.entry list.now seen.now k) }
{
    let mut done = Items::new(alloc);
    let mut at = k;
    for s in list {
        let Made { it, next } = moved_stmt(alloc, w, left, s, seen, at)?;
        done.push(it)?;
        at = next;
    }
    Ok(Made { it: done, next: at })
}

#[cycle(moving)]
fn moved_arms(
    alloc: Global,
    w: Work<'_>,
    left: usize,
    list: &[Arm],
    seen: &Seen,
    k: usize,
) -> Result<Made<Items<Arm>>, NoMemory>
    ensures { IfOk result (λ x. x ≡ spec.planned_arms w.entry list.now seen.now k) }
{
    let mut done = Items::new(alloc);
    let mut at = k;
    for a in list {
        let Made { it, next } = moved_arm(alloc, w, left, a, seen, at)?;
        done.push(it)?;
        at = next;
    }
    Ok(Made { it: done, next: at })
}

#[cycle(moving)]
#[tactic(auto, using(crate::proofs::MovingRules::arm_rule))]
fn moved_arm(
    alloc: Global,
    w: Work<'_>,
    left: usize,
    a: &Arm,
    seen: &Seen,
    k: usize,
) -> Result<Made<Arm>, NoMemory>
    ensures { IfOk result (λ x. x ≡ spec.planned_arm w.entry a.now seen.now k) }
{
    let xs = moved_body(alloc, w, left, a.body.as_slice(), seen, k)?;
    let test = renamed_expr(
        alloc,
        &a.test,
        &Sight {
            names: w.names,
            seen: seen.variables.as_slice(),
        },
    )?;
    Ok(Made {
        it: Arm { test, body: xs.it },
        next: xs.next,
    })
}

/// What an assignment becomes.
#[cycle(moving)]
fn assigned(
    alloc: Global,
    w: Work<'_>,
    left: usize,
    name: &Name,
    e: &Expr,
    seen: &Seen,
    k: usize,
) -> Result<Made<Stmt>, NoMemory>
    ensures { IfOk result (λ x. x ≡ spec.planned_assignment w.entry name.now e.now seen.now k) }
{
    match w.plan {
        Plan::Untail(_) => plain_assignment(alloc, w.names, name, e, seen, k),
        Plan::Expand(x) => match call_place(x.fs, e) {
            None => plain_assignment(alloc, w.names, name, e, seen, k),
            Some(c) => {
                let body = called_body(alloc, w.names, x, left, c.part, k)?;
                call_assigned(alloc, w.names, x.fs, c, name, seen, k, body)
            }
        },
    }
}

/// What a RETURN becomes.
#[cycle(moving)]
fn returned(
    alloc: Global,
    w: Work<'_>,
    left: usize,
    e: &Expr,
    seen: &Seen,
    k: usize,
) -> Result<Made<Stmt>, NoMemory>
    ensures { IfOk result (λ x. x ≡ spec.planned_return w.entry e.now seen.now k) }
{
    match w.plan {
        Plan::Untail(f) => turned(alloc, w.names, f, e, seen, k),
        Plan::Expand(x) => match call_place(x.fs, e) {
            None => plain_return(alloc, w.names, x.back, e, seen, k),
            Some(c) => {
                let body = called_body(alloc, w.names, x, left, c.part, k)?;
                call_returned(alloc, w.names, x.fs, c, x.back, seen, k, body)
            }
        },
    }
}

/// The body of a called function, whose result has the name at a place, and whose label and parameters have those behind it.
#[cycle(moving)]
fn called_body(
    alloc: Global,
    names: &[Name],
    x: Expansion<'_>,
    left: usize,
    part: usize,
    k: usize,
) -> Result<Made<Stmt>, NoMemory>
    ensures { IfOk result (λ y. y ≡ spec.called_body names.now x.entry part k) }
{
    let Some(g) = function_at(x.fs, part) else {
        return Err(NoMemory);
    };
    let l = next(k)?;
    let p = next(l)?;
    let at = further(p, g.params.len())?;
    let inner = Expansion {
        fs: x.fs,
        depth: x.depth,
        back: Back::Into(k, l),
    };
    expanded_body(alloc, names, inner, left, part, p, at)
}

/// The body of a function with its calls expanded, whose parameters have the names from a place on.
#[cycle(moving)]
pub(crate) fn expanded_body(
    alloc: Global,
    names: &[Name],
    x: Expansion<'_>,
    left: usize,
    part: usize,
    p: usize,
    k: usize,
) -> Result<Made<Stmt>, NoMemory>
    ensures { IfOk result (λ y. y ≡ spec.body_at names.now x.entry part p k) }
{
    let Some(g) = function_at(x.fs, part) else {
        return Err(NoMemory);
    };
    if x.depth == 0 {
        return Ok(Made {
            it: Stmt::Nothing,
            next: k,
        });
    }
    let seen = seeing_params(alloc, p, g.params.as_slice())?;
    let inner = Expansion {
        fs: x.fs,
        depth: x.depth - 1,
        back: x.back,
    };
    let w = Work {
        names,
        plan: Plan::Expand(inner),
    };
    moved_stmt(alloc, w, left, &g.body, &seen, k)
}
