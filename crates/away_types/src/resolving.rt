//! Statements with what their names stand for, and the variables of a function.

ghost use Rattle.std.specs.Prelude.{◌≡◌, IfOk};
ghost use Rattle.away_types.specs.ResolvedBodies as bodies;
ghost use Rattle.away_types.specs.ResolvedBodies.{spot as spot_of};
ghost use Rattle.away_types.specs.Statements as spec;

use crate::around::Spot;
use crate::declarations::declared_all;
use crate::finding::{branched, followed, nothing, own};
use crate::into::into_of;
use crate::labels::around_with;
use crate::resolved::{Declared, Headed, Resolved};
use crate::slots::Slots;
use crate::steps::{assign_of, block_of, continue_of, exit_of, headed, loop_of, raise_of};
use away_names::naming::named_expr;
use away_names::note::clean;
use away_names::scope::{Scope, Variable};
use away_trees::{Arm, Stmt};
use away_values::{Name, NoMemory};
use sqlite_items::Items;
use std::alloc::Global;

/// A statement.
#[cycle(resolving)]
#[tactic(auto, using(crate::proofs::ResolvingRules::statement_rules))]
pub fn resolved_stmt(
    alloc: Global,
    s: &Stmt,
    spot: &Spot<'_>,
    slots: Slots,
) -> Result<Resolved<Stmt>, NoMemory>
    ensures { IfOk result (λ x. x ≡ bodies.resolved_stmt (spot_of spot.now) slots s.now) }
{
    match s {
        Stmt::Block {
            label,
            decls,
            body,
            closing,
        } => {
            let Declared {
                it,
                variables,
                note,
                slots,
            } = declared_all(alloc, decls.as_slice(), &spot.scope, slots)?;
            let xs = resolved_inside(
                alloc,
                body.as_slice(),
                label,
                false,
                variables.as_slice(),
                spot,
                slots,
            )?;
            block_of(alloc, spot, label, decls.as_slice(), closing, it, note, xs)
        }
        Stmt::Assign(name, _, e) => assign_of(alloc, spot, name, e, slots),
        Stmt::If(arms, other) => {
            let Resolved { it, note, slots } = resolved_arms(alloc, arms.as_slice(), spot, slots)?;
            match other {
                None => Ok(Resolved {
                    it: Stmt::If(it, None),
                    note: branched(note, nothing())?,
                    slots,
                }),
                Some(body) => {
                    let y = resolved_body(alloc, body.as_slice(), spot, slots)?;
                    Ok(Resolved {
                        it: Stmt::If(it, Some(y.it)),
                        note: branched(note, followed(own(1, clean()), y.note)?)?,
                        slots: y.slots,
                    })
                }
            }
        }
        Stmt::Cases(arms, other) => {
            let Resolved { it, note, slots } = resolved_arms(alloc, arms.as_slice(), spot, slots)?;
            match other {
                None => Ok(Resolved {
                    it: Stmt::Cases(it, None),
                    note: branched(note, nothing())?,
                    slots,
                }),
                Some(body) => {
                    let y = resolved_body(alloc, body.as_slice(), spot, slots)?;
                    Ok(Resolved {
                        it: Stmt::Cases(it, Some(y.it)),
                        note: branched(note, followed(own(1, clean()), y.note)?)?,
                        slots: y.slots,
                    })
                }
            }
        }
        Stmt::Loop {
            label,
            kind,
            body,
            closing,
        } => {
            let Headed {
                it,
                variables,
                note,
                slots,
            } = headed(alloc, kind, &spot.scope, slots)?;
            let xs = resolved_inside(
                alloc,
                body.as_slice(),
                label,
                true,
                variables.as_slice(),
                spot,
                slots,
            )?;
            loop_of(alloc, spot, label, closing, it, note, xs)
        }
        Stmt::Exit(label, when) => exit_of(alloc, spot, label, when, slots),
        Stmt::Continue(label, when) => continue_of(alloc, spot, label, when, slots),
        Stmt::Return(e) => {
            let x = named_expr(alloc, e, &spot.scope)?;
            Ok(Resolved {
                it: Stmt::Return(x.it),
                note: own(1, x.note),
                slots,
            })
        }
        Stmt::Raise(raised) => raise_of(alloc, raised, slots),
        Stmt::Into {
            strict,
            targets,
            query,
        } => into_of(alloc, spot, *strict, targets.as_slice(), query, slots),
        Stmt::Nothing => Ok(Resolved {
            it: Stmt::Nothing,
            note: own(1, clean()),
            slots,
        }),
    }
}

#[cycle(resolving)]
fn resolved_inside(
    alloc: Global,
    body: &[Stmt],
    label: &Option<Name>,
    is_loop: bool,
    variables: &[Variable],
    spot: &Spot<'_>,
    slots: Slots,
) -> Result<Resolved<Items<Stmt>>, NoMemory>
    ensures { IfOk result (λ x. x ≡ bodies.resolved_body
        (spec.within label.now is_loop variables.now (spot_of spot.now)) slots body.now) }
{
    let around = around_with(alloc, spot.around, label, is_loop)?;
    let inner = Spot {
        scope: Scope {
            tables: spot.scope.tables,
            levels: spot.scope.levels,
            variables,
            in_function: spot.scope.in_function,
        },
        around: around.as_slice(),
    };
    resolved_body(alloc, body, &inner, slots)
}

#[cycle(resolving)]
fn resolved_body(
    alloc: Global,
    list: &[Stmt],
    spot: &Spot<'_>,
    slots: Slots,
) -> Result<Resolved<Items<Stmt>>, NoMemory>
    ensures { IfOk result (λ x. x ≡ bodies.resolved_body (spot_of spot.now) slots list.now) }
{
    let mut done = Items::new(alloc);
    let mut note = nothing();
    let mut so_far = slots;
    for s in list {
        let Resolved {
            it,
            note: more,
            slots,
        } = resolved_stmt(alloc, s, spot, so_far)?;
        done.push(it)?;
        note = followed(note, more)?;
        so_far = slots;
    }
    Ok(Resolved {
        it: done,
        note,
        slots: so_far,
    })
}

#[cycle(resolving)]
fn resolved_arms(
    alloc: Global,
    list: &[Arm],
    spot: &Spot<'_>,
    slots: Slots,
) -> Result<Resolved<Items<Arm>>, NoMemory>
    ensures { IfOk result (λ x. x ≡ bodies.resolved_arms (spot_of spot.now) slots list.now) }
{
    let mut done = Items::new(alloc);
    let mut note = nothing();
    let mut so_far = slots;
    for a in list {
        let Resolved {
            it,
            note: more,
            slots,
        } = resolved_arm(alloc, a, spot, so_far)?;
        done.push(it)?;
        note = followed(note, more)?;
        so_far = slots;
    }
    Ok(Resolved {
        it: done,
        note,
        slots: so_far,
    })
}

#[cycle(resolving)]
#[tactic(auto, using(crate::proofs::ResolvingRules::arm_rule))]
fn resolved_arm(
    alloc: Global,
    a: &Arm,
    spot: &Spot<'_>,
    slots: Slots,
) -> Result<Resolved<Arm>, NoMemory>
    ensures { IfOk result (λ x. x ≡ bodies.resolved_arm (spot_of spot.now) slots a.now) }
{
    let xs = resolved_body(alloc, a.body.as_slice(), spot, slots)?;
    let test = named_expr(alloc, &a.test, &spot.scope)?;
    Ok(Resolved {
        it: Arm {
            test: test.it,
            body: xs.it,
        },
        note: followed(own(1, test.note), xs.note)?,
        slots: xs.slots,
    })
}
