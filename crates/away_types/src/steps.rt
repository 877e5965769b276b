//! Statements, by their parts whose names are resolved.

ghost use Rattle.std.specs.Prelude.{◌≡◌, IfOk, length};
ghost use Rattle.std.specs.Option.{option_copied};
ghost use Rattle.away_trees.specs.declared.statements.Stmt.TheVariants as stmt;
ghost use Rattle.away_names.specs.declared.rule.Rule.TheVariants as rule;
ghost use Rattle.away_names.specs.Notes as notes;
ghost use Rattle.away_names.specs.Places.{scope};
ghost use Rattle.away_types.specs.Findings as findings;
ghost use Rattle.away_types.specs.ResolvedBodies.{spot as spot_of};
ghost use Rattle.away_types.specs.StatementRules as rules;
ghost use Rattle.away_types.specs.Statements as spec;

use crate::around::Spot;
use crate::declarations::declares_twice;
use crate::finding::{Report, followed, own, own_with};
use crate::labels::{labelled, may_continue, may_exit};
use crate::raising::may_raise;
use crate::resolved::{Headed, Resolved};
use crate::slots::Slots;
use crate::variables::{copy_variables, with_hidden, with_slot, with_variable};
use away_core::Copied;
use away_names::listings::copy_alias;
use away_names::lookups::variable_named;
use away_names::naming::{named_expr, named_maybe};
use away_names::note::{Note, Noted, breaks, clean, joined};
use away_names::references::{maybe_written, written};
use away_names::rule::Rule;
use away_names::scope::{Scope, Variable};
use away_trees::{Decl, Expr, LoopKind, Raised, Stmt};
use away_values::{Name, NoMemory, Ty};
use sqlite_items::{Boxed, Items};
use std::alloc::Global;

#[tactic(auto, unfolding(crate::specs::Statements::assigned))]
fn assigned(
    alloc: Global,
    name: &Name,
    v: Option<&Variable>,
    e: Noted<Expr>,
) -> Result<Noted<Stmt>, NoMemory>
    ensures { IfOk result (λ x. x ≡ spec.assigned name.now (option_copied v.entry) e) }
{
    let target = name.copy(alloc)?;
    match v {
        None => Ok(Noted {
            it: Stmt::Assign(target, None, e.it),
            note: joined(breaks(Rule::Names, true), e.note),
        }),
        Some(v) => Ok(Noted {
            it: Stmt::Assign(target, Some(v.slot), e.it),
            note: joined(breaks(Rule::Constants, v.constant), e.note),
        }),
    }
}

/// What was found in a block: by itself, at its declarations, and in its statements.
fn block_report(
    spot: &Spot<'_>,
    label: &Option<Name>,
    decls: &[Decl],
    closing: &Option<Name>,
    found: Note,
    body: Report,
) -> Result<Report, NoMemory>
    ensures { IfOk result (λ r. r ≡ findings.followed
        (findings.own_with (length decls.now)
        (notes.joined (notes.joined (spec.labelled (scope spot.now.scope) label.now closing.now)
        (notes.breaks rule.Duplicates (rules.declares_twice decls.now)))
        found))
        body) }
{
    let own = joined(
        joined(
            labelled(&spot.scope, label, closing),
            breaks(Rule::Duplicates, declares_twice(decls)),
        ),
        found,
    );
    followed(own_with(decls.len(), own)?, body)
}

fn block_by(
    alloc: Global,
    label: &Option<Name>,
    closing: &Option<Name>,
    head: Items<Decl>,
    report: Report,
    body: Resolved<Items<Stmt>>,
) -> Result<Resolved<Stmt>, NoMemory>
    ensures { IfOk result (λ x. x ≡ record {
      it = stmt.Block label.now head body.it closing.now;
      note = report;
      slots = body.slots;
    }) }
{
    let Resolved {
        it: statements,
        note: _,
        slots,
    } = body;
    Ok(Resolved {
        it: Stmt::Block {
            label: copy_alias(alloc, label)?,
            decls: head,
            body: statements,
            closing: copy_alias(alloc, closing)?,
        },
        note: report,
        slots,
    })
}

pub fn block_of(
    alloc: Global,
    spot: &Spot<'_>,
    label: &Option<Name>,
    decls: &[Decl],
    closing: &Option<Name>,
    head: Items<Decl>,
    note: Note,
    body: Resolved<Items<Stmt>>,
) -> Result<Resolved<Stmt>, NoMemory>
    ensures { IfOk result (λ x. x
        ≡ spec.block_with (spot_of spot.now) label.now decls.now closing.now head note body) }
{
    let report = block_report(spot, label, decls, closing, note, body.note)?;
    block_by(alloc, label, closing, head, report, body)
}

fn loop_by(
    alloc: Global,
    label: &Option<Name>,
    closing: &Option<Name>,
    head: Boxed<LoopKind>,
    report: Report,
    body: Resolved<Items<Stmt>>,
) -> Result<Resolved<Stmt>, NoMemory>
    ensures { IfOk result (λ x. x ≡ record {
      it = stmt.Loop label.now head body.it closing.now;
      note = report;
      slots = body.slots;
    }) }
{
    let label = copy_alias(alloc, label)?;
    let closing = copy_alias(alloc, closing)?;
    let Resolved { it, note: _, slots } = body;
    Ok(Resolved {
        it: Stmt::Loop {
            label,
            kind: head.into_inner(),
            body: it,
            closing,
        },
        note: report,
        slots,
    })
}

pub fn loop_of(
    alloc: Global,
    spot: &Spot<'_>,
    label: &Option<Name>,
    closing: &Option<Name>,
    head: Boxed<LoopKind>,
    found: Note,
    body: Resolved<Items<Stmt>>,
) -> Result<Resolved<Stmt>, NoMemory>
    ensures { IfOk result (λ x. x
        ≡ spec.loop_with (spot_of spot.now) label.now closing.now head found body) }
{
    let own = own(1, joined(labelled(&spot.scope, label, closing), found));
    let report = followed(own, body.note)?;
    loop_by(alloc, label, closing, head, report, body)
}

pub fn assign_of(
    alloc: Global,
    spot: &Spot<'_>,
    name: &Name,
    e: &Expr,
    slots: Slots,
) -> Result<Resolved<Stmt>, NoMemory>
    ensures { IfOk result (λ x. x ≡ spec.assign_with (spot_of spot.now) name.now e.now slots) }
{
    let value = named_expr(alloc, e, &spot.scope)?;
    let x = assigned(
        alloc,
        name,
        variable_named(name, spot.scope.variables),
        value,
    )?;
    Ok(Resolved {
        it: x.it,
        note: own(1, joined(written(&spot.scope, name), x.note)),
        slots,
    })
}

pub fn exit_of(
    alloc: Global,
    spot: &Spot<'_>,
    label: &Option<Name>,
    when: &Option<Expr>,
    slots: Slots,
) -> Result<Resolved<Stmt>, NoMemory>
    ensures { IfOk result (λ x. x ≡ spec.jump (λ label when.
        stmt.Exit label when) rules.may_exit label.now when.now (spot_of spot.now) slots) }
{
    let test = named_maybe(alloc, when, &spot.scope)?;
    Ok(Resolved {
        it: Stmt::Exit(copy_alias(alloc, label)?, test.it),
        note: own(
            1,
            joined(
                maybe_written(&spot.scope, label),
                joined(
                    breaks(Rule::Labels, !may_exit(label, spot.around)),
                    test.note,
                ),
            ),
        ),
        slots,
    })
}

pub fn continue_of(
    alloc: Global,
    spot: &Spot<'_>,
    label: &Option<Name>,
    when: &Option<Expr>,
    slots: Slots,
) -> Result<Resolved<Stmt>, NoMemory>
    ensures { IfOk result (λ x. x
        ≡ spec.jump (λ label when.
        stmt.Continue label when) rules.may_continue label.now when.now
        (spot_of spot.now) slots) }
{
    let test = named_maybe(alloc, when, &spot.scope)?;
    Ok(Resolved {
        it: Stmt::Continue(copy_alias(alloc, label)?, test.it),
        note: own(
            1,
            joined(
                maybe_written(&spot.scope, label),
                joined(
                    breaks(Rule::Labels, !may_continue(label, spot.around)),
                    test.note,
                ),
            ),
        ),
        slots,
    })
}

pub fn raise_of(alloc: Global, raised: &Raised, slots: Slots) -> Result<Resolved<Stmt>, NoMemory>
    ensures { IfOk result (λ x. x ≡ spec.raise_with raised.now slots) }
{
    Ok(Resolved {
        it: Stmt::Raise(raised.copy(alloc)?),
        note: own(1, breaks(Rule::Raises, !may_raise(raised))),
        slots,
    })
}

/// The head of a loop.
pub fn headed(
    alloc: Global,
    kind: &LoopKind,
    s: &Scope<'_>,
    slots: Slots,
) -> Result<Headed, NoMemory>
    ensures { IfOk result (λ x. x ≡ spec.headed kind.now (scope s.now) slots) }
{
    let variables = copy_variables(alloc, s.variables)?;
    match kind {
        LoopKind::Plain => Ok(Headed {
            it: Boxed::new(alloc, LoopKind::Plain)?,
            variables,
            note: clean(),
            slots,
        }),
        LoopKind::While(e) => {
            let x = named_expr(alloc, e, s)?;
            Ok(Headed {
                it: Boxed::new(alloc, LoopKind::While(x.it))?,
                variables,
                note: x.note,
                slots,
            })
        }
        LoopKind::Count {
            var,
            reverse,
            first,
            last,
            step,
        } => {
            let a = named_expr(alloc, first, s)?;
            let b = named_expr(alloc, last, s)?;
            let c = named_maybe(alloc, step, s)?;
            let name = var.copy(alloc)?;
            let variables = with_variable(alloc, var, false, &slots, variables)?;
            let slots = with_slot(Ty::Integer, false, slots)?;
            let head = LoopKind::Count {
                var: name,
                reverse: *reverse,
                first: a.it,
                last: b.it,
                step: c.it,
            };
            Ok(Headed {
                it: Boxed::new(alloc, head)?,
                variables,
                note: joined(written(s, var), joined(a.note, joined(b.note, c.note))),
                slots: with_hidden(slots)?,
            })
        }
    }
}
