//! Statements, by their parts that are converted.

ghost use Rattle.std.specs.Prelude.{◌≡◌, IfOk};
ghost use Rattle.away_trees.specs.declared.statements.Stmt.TheVariants as stmt;
ghost use Rattle.away_typing.specs.TypingLists.{places};
ghost use Rattle.elaboration.specs.Converting as spec;
ghost use Rattle.elaboration.specs.ConvertingLists.{around};

use crate::converting::{Around, copy_targets, for_slot, maybe_marked, slot_type};
use crate::into::into_converted;
use away_core::Copied;
use away_names::listings::copy_alias;
use away_trees::{Decl, Expr, LoopKind, Select, Stmt};
use away_typing::types::Places;
use away_values::{Name, NoMemory};
use sqlite_items::{Boxed, Items};
use std::alloc::Global;

pub fn block_of(
    alloc: Global,
    label: &Option<Name>,
    decls: Items<Decl>,
    body: Items<Stmt>,
    closing: &Option<Name>,
) -> Result<Stmt, NoMemory>
    ensures { IfOk result (λ x. x ≡ stmt.Block label.now decls body closing.now) }
{
    Ok(Stmt::Block {
        label: copy_alias(alloc, label)?,
        decls,
        body,
        closing: copy_alias(alloc, closing)?,
    })
}

pub fn loop_of(
    alloc: Global,
    label: &Option<Name>,
    head: Boxed<LoopKind>,
    body: Items<Stmt>,
    closing: &Option<Name>,
) -> Result<Stmt, NoMemory>
    ensures { IfOk result (λ x. x ≡ stmt.Loop label.now head body closing.now) }
{
    let label = copy_alias(alloc, label)?;
    let closing = copy_alias(alloc, closing)?;
    Ok(Stmt::Loop {
        label,
        kind: head.into_inner(),
        body,
        closing,
    })
}

/// The manual: 43.5.1, Assignment, where a value is converted to the type of its variable.
pub fn assign_of(
    alloc: Global,
    name: &Name,
    slot: Option<u32>,
    e: &Expr,
    a: &Around<'_>,
) -> Result<Stmt, NoMemory>
    ensures { IfOk result (λ x. x ≡ stmt.Assign name.now slot
        (spec.for_slot (spec.slot_type (around a.now) slot) (around a.now).places e.now)) }
{
    let value = for_slot(alloc, slot_type(a, slot), e, &a.places)?;
    Ok(Stmt::Assign(name.copy(alloc)?, slot, value))
}

pub fn exit_of(
    alloc: Global,
    label: &Option<Name>,
    when: &Option<Expr>,
    p: &Places<'_>,
) -> Result<Stmt, NoMemory>
    ensures { IfOk result (λ x. x
        ≡ stmt.Exit label.now (spec.maybe_marked (places p.now) when.now)) }
{
    let test = maybe_marked(alloc, when, p)?;
    Ok(Stmt::Exit(copy_alias(alloc, label)?, test))
}

pub fn continue_of(
    alloc: Global,
    label: &Option<Name>,
    when: &Option<Expr>,
    p: &Places<'_>,
) -> Result<Stmt, NoMemory>
    ensures { IfOk result (λ x. x
        ≡ stmt.Continue label.now (spec.maybe_marked (places p.now) when.now)) }
{
    let test = maybe_marked(alloc, when, p)?;
    Ok(Stmt::Continue(copy_alias(alloc, label)?, test))
}

pub fn into_of(
    alloc: Global,
    strict: bool,
    targets: &[(Name, Option<u32>)],
    query: &Select,
    a: &Around<'_>,
) -> Result<Stmt, NoMemory>
    ensures { IfOk result (λ x. x ≡ stmt.Into strict targets.now
        (spec.into_converted (around a.now) targets.now query.now)) }
{
    let select = into_converted(alloc, targets, query, a)?;
    Ok(Stmt::Into {
        strict,
        targets: copy_targets(alloc, targets)?,
        query: select,
    })
}
