//! Blocks and loops with new names, around their bodies.

ghost use Rattle.std.specs.Prelude.{◌≡◌, IfOk};
ghost use Rattle.call_expand.specs.Plans as spec;

use crate::heads::{in_loop, moved_decls, moved_head, new_label, past_head};
use crate::made::{Entered, Made, Opened, Seen};
use crate::seeing::{past_label, with_label};
use away_trees::{Decl, LoopKind, Stmt};
use away_values::{Name, NoMemory};
use moved_names::sight::{Sight, maybe_moved};
use sqlite_items::{Boxed, Items};
use std::alloc::Global;

/// The label at the end of a block or a loop.
#[tactic(auto, unfolding(crate::specs::Plans::closed))]
fn closed(
    alloc: Global,
    names: &[Name],
    label: &Option<Name>,
    closing: &Option<Name>,
    seen: &Seen,
    k: usize,
) -> Result<Option<Name>, NoMemory>
    ensures { IfOk result (λ x. x ≡ spec.closed names.now label.now closing.now seen.now k) }
{
    let inner = with_label(alloc, label, k, seen)?;
    maybe_moved(
        alloc,
        closing,
        &Sight {
            names,
            seen: inner.labels.as_slice(),
        },
    )
}

/// What stands before the statements of a block.
#[tactic(auto, unfolding(crate::specs::Plans::opened))]
pub(crate) fn opened(
    alloc: Global,
    names: &[Name],
    label: &Option<Name>,
    decls: &[Decl],
    seen: &Seen,
    k: usize,
) -> Result<Opened, NoMemory>
    ensures { IfOk result (λ x. x ≡ spec.opened names.now label.now decls.now seen.now k) }
{
    let inner = with_label(alloc, label, k, seen)?;
    let at = past_label(label, k)?;
    let ds = moved_decls(alloc, names, decls, inner.variables.as_slice(), at)?;
    Ok(Opened {
        it: ds.it,
        inside: Seen {
            variables: ds.variables,
            labels: inner.labels,
        },
        next: ds.next,
    })
}

/// The block of declarations and statements with new names.
pub(crate) fn block_of(
    alloc: Global,
    names: &[Name],
    label: &Option<Name>,
    closing: &Option<Name>,
    seen: &Seen,
    k: usize,
    decls: Items<Decl>,
    body: Made<Items<Stmt>>,
) -> Result<Made<Stmt>, NoMemory>
    ensures { IfOk result (λ x. x
        ≡ spec.block_by names.now label.now closing.now seen.now k decls body) }
{
    let ends = closed(alloc, names, label, closing, seen, k)?;
    let begins = new_label(alloc, names, label, k)?;
    Ok(Made {
        it: Stmt::Block {
            label: begins,
            decls,
            body: body.it,
            closing: ends,
        },
        next: body.next,
    })
}

/// What stands before the body of a loop.
#[tactic(auto, unfolding(crate::specs::Plans::entered))]
pub(crate) fn entered(
    alloc: Global,
    names: &[Name],
    label: &Option<Name>,
    kind: &LoopKind,
    seen: &Seen,
    k: usize,
) -> Result<Entered, NoMemory>
    ensures { IfOk result (λ x. x ≡ spec.entered names.now label.now kind.now seen.now k) }
{
    let at = past_label(label, k)?;
    let next = past_head(kind, at)?;
    let inner = with_label(alloc, label, k, seen)?;
    let inside = in_loop(alloc, kind, inner, at)?;
    let it = Boxed::new(alloc, moved_head(alloc, names, kind, seen, at)?)?;
    Ok(Entered { it, inside, next })
}

/// The loop of a head and statements with new names.
pub(crate) fn loop_of(
    alloc: Global,
    names: &[Name],
    label: &Option<Name>,
    closing: &Option<Name>,
    seen: &Seen,
    k: usize,
    head: Boxed<LoopKind>,
    body: Made<Items<Stmt>>,
) -> Result<Made<Stmt>, NoMemory>
    ensures { IfOk result (λ x. x
        ≡ spec.loop_by names.now label.now closing.now seen.now k head body) }
{
    let ends = closed(alloc, names, label, closing, seen, k)?;
    let begins = new_label(alloc, names, label, k)?;
    Ok(Made {
        it: Stmt::Loop {
            label: begins,
            kind: head.into_inner(),
            body: body.it,
            closing: ends,
        },
        next: body.next,
    })
}
