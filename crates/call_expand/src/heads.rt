//! Declarations, heads of loops and targets with new names.

ghost use Rattle.std.specs.Prelude.{◌≡◌, IfOk, map};
ghost use Rattle.call_expand.specs.Moving as spec;

use crate::made::{Declared, Seen};
use crate::seeing::{copy_variables, next, with_name};
use away_names::scope::Variable;
use away_trees::{Decl, LoopKind};
use away_values::{Name, NoMemory, Ty};
use moved_names::renaming::{renamed_expr, renamed_maybe};
use moved_names::sight::{Sight, moved, name_at};
use sqlite_items::{Boxed, Items};
use std::alloc::Global;

fn moved_decl(
    alloc: Global,
    names: &[Name],
    variables: &[Variable],
    k: usize,
    d: &Decl,
) -> Result<Decl, NoMemory>
    ensures { IfOk result (λ x. x ≡ spec.moved_decl names.now variables.now k d.now) }
{
    let sight = Sight {
        names,
        seen: variables,
    };
    let default = renamed_maybe(alloc, &d.default, &sight)?;
    let name = name_at(alloc, names, k)?;
    Ok(Decl {
        name,
        ty: d.ty,
        constant: d.constant,
        not_null: d.not_null,
        default,
    })
}

/// Declarations, each of which sees those before it.
pub(crate) fn moved_decls(
    alloc: Global,
    names: &[Name],
    decls: &[Decl],
    seen: &[Variable],
    k: usize,
) -> Result<Declared, NoMemory>
    ensures { IfOk result (λ x. x ≡ spec.moved_decls names.now decls.now seen.now k) }
{
    let mut it = Items::new(alloc);
    let mut variables = copy_variables(alloc, seen)?;
    let mut at = k;
    for d in decls {
        it.push(moved_decl(alloc, names, variables.as_slice(), at, d)?)?;
        variables = with_name(alloc, &d.name, at, variables)?;
        at = next(at)?;
    }
    Ok(Declared {
        it,
        variables,
        next: at,
    })
}

/// The head of a loop, whose variable has the name at a place.
pub(crate) fn moved_head(
    alloc: Global,
    names: &[Name],
    kind: &LoopKind,
    seen: &Seen,
    k: usize,
) -> Result<LoopKind, NoMemory>
    ensures { IfOk result (λ x. x ≡ spec.moved_head names.now kind.now seen.now k) }
{
    let sight = Sight {
        names,
        seen: seen.variables.as_slice(),
    };
    match kind {
        LoopKind::Plain => Ok(LoopKind::Plain),
        LoopKind::While(e) => Ok(LoopKind::While(renamed_expr(alloc, e, &sight)?)),
        LoopKind::Count {
            var: _,
            reverse,
            first,
            last,
            step,
        } => {
            let var = name_at(alloc, names, k)?;
            let first = Boxed::new(alloc, renamed_expr(alloc, first, &sight)?)?;
            let last = Boxed::new(alloc, renamed_expr(alloc, last, &sight)?)?;
            let step = renamed_maybe(alloc, step, &sight)?;
            Ok(LoopKind::Count {
                var,
                reverse: *reverse,
                first: first.into_inner(),
                last: last.into_inner(),
                step,
            })
        }
    }
}

/// What the body of a loop sees.
pub(crate) fn in_loop(
    alloc: Global,
    kind: &LoopKind,
    seen: Seen,
    k: usize,
) -> Result<Seen, NoMemory>
    ensures { IfOk result (λ x. x ≡ spec.in_loop kind.now seen k) }
{
    match kind {
        LoopKind::Plain => Ok(seen),
        LoopKind::While(_) => Ok(seen),
        LoopKind::Count { var, .. } => {
            let Seen { variables, labels } = seen;
            let variables = with_name(alloc, var, k, variables)?;
            Ok(Seen { variables, labels })
        }
    }
}

pub(crate) fn past_head(kind: &LoopKind, k: usize) -> Result<usize, NoMemory>
    ensures { IfOk result (λ x. x ≡ spec.past_head kind.now k) }
{
    match kind {
        LoopKind::Plain => Ok(k),
        LoopKind::While(_) => Ok(k),
        LoopKind::Count { .. } => next(k),
    }
}

/// The new name of a label, where there is one.
pub(crate) fn new_label(
    alloc: Global,
    names: &[Name],
    label: &Option<Name>,
    k: usize,
) -> Result<Option<Name>, NoMemory>
    ensures { IfOk result (λ x. x ≡ spec.new_label names.now label.now k) }
{
    match label {
        None => Ok(None),
        Some(_) => Ok(Some(name_at(alloc, names, k)?)),
    }
}

pub(crate) fn moved_targets(
    alloc: Global,
    names: &[Name],
    seen: &[Variable],
    targets: &[(Name, Option<u32>)],
) -> Result<Items<(Name, Option<u32>)>, NoMemory>
    ensures { IfOk result (λ xs. xs ≡ map (spec.moved_target names.now seen.now) targets.now) }
{
    let sight = Sight { names, seen };
    let mut all = Items::new(alloc);
    for t in targets {
        all.push((moved(alloc, &t.0, &sight)?, None))?;
    }
    Ok(all)
}

/// The parameters, with the names from a place on.
pub(crate) fn moved_params(
    alloc: Global,
    names: &[Name],
    params: &[(Name, Ty)],
) -> Result<Items<(Name, Ty)>, NoMemory>
    ensures { IfOk result (λ xs. xs ≡ spec.moved_params names.now 0 params.now) }
{
    let mut all = Items::new(alloc);
    let mut at = 0;
    for p in params {
        all.push((name_at(alloc, names, at)?, p.1))?;
        at = next(at)?;
    }
    Ok(all)
}
