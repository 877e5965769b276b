//! Statements without statements in them, with new names.

ghost use Rattle.std.specs.Prelude.{◌≡◌, IfOk};
ghost use Rattle.call_expand.specs.Leaves as spec;

use crate::heads::moved_targets;
use crate::made::{Made, Seen};
use away_trees::{Expr, Select, Stmt};
use away_values::{Name, NoMemory};
use moved_names::renaming::renamed_maybe;
use moved_names::renaming_queries::renamed_select;
use moved_names::sight::{Sight, maybe_moved};
use std::alloc::Global;

pub(crate) fn exit_of(
    alloc: Global,
    names: &[Name],
    label: &Option<Name>,
    when: &Option<Expr>,
    seen: &Seen,
    k: usize,
) -> Result<Made<Stmt>, NoMemory>
    ensures { IfOk result (λ x. x ≡ spec.exit_of names.now label.now when.now seen.now k) }
{
    let label = maybe_moved(
        alloc,
        label,
        &Sight {
            names,
            seen: seen.labels.as_slice(),
        },
    )?;
    let when = renamed_maybe(
        alloc,
        when,
        &Sight {
            names,
            seen: seen.variables.as_slice(),
        },
    )?;
    Ok(Made {
        it: Stmt::Exit(label, when),
        next: k,
    })
}

pub(crate) fn continue_of(
    alloc: Global,
    names: &[Name],
    label: &Option<Name>,
    when: &Option<Expr>,
    seen: &Seen,
    k: usize,
) -> Result<Made<Stmt>, NoMemory>
    ensures { IfOk result (λ x. x ≡ spec.continue_of names.now label.now when.now seen.now k) }
{
    let label = maybe_moved(
        alloc,
        label,
        &Sight {
            names,
            seen: seen.labels.as_slice(),
        },
    )?;
    let when = renamed_maybe(
        alloc,
        when,
        &Sight {
            names,
            seen: seen.variables.as_slice(),
        },
    )?;
    Ok(Made {
        it: Stmt::Continue(label, when),
        next: k,
    })
}

pub(crate) fn into_of(
    alloc: Global,
    names: &[Name],
    strict: bool,
    targets: &[(Name, Option<u32>)],
    query: &Select,
    seen: &Seen,
    k: usize,
) -> Result<Made<Stmt>, NoMemory>
    ensures { IfOk result (λ x. x
        ≡ spec.into_of names.now strict targets.now query.now seen.now k) }
{
    let targets = moved_targets(alloc, names, seen.variables.as_slice(), targets)?;
    let query = renamed_select(
        alloc,
        query,
        &Sight {
            names,
            seen: seen.variables.as_slice(),
        },
    )?;
    Ok(Made {
        it: Stmt::Into {
            strict,
            targets,
            query,
        },
        next: k,
    })
}
