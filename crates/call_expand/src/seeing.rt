//! The variables and labels that a place sees.

ghost use Rattle.std.specs.Prelude.{◌≡◌, ◌+◌, [], IfOk, length, map, suc};
ghost use Rattle.call_expand.specs.Moving as spec;

use crate::made::Seen;
use away_names::lookups::narrow;
use away_names::scope::Variable;
use away_values::{Name, NoMemory, Ty};
use sqlite_items::Items;
use std::alloc::Global;

/// A place further on. Where there is none, a list as long would have no memory.
pub(crate) fn further(k: usize, n: usize) -> Result<usize, NoMemory>
    ensures { IfOk result (λ m. m ≡ k + n) }
{
    match k.checked_add(n) {
        None => Err(NoMemory),
        Some(m) => Ok(m),
    }
}

pub(crate) fn next(k: usize) -> Result<usize, NoMemory>
    ensures { IfOk result (λ m. m ≡ suc k) }
{
    match k.checked_add(1) {
        None => Err(NoMemory),
        Some(m) => Ok(m),
    }
}

pub(crate) fn copy_variables(alloc: Global, list: &[Variable]) -> Result<Items<Variable>, NoMemory>
    ensures { IfOk result (λ all. all ≡ list.now) }
{
    let mut all = Items::new(alloc);
    for v in list {
        let name = v.name.copy(alloc)?;
        all.push(Variable {
            name,
            slot: v.slot,
            constant: v.constant,
        })?;
    }
    Ok(all)
}

/// A name more, with the place of its new name.
pub(crate) fn with_name(
    alloc: Global,
    n: &Name,
    k: usize,
    seen: Items<Variable>,
) -> Result<Items<Variable>, NoMemory>
    ensures { IfOk result (λ all. all ≡ spec.with_name n.now k seen) }
{
    let mut all = seen;
    let name = n.copy(alloc)?;
    all.push(Variable {
        name,
        slot: narrow(k)?,
        constant: false,
    })?;
    Ok(all)
}

/// What a body sees whose parameters have the names from a place on.
pub(crate) fn seeing_params(
    alloc: Global,
    k: usize,
    params: &[(Name, Ty)],
) -> Result<Seen, NoMemory>
    ensures { IfOk result (λ s. s ≡ spec.seeing_params k params.now) }
{
    let mut variables = Items::new(alloc);
    let mut at = k;
    for p in params {
        variables = with_name(alloc, &p.0, at, variables)?;
        at = next(at)?;
    }
    Ok(Seen {
        variables,
        labels: Items::new(alloc),
    })
}

/// The same with the label of a block or a loop, where it has one.
pub(crate) fn with_label(
    alloc: Global,
    label: &Option<Name>,
    k: usize,
    seen: &Seen,
) -> Result<Seen, NoMemory>
    ensures { IfOk result (λ s. s ≡ spec.with_label label.now k seen.now) }
{
    let variables = copy_variables(alloc, seen.variables.as_slice())?;
    let labels = copy_variables(alloc, seen.labels.as_slice())?;
    match label {
        None => Ok(Seen { variables, labels }),
        Some(l) => Ok(Seen {
            variables,
            labels: with_name(alloc, l, k, labels)?,
        }),
    }
}

pub(crate) fn past_label(label: &Option<Name>, k: usize) -> Result<usize, NoMemory>
    ensures { IfOk result (λ m. m ≡ spec.past_label label.now k) }
{
    match label {
        None => Ok(k),
        Some(_) => next(k),
    }
}
