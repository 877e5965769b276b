//! The variables in sight, by their names.

ghost use Rattle.std.specs.Prelude.{◌≡◌, [], IfOk};
ghost use Rattle.broken_names.specs.StatementCulprits as spec;

use away_names::scope::Variable;
use away_trees::{Decl, LoopKind};
use away_values::{Name, NoMemory, Ty};
use sqlite_items::Items;
use std::alloc::Global;

/// The same variables.
pub(crate) fn copied(alloc: Global, variables: &[Variable]) -> Result<Items<Variable>, NoMemory>
    ensures { IfOk result (λ all. all ≡ variables.now) }
{
    let mut all = Items::new(alloc);
    for i in 0..variables.len() {
        let v = &variables[i];
        all.push(Variable {
            name: v.name.copy(alloc)?,
            slot: v.slot,
            constant: v.constant,
        })?;
    }
    Ok(all)
}

/// The variable behind the others. Which slot it has doesn't matter to any rule.
pub(crate) fn with_variable(
    alloc: Global,
    variables: Items<Variable>,
    name: &Name,
    constant: bool,
) -> Result<Items<Variable>, NoMemory>
    ensures { IfOk result (λ all. all ≡ spec.with_variable variables name.now constant) }
{
    let mut all = variables;
    all.push(Variable {
        name: name.copy(alloc)?,
        slot: 0,
        constant,
    })?;
    Ok(all)
}

/// What is seen behind all declarations of a block.
pub(crate) fn with_decls(
    alloc: Global,
    variables: &[Variable],
    decls: &[Decl],
) -> Result<Items<Variable>, NoMemory>
    ensures { IfOk result (λ all. all ≡ spec.with_decls variables.now decls.now) }
{
    let mut all = copied(alloc, variables)?;
    for d in decls {
        all = with_variable(alloc, all, &d.name, d.constant)?;
    }
    Ok(all)
}

/// What is seen in the turns of a loop.
pub(crate) fn with_counter(
    alloc: Global,
    variables: &[Variable],
    kind: &LoopKind,
) -> Result<Items<Variable>, NoMemory>
    ensures { IfOk result (λ all. all ≡ spec.with_counter variables.now kind.now) }
{
    let all = copied(alloc, variables)?;
    match kind {
        LoopKind::Plain => Ok(all),
        LoopKind::While(_) => Ok(all),
        LoopKind::Count { var, .. } => with_variable(alloc, all, var, false),
    }
}

/// The parameters of a function.
pub(crate) fn with_params(alloc: Global, params: &[(Name, Ty)]) -> Result<Items<Variable>, NoMemory>
    ensures { IfOk result (λ all. all ≡ spec.with_params [] params.now) }
{
    let mut all = Items::new(alloc);
    for p in params {
        all = with_variable(alloc, all, &p.0, false)?;
    }
    Ok(all)
}
