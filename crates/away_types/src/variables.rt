//! The variables in sight, and the slots of all.

ghost use Rattle.std.specs.Prelude.{◌≡◌, IfOk};
ghost use Rattle.away_types.specs.Statements as spec;

use crate::slots::{Slot, Slots};
use away_names::lookups::narrow;
use away_names::scope::Variable;
use away_values::{Name, NoMemory, Ty};
use sqlite_items::Items;
use std::alloc::Global;

pub fn copy_variables(alloc: Global, variables: &[Variable]) -> Result<Items<Variable>, NoMemory>
    ensures { IfOk result (λ all. all ≡ variables.now) }
{
    let mut all = Items::new(alloc);
    for i in 0..variables.len() {
        let v = &variables[i];
        all.push(Variable {
            name: v.name.copy(alloc)?,
            slot: v.slot,
            constant: v.constant,
        })?;
    }
    Ok(all)
}

#[tactic(auto, unfolding(crate::specs::Statements::with_variable))]
pub fn with_variable(
    alloc: Global,
    name: &Name,
    constant: bool,
    slots: &Slots,
    variables: Items<Variable>,
) -> Result<Items<Variable>, NoMemory>
    ensures { IfOk result (λ all. all ≡ spec.with_variable name.now constant slots.now variables) }
{
    let mut all = variables;
    all.push(Variable {
        name: name.copy(alloc)?,
        slot: narrow(slots.shown.len())?,
        constant,
    })?;
    Ok(all)
}

#[tactic(auto, unfolding(crate::specs::Statements::with_slot))]
pub fn with_slot(ty: Ty, not_null: bool, slots: Slots) -> Result<Slots, NoMemory>
    ensures { IfOk result (λ s. s ≡ spec.with_slot ty not_null slots) }
{
    let Slots {
        mut shown,
        hidden,
        picked,
    } = slots;
    shown.push(Slot { ty, not_null })?;
    Ok(Slots {
        shown,
        hidden,
        picked,
    })
}

/// The counter, the last value and the step of a FOR, which are integers, as its variable is. The manual: 43.6.5.5.
#[tactic(auto, unfolding(crate::specs::Statements::with_hidden))]
pub fn with_hidden(slots: Slots) -> Result<Slots, NoMemory>
    ensures { IfOk result (λ s. s ≡ spec.with_hidden slots) }
{
    let one = Slot {
        ty: Ty::Integer,
        not_null: false,
    };
    let Slots {
        shown,
        mut hidden,
        picked,
    } = slots;
    hidden.push(one)?;
    hidden.push(one)?;
    hidden.push(one)?;
    Ok(Slots {
        shown,
        hidden,
        picked,
    })
}

fn picked_for(shown: &[Slot], slot: Option<u32>) -> Slot
    ensures { result ≡ spec.picked_for shown.now slot }
{
    let variable = match slot {
        None => None,
        Some(i) => shown.get(i as usize),
    };
    let ty = match variable {
        None => Ty::Bigint,
        Some(x) => x.ty,
    };
    Slot {
        ty,
        not_null: false,
    }
}

/// One for each target of an INTO, which holds its value until all have theirs.
#[tactic(auto, unfolding(crate::specs::Statements::with_targets))]
pub fn with_targets(targets: &[(Name, Option<u32>)], slots: Slots) -> Result<Slots, NoMemory>
    ensures { IfOk result (λ s. s ≡ spec.with_targets targets.now slots) }
{
    let Slots {
        shown,
        hidden,
        mut picked,
    } = slots;
    for t in targets {
        picked.push(picked_for(shown.as_slice(), t.1))?;
    }
    Ok(Slots {
        shown,
        hidden,
        picked,
    })
}
