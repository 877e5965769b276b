//! The parameters of a function.

ghost use Rattle.std.specs.Prelude.{◌≡◌, IfOk, map};
ghost use Rattle.away_names.specs.Lookups as lookups;
ghost use Rattle.away_names.specs.Notes.{all_notes};
ghost use Rattle.away_names.specs.Schemas as schemas;
ghost use Rattle.away_types.specs.FunctionChecks as spec;
ghost use Rattle.away_types.specs.StatementRules as rules;

use crate::slots::Slots;
use crate::variables::{with_slot, with_variable};
use away_names::lookups::is_kept;
use away_names::note::{Note, breaks, clean, joined};
use away_names::rule::Rule;
use away_names::scope::Variable;
use away_values::{Name, NoMemory, Ty};
use sqlite_items::Items;
use std::alloc::Global;

/// The slots of the parameters, and the parameters as variables.
#[derive(Drop)]
pub struct Start {
    pub slots: Slots,
    pub variables: Items<Variable>,
}

pub fn started(alloc: Global, params: &[(Name, Ty)]) -> Result<Start, NoMemory>
    ensures { IfOk result (λ s. s ≡ spec.start params.now) }
{
    let mut slots = Slots {
        shown: Items::new(alloc),
        hidden: Items::new(alloc),
        picked: Items::new(alloc),
    };
    let mut variables = Items::new(alloc);
    for p in params {
        variables = with_variable(alloc, &p.0, false, &slots, variables)?;
        slots = with_slot(p.1, false, slots)?;
    }
    Ok(Start { slots, variables })
}

pub fn kept(n: &Name) -> Note
    ensures { result ≡ schemas.kept n.now }
{
    breaks(Rule::Reserved, is_kept(n))
}

fn param_among(n: &Name, params: &[(Name, Ty)]) -> bool
    ensures { result ≡ lookups.is_among n.now (map (λ p. p.0) params.now) }
{
    for p in params {
        if p.0.text() == n.text() {
            return true;
        }
    }
    false
}

#[tactic(auto, unfolding(away_names::specs::Lookups::has_double))]
fn takes_twice(params: &[(Name, Ty)]) -> bool
    ensures { result ≡ rules.takes_twice params.now }
{
    let mut rest = params;
    while let [p, more @ ..] = rest {
        if param_among(&p.0, more) {
            return true;
        }
        rest = more;
    }
    false
}

fn names_note(params: &[(Name, Ty)]) -> Note
    ensures { result ≡ all_notes (λ p. schemas.kept p.0) params.now }
{
    let mut note = clean();
    for p in params {
        note = joined(note, kept(&p.0));
    }
    note
}

pub fn params_note(params: &[(Name, Ty)]) -> Note
    ensures { result ≡ spec.params_note params.now }
{
    joined(
        breaks(Rule::Duplicates, takes_twice(params)),
        names_note(params),
    )
}
