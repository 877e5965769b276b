//! SELECT INTO, with what its names stand for.

ghost use Rattle.std.specs.Prelude.{◌≡◌, IfOk, map};
ghost use Rattle.std.specs.Option.{option_copied};
ghost use Rattle.away_names.specs.Lookups as lookups;
ghost use Rattle.away_names.specs.Places.{scope};
ghost use Rattle.away_types.specs.ResolvedBodies.{spot as spot_of};
ghost use Rattle.away_types.specs.StatementRules as rules;
ghost use Rattle.away_types.specs.Statements as spec;

use crate::around::Spot;
use crate::finding::own_with;
use crate::resolved::Resolved;
use crate::slots::Slots;
use crate::variables::with_targets;
use away_names::lookups::variable_named;
use away_names::naming_queries::named_select;
use away_names::note::{Noted, breaks, clean, joined};
use away_names::references::written;
use away_names::rule::Rule;
use away_names::scope::{Scope, Variable};
use away_trees::{Select, Stmt};
use away_values::{Name, NoMemory};
use sqlite_items::Items;
use std::alloc::Global;

fn target_among(n: &Name, targets: &[(Name, Option<u32>)]) -> bool
    ensures { result ≡ lookups.is_among n.now (map (λ t. t.0) targets.now) }
{
    for t in targets {
        if t.0.text() == n.text() {
            return true;
        }
    }
    false
}

/// Whether two targets have one name.
#[tactic(auto, unfolding(away_names::specs::Lookups::has_double))]
fn sets_twice(targets: &[(Name, Option<u32>)]) -> bool
    ensures { result ≡ rules.sets_twice targets.now }
{
    let mut rest = targets;
    while let [t, more @ ..] = rest {
        if target_among(&t.0, more) {
            return true;
        }
        rest = more;
    }
    false
}

#[tactic(auto, unfolding(crate::specs::Statements::target_by))]
fn target_by(
    alloc: Global,
    name: &Name,
    v: Option<&Variable>,
) -> Result<Noted<(Name, Option<u32>)>, NoMemory>
    ensures { IfOk result (λ x. x ≡ spec.target_by name.now (option_copied v.entry)) }
{
    let target = name.copy(alloc)?;
    match v {
        None => Ok(Noted {
            it: (target, None),
            note: breaks(Rule::Names, true),
        }),
        Some(v) => Ok(Noted {
            it: (target, Some(v.slot)),
            note: breaks(Rule::Constants, v.constant),
        }),
    }
}

fn target(alloc: Global, name: &Name, s: &Scope<'_>) -> Result<Noted<(Name, Option<u32>)>, NoMemory>
    ensures { IfOk result (λ x. x ≡ spec.target (scope s.now) name.now) }
{
    let x = target_by(alloc, name, variable_named(name, s.variables))?;
    Ok(Noted {
        it: x.it,
        note: joined(written(s, name), x.note),
    })
}

fn targeted(
    alloc: Global,
    targets: &[(Name, Option<u32>)],
    s: &Scope<'_>,
) -> Result<Noted<Items<(Name, Option<u32>)>>, NoMemory>
    ensures { IfOk result (λ x. x ≡ spec.targeted (scope s.now) targets.now) }
{
    let mut done = Items::new(alloc);
    let mut note = clean();
    for t in targets {
        let x = target(alloc, &t.0, s)?;
        done.push(x.it)?;
        note = joined(note, x.note);
    }
    Ok(Noted { it: done, note })
}

/// The select sees the variables as an expression does, and the targets are variables in sight.
pub fn into_of(
    alloc: Global,
    spot: &Spot<'_>,
    strict: bool,
    targets: &[(Name, Option<u32>)],
    query: &Select,
    slots: Slots,
) -> Result<Resolved<Stmt>, NoMemory>
    ensures { IfOk result (λ x. x
        ≡ spec.into_with (spot_of spot.now) strict targets.now query.now slots) }
{
    let ts = targeted(alloc, targets, &spot.scope)?;
    let slots = with_targets(ts.it.as_slice(), slots)?;
    let q = named_select(alloc, query, &spot.scope)?;
    let found = joined(
        breaks(Rule::Duplicates, sets_twice(targets)),
        joined(ts.note, q.note),
    );
    let note = own_with(targets.len(), found)?;
    Ok(Resolved {
        it: Stmt::Into {
            strict,
            targets: ts.it,
            query: q.it.it,
        },
        note,
        slots,
    })
}
