//! What names in expressions stand for.

ghost use Rattle.std.specs.Prelude.{◌≡◌, IfOk, is_some};
ghost use Rattle.std.specs.Option.{option_copied};
ghost use Rattle.away_names.specs.Naming as spec;
ghost use Rattle.away_names.specs.Places.{scope};

use crate::function::function;
use crate::lookups::{column_named, column_qualified, is_kept, variable_named};
use crate::note::{Column, Note, Noted, breaks, clean, joined};
use crate::rule::Rule;
use crate::scope::{Hit, Scope, Variable};
use away_trees::Expr;
use away_values::{Name, NoMemory};
use std::alloc::Global;

// ---- names as they are written

#[tactic(auto, unfolding(crate::specs::Naming::written))]
pub fn written(s: &Scope<'_>, n: &Name) -> Note
    ensures { result ≡ spec.written (scope s.now) n.now }
{
    breaks(Rule::Reserved, s.in_function && is_kept(n))
}

pub fn all_written(s: &Scope<'_>, names: &[Name]) -> Note
    ensures { result ≡ spec.all_written (scope s.now) names.now }
{
    let mut note = clean();
    for n in names {
        note = joined(note, written(s, n));
    }
    note
}

#[tactic(auto, unfolding(crate::specs::Naming::maybe_written))]
pub fn maybe_written(s: &Scope<'_>, n: &Option<Name>) -> Note
    ensures { result ≡ spec.maybe_written (scope s.now) n.now }
{
    match n {
        None => clean(),
        Some(n) => written(s, n),
    }
}

// ---- expressions

#[tactic(auto, unfolding(crate::specs::Naming::slot_or))]
fn slot_or(alloc: Global, n: &Name, v: Option<&Variable>) -> Result<Noted<Expr>, NoMemory>
    ensures { IfOk result (λ x. x ≡ spec.slot_or n.now (option_copied v.entry)) }
{
    match v {
        Some(v) => Ok(Noted {
            it: Expr::Slot(v.slot),
            note: clean(),
        }),
        None => Ok(Noted {
            it: Expr::Named(n.copy(alloc)?),
            note: breaks(Rule::Names, true),
        }),
    }
}

#[tactic(auto, unfolding(crate::specs::Naming::named_by))]
fn named_by(
    alloc: Global,
    n: &Name,
    hit: Option<Hit>,
    v: Option<&Variable>,
) -> Result<Noted<Expr>, NoMemory>
    ensures { IfOk result (λ x. x ≡ spec.named_by n.now hit (option_copied v.entry)) }
{
    match hit {
        Some(hit) => Ok(Noted {
            it: Expr::Column(hit.column),
            note: breaks(Rule::Ambiguity, hit.many || v.is_some()),
        }),
        None => slot_or(alloc, n, v),
    }
}

/// What a name alone stands for.
/// The manual: 43.11.1, Variable Substitution, where a name that may be a variable or a column is an error unless a setting decides.
#[tactic(auto, unfolding(crate::specs::Naming::named))]
pub fn named(alloc: Global, n: &Name, s: &Scope<'_>) -> Result<Noted<Expr>, NoMemory>
    ensures { IfOk result (λ x. x ≡ spec.named n.now (scope s.now)) }
{
    let hit = column_named(n, s)?;
    let x = named_by(alloc, n, hit, variable_named(n, s.variables))?;
    Ok(Noted {
        it: x.it,
        note: joined(written(s, n), x.note),
    })
}

#[tactic(auto, unfolding(crate::specs::Naming::qualified_by))]
fn qualified_by(
    alloc: Global,
    a: &Name,
    n: &Name,
    hit: Option<Hit>,
) -> Result<Noted<Expr>, NoMemory>
    ensures { IfOk result (λ x. x ≡ spec.qualified_by a.now n.now hit) }
{
    match hit {
        Some(hit) => Ok(Noted {
            it: Expr::Column(hit.column),
            note: clean(),
        }),
        None => Ok(Noted {
            it: Expr::Dotted(a.copy(alloc)?, n.copy(alloc)?),
            note: breaks(Rule::Names, true),
        }),
    }
}

/// What an alias with a column's name stands for.
/// The manual: 4.2.1, Column References. That a label or the function's name qualifies no variable is our own choice.
#[tactic(auto, unfolding(crate::specs::Naming::qualified))]
pub fn qualified(alloc: Global, a: &Name, n: &Name, s: &Scope<'_>) -> Result<Noted<Expr>, NoMemory>
    ensures { IfOk result (λ x. x ≡ spec.qualified a.now n.now (scope s.now)) }
{
    let hit = column_qualified(a, n, s)?;
    let x = qualified_by(alloc, a, n, hit)?;
    Ok(Noted {
        it: x.it,
        note: joined(joined(written(s, a), written(s, n)), x.note),
    })
}

/// A name that isn't known is 42883, undefined_function.
#[tactic(auto, unfolding(crate::specs::Naming::called))]
pub fn call_note(s: &Scope<'_>, name: &Name) -> Note
    ensures { result ≡ spec.called (scope s.now) name.now }
{
    joined(
        written(s, name),
        breaks(Rule::Names, function(name).is_none()),
    )
}
