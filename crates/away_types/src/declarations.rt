//! The declarations of a block.

ghost use Rattle.std.specs.Prelude.{◌≡◌, IfOk, map};
ghost use Rattle.away_trees.specs.declared.statements.Decl.{Decl};
ghost use Rattle.away_names.specs.Lookups as lookups;
ghost use Rattle.away_names.specs.Places.{scope};
ghost use Rattle.away_types.specs.StatementRules as rules;
ghost use Rattle.away_types.specs.Statements as spec;

use crate::resolved::Declared;
use crate::slots::Slots;
use crate::variables::{copy_variables, with_slot, with_variable};
use away_names::naming::named_maybe;
use away_names::note::{Noted, breaks, clean, joined};
use away_names::references::written;
use away_names::rule::Rule;
use away_names::scope::Scope;
use away_trees::Decl;
use away_values::{Name, NoMemory};
use sqlite_items::Items;
use std::alloc::Global;

/// NOT NULL without a default.
#[tactic(auto, unfolding(crate::specs::StatementRules::lacks_default))]
fn lacks_default(d: &Decl) -> bool
    ensures { result ≡ rules.lacks_default d.now }
{
    d.not_null && d.default.is_none()
}

fn declared(alloc: Global, d: &Decl, s: &Scope<'_>) -> Result<Noted<Decl>, NoMemory>
    ensures { IfOk result (λ x. x ≡ spec.declared d.now (scope s.now)) }
{
    let default = named_maybe(alloc, &d.default, s)?;
    let name = d.name.copy(alloc)?;
    Ok(Noted {
        it: Decl {
            name,
            ty: d.ty,
            constant: d.constant,
            not_null: d.not_null,
            default: default.it,
        },
        note: joined(
            written(s, &d.name),
            joined(breaks(Rule::Defaults, lacks_default(d)), default.note),
        ),
    })
}

/// Declarations, each of which sees those before it. The manual: 43.3, Declarations.
pub fn declared_all(
    alloc: Global,
    decls: &[Decl],
    s: &Scope<'_>,
    slots: Slots,
) -> Result<Declared, NoMemory>
    ensures { IfOk result (λ x. x ≡ spec.declared_all decls.now (scope s.now) slots) }
{
    let mut done = Items::new(alloc);
    let mut variables = copy_variables(alloc, s.variables)?;
    let mut note = clean();
    let mut so_far = slots;
    for d in decls {
        let here = Scope {
            tables: s.tables,
            levels: s.levels,
            variables: variables.as_slice(),
            in_function: s.in_function,
        };
        let x = declared(alloc, d, &here)?;
        done.push(x.it)?;
        variables = with_variable(alloc, &d.name, d.constant, &so_far, variables)?;
        note = joined(note, x.note);
        so_far = with_slot(d.ty, d.not_null, so_far)?;
    }
    Ok(Declared {
        it: done,
        variables,
        note,
        slots: so_far,
    })
}

fn declared_among(n: &Name, decls: &[Decl]) -> bool
    ensures { result ≡ lookups.is_among n.now (map (λ (d : Decl). d.name) decls.now) }
{
    for d in decls {
        if d.name.text() == n.text() {
            return true;
        }
    }
    false
}

/// Whether two declarations have one name.
#[tactic(auto, unfolding(away_names::specs::Lookups::has_double))]
pub fn declares_twice(decls: &[Decl]) -> bool
    ensures { result ≡ rules.declares_twice decls.now }
{
    let mut rest = decls;
    while let [d, more @ ..] = rest {
        if declared_among(&d.name, more) {
            return true;
        }
        rest = more;
    }
    false
}
