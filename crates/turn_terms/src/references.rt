//! What names stand for: expressions whose slots are the columns of the row.

ghost use Rattle.std.specs.Prelude.{◌≡◌, map, IfOk};
ghost use Rattle.away_trees.specs.declared.queries.Expr.TheVariants as expr;
ghost use Rattle.call_forms.specs.Scopes.{paired};
ghost use Rattle.turn_template.specs.TurnTemplate as template;
ghost use Rattle.turn_terms.specs.References as spec;
ghost use Rattle.turn_terms.specs.References.{on_row, scope_of};
ghost use Rattle.turn_terms.specs.Writing.{place_in};

use crate::writer::Writer;
use away_core::Copied;
use away_trees::Expr;
use away_values::{NoMemory, Ty};
use cte_parts::{small, sum};
use sqlite_items::Items;
use std::alloc::Global;

/// A name, and what it stands for: slot j of the expression is column j of the row.
#[derive(Drop)]
pub struct Reference {
    pub name: u32,
    pub value: Expr,
}

/// What a name stands for; the last pair with it counts. What is not there is NULL.
pub(crate) fn looked_up(alloc: Global, refs: &[Reference], name: u32) -> Result<Expr, NoMemory>
    ensures { IfOk result (λ x. x ≡ spec.value_in refs.now name) }
{
    let mut left = refs.len();
    while left > 0 {
        left -= 1;
        if refs[left].name == name {
            return refs[left].value.copy(alloc);
        }
    }
    Ok(Expr::Null)
}

fn copied(alloc: Global, refs: &[Reference]) -> Result<Items<Reference>, NoMemory>
    ensures { IfOk result (λ list. list ≡ refs.now) }
{
    let mut list = Items::new(alloc);
    for i in 0..refs.len() {
        let value = refs[i].value.copy(alloc)?;
        list.push(Reference {
            name: refs[i].name,
            value,
        })?;
    }
    Ok(list)
}

/// The name stands for the expression from now on.
#[tactic(auto, using(crate::proofs::ReferenceRules::one_named))]
pub fn with_name(
    alloc: Global,
    refs: &[Reference],
    name: u32,
    value: Expr,
) -> Result<Items<Reference>, NoMemory>
    ensures { IfOk result (λ list. scope_of list
        ≡ template.names name (on_row value) (scope_of refs.now)) }
{
    let mut list = copied(alloc, refs)?;
    list.push(Reference { name, value })?;
    Ok(list)
}

/// Each key with its value. The first of equal keys counts.
fn keys_at(alloc: Global, keys: &[u32], values: &[Expr]) -> Result<Items<Reference>, NoMemory>
    ensures { IfOk result (λ list. spec.value_in list ≡ spec.at_keys keys.now values.now) }
{
    let mut list = Items::new(alloc);
    let mut left = keys.len();
    while left > 0 {
        left -= 1;
        if left < values.len() {
            let value = values[left].copy(alloc)?;
            list.push(Reference {
                name: keys[left],
                value,
            })?;
        }
    }
    Ok(list)
}

/// What each name of a list stands for.
fn values_of(alloc: Global, refs: &[Reference], names: &[u32]) -> Result<Items<Expr>, NoMemory>
    ensures { IfOk result (λ list. list ≡ map (spec.value_in refs.now) names.now) }
{
    let mut list = Items::new(alloc);
    for i in 0..names.len() {
        list.push(looked_up(alloc, refs, names[i])?)?;
    }
    Ok(list)
}

/// Each parameter stands for what the name stands for that is passed. The first of equal parameters counts.
pub fn entered(
    alloc: Global,
    refs: &[Reference],
    params: &[u32],
    args: &[u32],
) -> Result<Items<Reference>, NoMemory>
    ensures { IfOk result (λ list. scope_of list
        ≡ paired (scope_of refs.now) template.no_ref params.now args.now) }
{
    let values = values_of(alloc, refs, args)?;
    keys_at(alloc, params, values.as_slice())
}

/// A column of the row.
#[tactic(auto, using(crate::proofs::ReferenceRules::slot_is))]
pub fn column_reference(j: usize) -> Result<Expr, NoMemory>
    ensures { IfOk result (λ x. on_row x ≡ template.of_column j) }
{
    Ok(Expr::Slot(small(j)?))
}

/// The column at a place, behind `go` and `fn`; what is no place is NULL.
#[tactic(auto, using(crate::proofs::ReferenceRules::place_rules))]
fn place_reference(columns: &[Ty], place: u32) -> Result<Expr, NoMemory>
    ensures { IfOk result (λ x. x ≡ spec.at_place columns.now place) }
{
    if (place as usize) < columns.len() {
        Ok(Expr::Slot(small(sum(place as usize, 2)?)?))
    } else {
        Ok(Expr::Null)
    }
}

/// The columns at places.
fn places_at(alloc: Global, columns: &[Ty], places: &[u32]) -> Result<Items<Expr>, NoMemory>
    ensures { IfOk result (λ list. list ≡ map (spec.at_place columns.now) places.now) }
{
    let mut list = Items::new(alloc);
    for i in 0..places.len() {
        list.push(place_reference(columns, places[i])?)?;
    }
    Ok(list)
}

/// The parameters of a label's block at the columns of the row.
pub fn on_columns(
    alloc: Global,
    w: &Writer<'_>,
    params: &[u32],
    places: &[u32],
) -> Result<Items<Reference>, NoMemory>
    ensures { IfOk result (λ list. scope_of list
        ≡ paired (place_in w.now) template.no_ref params.now places.now) }
{
    let values = places_at(alloc, w.columns, places)?;
    keys_at(alloc, params, values.as_slice())
}
