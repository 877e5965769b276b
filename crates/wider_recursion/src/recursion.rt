//! The recursive table of a query, and what databases ask of its terms.

ghost use Rattle.std.specs.Prelude.{◌≡◌, IfOk};
ghost use Rattle.away_typing.specs.Wholes as wholes;
ghost use Rattle.wider_recursion.specs.Wider as spec;

use crate::rows::takes_rows;
use away_names::note::{Times, breaks, clean, joined};
use away_names::rule::Rule;
use away_trees::{Recursive, Schema, Select};
use away_typing::kind::{Kind, fits};
use away_typing::recursion::{column_types, over_tables, padded, recursive_types, with_table};
use away_typing::shapes::shape_of;
use away_typing::types::{select_shape, union};
use away_typing::uses::{is_some_of, select_used};
use away_typing::wholes::Recursion;
use away_values::{NoMemory, Ty};
use sqlite_items::Items;
use std::alloc::Global;

fn first_shape(alloc: Global, s: &Schema, r: &Recursive) -> Result<Option<Items<Ty>>, NoMemory>
    ensures { IfOk result (λ x. x ≡ wholes.first_shape s.now r.now) }
{
    let types = padded(alloc, r.columns.as_slice(), &[])?;
    let tables = with_table(alloc, s, types)?;
    let kinds = union(alloc, r.first.as_slice(), &over_tables(&tables))?;
    shape_of(alloc, kinds)
}

#[tactic(auto, unfolding(away_typing::specs::Wholes::types_or_none))]
fn types_or_none(shape: &Option<Items<Ty>>) -> &[Ty]
    ensures { result.now ≡ wholes.types_or_none shape.now }
{
    match shape {
        None => &[],
        Some(types) => types.as_slice(),
    }
}

#[tactic(auto, unfolding(away_typing::specs::Wholes::is_never))]
fn is_never(times: Times) -> bool
    ensures { result ≡ wholes.is_never times }
{
    matches!(times, Times::Never)
}

#[tactic(auto, unfolding(away_typing::specs::Wholes::is_once))]
fn is_once(times: Times) -> bool
    ensures { result ≡ wholes.is_once times }
{
    matches!(times, Times::Once)
}

fn is_plain(select: &Select) -> Result<bool, NoMemory>
    ensures { IfOk result (λ b. b ≡ wholes.is_plain select.now) }
{
    let uses = select_used(select)?;
    Ok(!uses.aggregate && (!is_some_of(select.order.as_slice()) && !select.limit.is_some()))
}

fn all_fit(types: &[Ty], kinds: &[Kind]) -> bool
    ensures { result ≡ wholes.all_fit types.now kinds.now }
{
    let mut ts = types;
    let mut ks = kinds;
    while let [t, more @ ..] = ts {
        let [k, others @ ..] = ks else {
            return false;
        };
        if !fits(*t, *k) {
            return false;
        }
        ts = more;
        ks = others;
    }
    ks.is_empty()
}

#[tactic(auto, unfolding(away_typing::specs::Wholes::fits_shape))]
fn fits_shape(types: &[Ty], kinds: &Option<Items<Kind>>) -> bool
    ensures { result ≡ wholes.fits_shape types.now kinds.now }
{
    match kinds {
        None => false,
        Some(list) => all_fit(types, list.as_slice()),
    }
}

fn is_wider_recursion(
    first: Times,
    second: Times,
    r: &Recursive,
    shape: &Option<Items<Ty>>,
    kinds: &Option<Items<Kind>>,
) -> Result<bool, NoMemory>
    ensures { IfOk result
        (λ b. b ≡ spec.is_wider_recursion first second r.now shape.now kinds.now) }
{
    let plain = is_plain(&r.second)?;
    let taken = takes_rows(&r.name, &r.second);
    let types = types_or_none(shape);
    Ok(
        is_never(first)
            && (is_once(second)
                && (taken
                    && (plain && (r.columns.len() == types.len() && fits_shape(types, kinds))))),
    )
}

fn wider_by(
    alloc: Global,
    s: &Schema,
    first: Times,
    second: Times,
    r: &Recursive,
    shape: &Option<Items<Ty>>,
) -> Result<Recursion, NoMemory>
    ensures { IfOk result (λ x. x ≡ spec.wider_by s.now first second r.now shape.now) }
{
    let types = recursive_types(alloc, first, r.columns.as_slice(), shape)?;
    let tables = with_table(alloc, s, types)?;
    let kinds = select_shape(alloc, &r.second, &over_tables(&tables))?;
    let right = is_wider_recursion(first, second, r, shape, &kinds)?;
    let note = joined(
        breaks(Rule::Types, !(shape.is_some() && kinds.is_some())),
        breaks(Rule::Recursion, !right),
    );
    Ok(Recursion { tables, note })
}

/// The tables for what stands behind WITH, and what was found in its terms.
/// The manual: 7.8.2, Recursive Queries. 42P19 is invalid_recursion.
pub(crate) fn wider_recursion(
    alloc: Global,
    s: &Schema,
    first: Times,
    second: Times,
    r: &Option<Recursive>,
) -> Result<Recursion, NoMemory>
    ensures { IfOk result (λ x. x ≡ spec.wider_recursion s.now first second r.now) }
{
    match r {
        None => Ok(Recursion {
            tables: column_types(alloc, s)?,
            note: clean(),
        }),
        Some(r) => {
            let shape = first_shape(alloc, s, r)?;
            wider_by(alloc, s, first, second, r, &shape)
        }
    }
}
