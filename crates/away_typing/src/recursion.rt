//! The recursive table of a query, and what it asks of its terms.

ghost use Rattle.std.specs.Prelude.{◌≡◌, IfOk};
ghost use Rattle.std.specs.List.{list_any};
ghost use Rattle.away_trees.specs.declared.queries.FromItem.{out-FromItem};
ghost use Rattle.away_typing.specs.TypingLists.{places};
ghost use Rattle.away_typing.specs.Wholes as spec;

use crate::kind::{Kind, fits};
use crate::shapes::shape_of;
use crate::types::{Places, select_shape, union};
use crate::uses::{is_some_of, select_used};
use crate::wholes::Recursion;
use away_names::note::{Times, breaks, clean, joined};
use away_names::rule::Rule;
use away_trees::{FromItem, Recursive, Schema, Select, Source, TableSchema};
use away_values::{Name, NoMemory, Ty};
use sqlite_items::Items;
use std::alloc::Global;

fn types_in(alloc: Global, t: &TableSchema) -> Result<Items<Ty>, NoMemory>
    ensures { IfOk result (λ ts. ts ≡ spec.types_in t.now) }
{
    let mut types = Items::new(alloc);
    for i in 0..t.columns.len() {
        types.push(t.columns.as_slice()[i].ty)?;
    }
    Ok(types)
}

pub fn column_types(alloc: Global, s: &Schema) -> Result<Items<Items<Ty>>, NoMemory>
    ensures { IfOk result (λ all. all ≡ spec.column_types s.now) }
{
    let list = s.tables.as_slice();
    let mut all = Items::new(alloc);
    for t in list {
        all.push(types_in(alloc, t)?)?;
    }
    Ok(all)
}

pub fn with_table(alloc: Global, s: &Schema, types: Items<Ty>) -> Result<Items<Items<Ty>>, NoMemory>
    ensures { IfOk result (λ all. all ≡ spec.with_table s.now types) }
{
    let mut all = column_types(alloc, s)?;
    all.push(types)?;
    Ok(all)
}

pub fn padded(alloc: Global, columns: &[Name], types: &[Ty]) -> Result<Items<Ty>, NoMemory>
    ensures { IfOk result (λ ts. ts ≡ spec.padded columns.now types.now) }
{
    let mut all = Items::new(alloc);
    let mut rest = types;
    for _column in columns {
        match rest {
            [] => all.push(Ty::Bigint)?,
            [t, more @ ..] => {
                all.push(*t)?;
                rest = more;
            }
        }
    }
    Ok(all)
}

/// Where nothing but tables is in sight.
pub fn over_tables(tables: &Items<Items<Ty>>) -> Places<'_>
    ensures { places result ≡ spec.over_tables tables.now }
{
    Places {
        slots: &[],
        frames: &[],
        tables: tables.as_slice(),
    }
}

fn first_shape(alloc: Global, s: &Schema, r: &Recursive) -> Result<Option<Items<Ty>>, NoMemory>
    ensures { IfOk result (λ x. x ≡ spec.first_shape s.now r.now) }
{
    let types = padded(alloc, r.columns.as_slice(), &[])?;
    let tables = with_table(alloc, s, types)?;
    let kinds = union(alloc, r.first.as_slice(), &over_tables(&tables))?;
    shape_of(alloc, kinds)
}

#[tactic(auto, unfolding(crate::specs::Wholes::types_or_none))]
fn types_or_none(shape: &Option<Items<Ty>>) -> &[Ty]
    ensures { result.now ≡ spec.types_or_none shape.now }
{
    match shape {
        None => &[],
        Some(types) => types.as_slice(),
    }
}

#[tactic(auto, unfolding(crate::specs::Wholes::is_never))]
fn is_never(times: Times) -> bool
    ensures { result ≡ spec.is_never times }
{
    matches!(times, Times::Never)
}

#[tactic(auto, unfolding(crate::specs::Wholes::is_once))]
fn is_once(times: Times) -> bool
    ensures { result ≡ spec.is_once times }
{
    matches!(times, Times::Once)
}

#[tactic(auto, unfolding(crate::specs::Wholes::recursive_types))]
pub fn recursive_types(
    alloc: Global,
    first: Times,
    columns: &[Name],
    shape: &Option<Items<Ty>>,
) -> Result<Items<Ty>, NoMemory>
    ensures { IfOk result (λ ts. ts ≡ spec.recursive_types first columns.now shape.now) }
{
    if is_never(first) {
        padded(alloc, columns, types_or_none(shape))
    } else {
        padded(alloc, columns, &[])
    }
}

// ---- what the second term may be

#[tactic(auto, unfolding(crate::specs::Wholes::is_table))]
fn is_table(name: &Name, source: &Source) -> bool
    ensures { result ≡ spec.is_table name.now source.now }
{
    match source {
        Source::Table(n) => n.text() == name.text(),
        Source::Sub(_, _) => false,
    }
}

fn in_own_from(name: &Name, from: &[FromItem]) -> bool
    ensures { result ≡ list_any (λ f. spec.is_table name.now (out-FromItem f).source) from.now }
{
    for f in from {
        if is_table(name, &f.source) {
            return true;
        }
    }
    false
}

fn is_plain(select: &Select) -> Result<bool, NoMemory>
    ensures { IfOk result (λ b. b ≡ spec.is_plain select.now) }
{
    let uses = select_used(select)?;
    Ok(!uses.aggregate && (!is_some_of(select.order.as_slice()) && !select.limit.is_some()))
}

fn all_fit(types: &[Ty], kinds: &[Kind]) -> bool
    ensures { result ≡ spec.all_fit types.now kinds.now }
{
    let mut ts = types;
    let mut ks = kinds;
    while let [t, more @ ..] = ts {
        let [k, others @ ..] = ks else {
            return false;
        };
        if !fits(*t, *k) {
            return false;
        }
        ts = more;
        ks = others;
    }
    ks.is_empty()
}

#[tactic(auto, unfolding(crate::specs::Wholes::fits_shape))]
fn fits_shape(types: &[Ty], kinds: &Option<Items<Kind>>) -> bool
    ensures { result ≡ spec.fits_shape types.now kinds.now }
{
    match kinds {
        None => false,
        Some(list) => all_fit(types, list.as_slice()),
    }
}

fn is_recursion(
    first: Times,
    second: Times,
    r: &Recursive,
    shape: &Option<Items<Ty>>,
    kinds: &Option<Items<Kind>>,
) -> Result<bool, NoMemory>
    ensures { IfOk result (λ b. b ≡ spec.is_recursion first second r.now shape.now kinds.now) }
{
    let plain = is_plain(&r.second)?;
    let types = types_or_none(shape);
    Ok(
        is_never(first)
            && (is_once(second)
                && (in_own_from(&r.name, r.second.from.as_slice())
                    && (plain && (r.columns.len() == types.len() && fits_shape(types, kinds))))),
    )
}

fn recursion_by(
    alloc: Global,
    s: &Schema,
    first: Times,
    second: Times,
    r: &Recursive,
    shape: &Option<Items<Ty>>,
) -> Result<Recursion, NoMemory>
    ensures { IfOk result (λ x. x ≡ spec.recursion_by s.now first second r.now shape.now) }
{
    let types = recursive_types(alloc, first, r.columns.as_slice(), shape)?;
    let tables = with_table(alloc, s, types)?;
    let kinds = select_shape(alloc, &r.second, &over_tables(&tables))?;
    let right = is_recursion(first, second, r, shape, &kinds)?;
    let note = joined(
        breaks(Rule::Types, !(shape.is_some() && kinds.is_some())),
        breaks(Rule::Recursion, !right),
    );
    Ok(Recursion { tables, note })
}

/// The tables for what stands behind WITH, and what was found in its terms.
/// The manual: 7.8.2, Recursive Queries. 42P19 is invalid_recursion.
pub fn recursion_found(
    alloc: Global,
    s: &Schema,
    first: Times,
    second: Times,
    r: &Option<Recursive>,
) -> Result<Recursion, NoMemory>
    ensures { IfOk result (λ x. x ≡ spec.recursion s.now first second r.now) }
{
    match r {
        None => Ok(Recursion {
            tables: column_types(alloc, s)?,
            note: clean(),
        }),
        Some(r) => {
            let shape = first_shape(alloc, s, r)?;
            recursion_by(alloc, s, first, second, r, &shape)
        }
    }
}
