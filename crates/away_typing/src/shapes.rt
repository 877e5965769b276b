//! The types of columns, for parts whose types are found.

ghost use Rattle.std.specs.Prelude.{◌≡◌, ◌≤◌, IfOk, slice_get, map, length, ◌∷◌, [], if◌then◌else◌, MatchOption};
ghost use Rattle.std.specs.List.{list_all};
ghost use Rattle.std.specs.Str.Parse.{digits_value};
ghost use Rattle.std.specs.Char as char;
ghost use Rattle.away_typing.specs.Kinds as kinds;
ghost use Rattle.away_typing.specs.Kinds.{is_right as right};
ghost use Rattle.away_typing.specs.Typing as spec;

use crate::kind::{Kind, fits, is_number, is_right, meet};
use away_values::{Name, NoMemory, Ty};
use sqlite_items::Items;
use std::alloc::{AllocError, Global};

// ---- FROM

/// A further select around a place, the innermost first.
pub fn nested<'a>(
    alloc: Global,
    frame: &'a Items<Items<Ty>>,
    outer: &[&'a Items<Items<Ty>>],
) -> Result<Vec<&'a Items<Items<Ty>>>, AllocError>
    ensures { IfOk result (λ all. map (λ l. l.now) all.items ≡ frame.now
        ∷ map (λ l. l.now) outer.now) }
{
    let mut all = Vec::new(alloc);
    all.push(frame)?;
    all.extend_from_slice(outer)?;
    Ok(all)
}

/// The manual: 7.2.1.5, LATERAL Subqueries.
pub fn before<'a>(
    lateral: bool,
    frame: &'a Items<Items<Ty>>,
    empty: &'a Items<Items<Ty>>,
) -> &'a Items<Items<Ty>>
    ensures { result.now ≡ (if lateral then frame.now else empty.now) }
{
    if lateral { frame } else { empty }
}

#[tactic(auto, unfolding(crate::specs::Typing::listed))]
pub fn listed(columns: &[Name], shape: Option<Items<Ty>>) -> Option<Items<Ty>>
    ensures { result ≡ spec.listed columns.now shape }
{
    if columns.is_empty() {
        return shape;
    }
    match shape {
        None => None,
        Some(types) => {
            if columns.len() == types.len() {
                Some(types)
            } else {
                None
            }
        }
    }
}

fn digit_value(b: u8) -> u128
    ensures { result ≡ char.digit_value b }
{
    if b < 48 {
        36
    } else if b < 58 {
        b as u128 - 48
    } else if b < 65 {
        36
    } else if b < 91 {
        b as u128 - 55
    } else if b < 97 {
        36
    } else if b < 123 {
        b as u128 - 87
    } else {
        36
    }
}

/// The place that the digits spell, where it is below the length.
#[tactic(auto, using(crate::proofs::TypingRules::digits_grow))]
fn place_below(digits: &[u8], length: usize) -> Option<usize>
    ensures { MatchOption result (length ≤ digits_value 10 digits.now)
        (λ i. i ≡ digits_value 10 digits.now) }
{
    let mut v: u128 = 0;
    let mut rest = digits;
    while let [b, more @ ..] = rest {
        if v >= length as u128 {
            return None;
        }
        v = v * 10 + digit_value(*b);
        rest = more;
    }
    if v >= length as u128 {
        None
    } else {
        Some(v as usize)
    }
}

fn copy_types(alloc: Global, types: &Items<Ty>) -> Result<Items<Ty>, NoMemory>
    ensures { IfOk result (λ ts. ts ≡ types.now) }
{
    Ok(Items::from_slice(alloc, types.as_slice())?)
}

fn shape_at(
    alloc: Global,
    tables: &[Items<Ty>],
    digits: &[u8],
) -> Result<Option<Items<Ty>>, NoMemory>
    ensures { IfOk result (λ s. s ≡ slice_get tables.now (digits_value 10 digits.now)) }
{
    match place_below(digits, tables.len()) {
        None => Ok(None),
        Some(i) => match sqlite_items::at(tables, i) {
            None => Ok(None),
            Some(types) => Ok(Some(copy_types(alloc, types)?)),
        },
    }
}

/// The types of a table's columns, by the digits of its place.
#[tactic(auto, unfolding(crate::specs::Typing::table_shape))]
pub fn table_shape(
    alloc: Global,
    tables: &[Items<Ty>],
    columns: &[Name],
) -> Result<Option<Items<Ty>>, NoMemory>
    ensures { IfOk result (λ s. s ≡ spec.table_shape tables.now columns.now) }
{
    match columns {
        [] => shape_at(alloc, tables, &[]),
        [digits, ..] => shape_at(alloc, tables, digits.text().as_bytes()),
    }
}

// ---- selects

#[tactic(auto, unfolding(crate::specs::Kinds::type_of))]
fn type_of(k: Kind) -> Ty
    ensures { result ≡ kinds.type_of k }
{
    match k {
        Kind::Of(t) => t,
        _ => Ty::Text,
    }
}

pub fn types_of(alloc: Global, list: &[Kind]) -> Result<Items<Ty>, NoMemory>
    ensures { IfOk result (λ ts. ts ≡ spec.types_of list.now) }
{
    let mut done = Items::new(alloc);
    for k in list {
        done.push(type_of(*k))?;
    }
    Ok(done)
}

fn all_right(list: &[Kind]) -> bool
    ensures { result ≡ list_all right list.now }
{
    for k in list {
        if !is_right(*k) {
            return false;
        }
    }
    true
}

#[tactic(auto, unfolding(crate::specs::Typing::maybe_fits))]
fn maybe_fits(ty: Ty, k: Option<Kind>) -> bool
    ensures { result ≡ spec.maybe_fits ty k }
{
    match k {
        None => true,
        Some(k) => fits(ty, k),
    }
}

#[tactic(auto, unfolding(crate::specs::Typing::maybe_number))]
fn maybe_number(k: Option<Kind>) -> bool
    ensures { result ≡ spec.maybe_number k }
{
    match k {
        None => true,
        Some(k) => is_number(k),
    }
}

/// The kinds of a select's columns, where its parts fit. The manual: 7.2.2, The WHERE Clause, which asks for a boolean.
#[tactic(auto, unfolding(crate::specs::Typing::select_kinds))]
pub fn select_kinds(
    list: Items<Kind>,
    filter: Option<Kind>,
    order: &Items<Kind>,
    limit: Option<Kind>,
) -> Option<Items<Kind>>
    ensures { result ≡ spec.select_kinds list filter order.now limit }
{
    if maybe_fits(Ty::Boolean, filter)
        && (all_right(list.as_slice()) && (all_right(order.as_slice()) && maybe_number(limit)))
    {
        Some(list)
    } else {
        None
    }
}

fn both_of(alloc: Global, a: &[Kind], b: &[Kind]) -> Result<Option<Items<Kind>>, NoMemory>
    ensures { IfOk result (λ ks. ks ≡ spec.both_from [] a.now b.now) }
{
    let mut done = Items::new(alloc);
    let mut xs = a;
    let mut ys = b;
    while let [x, more @ ..] = xs {
        let [y, rest @ ..] = ys else {
            return Ok(None);
        };
        let k = meet(*x, *y);
        if !is_right(k) {
            return Ok(None);
        }
        done.push(k)?;
        xs = more;
        ys = rest;
    }
    if ys.is_empty() {
        Ok(Some(done))
    } else {
        Ok(None)
    }
}

/// The kinds of two selects, place by place.
#[tactic(auto, unfolding(crate::specs::Typing::both))]
fn both(
    alloc: Global,
    a: &Option<Items<Kind>>,
    b: &Option<Items<Kind>>,
) -> Result<Option<Items<Kind>>, NoMemory>
    ensures { IfOk result (λ ks. ks ≡ spec.both a.now b.now) }
{
    let Some(xs) = a else {
        return Ok(None);
    };
    let Some(ys) = b else {
        return Ok(None);
    };
    both_of(alloc, xs.as_slice(), ys.as_slice())
}

/// The kinds of one more select.
#[tactic(auto, unfolding(crate::specs::Typing::further))]
pub fn further(
    alloc: Global,
    kinds: Option<Option<Items<Kind>>>,
    own: Option<Items<Kind>>,
) -> Result<Option<Option<Items<Kind>>>, NoMemory>
    ensures { IfOk result (λ ks. ks ≡ spec.further kinds own) }
{
    match kinds {
        None => Ok(Some(own)),
        Some(ks) => Ok(Some(both(alloc, &ks, &own)?)),
    }
}

#[tactic(auto, unfolding(crate::specs::Typing::or_none))]
pub fn or_none(kinds: Option<Option<Items<Kind>>>) -> Option<Items<Kind>>
    ensures { result ≡ spec.or_none kinds }
{
    match kinds {
        None => None,
        Some(ks) => ks,
    }
}

/// The types of a union's columns, where a literal NULL alone is text. The manual: 10.5, UNION, CASE, and Related Constructs.
pub fn shape_of(alloc: Global, kinds: Option<Items<Kind>>) -> Result<Option<Items<Ty>>, NoMemory>
    ensures { IfOk result (λ s. s ≡ spec.shape_of kinds) }
{
    match kinds {
        None => Ok(None),
        Some(list) => Ok(Some(types_of(alloc, list.as_slice())?)),
    }
}
