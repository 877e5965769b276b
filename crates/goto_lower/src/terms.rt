//! Terms: source expressions by their numbers, and entries of the fixed list.

ghost use Rattle.std.specs.Prelude.{◌≡◌, [], ◌∷◌, IfOk};
ghost use Rattle.block_forms.specs.Patterns as spec;

use crate::sums::sum;
use away_trees::{Expr, Select};
use away_values::{NoMemory, Ty};
use block_forms::{Fixed, Term};
use select_into::select_slots;
use sqlite_items::Items;
use std::alloc::Global;
use tree_events::slots_of;

pub(crate) fn source_term(alloc: Global, k: u32, e: &Expr) -> Result<Term, NoMemory>
    ensures { IfOk result (λ t. t ≡ spec.source_term k e.now) }
{
    Ok(Term {
        expr: k,
        names: slots_of(alloc, e)?,
    })
}

/// An entry of a SELECT INTO, which reads what its select reads.
pub(crate) fn select_term(alloc: Global, k: u32, query: &Select) -> Result<Term, NoMemory>
    ensures { IfOk result (λ t. t ≡ spec.select_term k query.now) }
{
    Ok(Term {
        expr: k,
        names: select_slots(alloc, query)?,
    })
}

fn of_none(alloc: Global, fixed: u32, entry: Fixed) -> Result<Term, NoMemory>
    ensures { IfOk result (λ t. t ≡ spec.entry_term fixed entry []) }
{
    Ok(Term {
        expr: sum(fixed, entry.position())?,
        names: Items::new(alloc),
    })
}

fn of_one(alloc: Global, fixed: u32, entry: Fixed, a: u32) -> Result<Term, NoMemory>
    ensures { IfOk result (λ t. t ≡ spec.entry_term fixed entry (a ∷ [])) }
{
    let mut names = Items::new(alloc);
    names.push(a)?;
    Ok(Term {
        expr: sum(fixed, entry.position())?,
        names,
    })
}

fn of_two(alloc: Global, fixed: u32, entry: Fixed, a: u32, b: u32) -> Result<Term, NoMemory>
    ensures { IfOk result (λ t. t ≡ spec.entry_term fixed entry (a ∷ b ∷ [])) }
{
    let mut names = Items::new(alloc);
    names.push(a)?;
    names.push(b)?;
    Ok(Term {
        expr: sum(fixed, entry.position())?,
        names,
    })
}

pub(crate) fn null_of(alloc: Global, fixed: u32, ty: Ty) -> Result<Term, NoMemory>
    ensures { IfOk result (λ t. t ≡ spec.null_of fixed ty) }
{
    of_none(alloc, fixed, Fixed::Null(ty))
}

pub(crate) fn is_null(alloc: Global, fixed: u32, ty: Ty, slot: u32) -> Result<Term, NoMemory>
    ensures { IfOk result (λ t. t ≡ spec.is_null fixed ty slot) }
{
    of_one(alloc, fixed, Fixed::IsNull(ty), slot)
}

pub(crate) fn not_positive(alloc: Global, fixed: u32, slot: u32) -> Result<Term, NoMemory>
    ensures { IfOk result (λ t. t ≡ spec.not_positive fixed slot) }
{
    of_one(alloc, fixed, Fixed::NotPositive, slot)
}

pub(crate) fn one(alloc: Global, fixed: u32) -> Result<Term, NoMemory>
    ensures { IfOk result (λ t. t ≡ spec.one fixed) }
{
    of_none(alloc, fixed, Fixed::One)
}

pub(crate) fn copy(alloc: Global, fixed: u32, slot: u32) -> Result<Term, NoMemory>
    ensures { IfOk result (λ t. t ≡ spec.copy fixed slot) }
{
    of_one(alloc, fixed, Fixed::Copy, slot)
}

pub(crate) fn in_range(
    alloc: Global,
    fixed: u32,
    reverse: bool,
    cur: u32,
    last: u32,
) -> Result<Term, NoMemory>
    ensures { IfOk result (λ t. t ≡ spec.in_range fixed reverse cur last) }
{
    of_two(alloc, fixed, Fixed::in_range(reverse), cur, last)
}

pub(crate) fn leaves_range(
    alloc: Global,
    fixed: u32,
    reverse: bool,
    step: u32,
    cur: u32,
) -> Result<Term, NoMemory>
    ensures { IfOk result (λ t. t ≡ spec.leaves_range fixed reverse step cur) }
{
    of_two(alloc, fixed, Fixed::past_end(reverse), step, cur)
}

pub(crate) fn moved(
    alloc: Global,
    fixed: u32,
    reverse: bool,
    cur: u32,
    step: u32,
) -> Result<Term, NoMemory>
    ensures { IfOk result (λ t. t ≡ spec.moved fixed reverse cur step) }
{
    of_two(alloc, fixed, Fixed::next(reverse), cur, step)
}
