//! Parts of statements without statements in them: whether those of one body have become those of another.

ghost use Rattle.std.specs.Prelude.{◌≡◌, IfOk, IfSome, IsTrue, Some, false};
ghost use Rattle.away_types.specs.TypedSlots.{typed_slots};
ghost use Rattle.call_meaning.specs.Becomes.{SameNull, slot_becomes, targets_become};
ghost use Rattle.call_meaning.specs.Marks.{marks};
ghost use Rattle.call_meaning.specs.Renamed.{ExprRenamed, SelectRenamed};
ghost use Rattle.call_meaning.specs.TypedSlots.{no_null as no_null_in, types_in};
ghost use Rattle.moved_slots.specs.Moved.{slots_by};
ghost use Rattle.plsql_meaning.specs.Conversions.{type_at};
ghost use Rattle.plsql_meaning.specs.Statements.{body_at};
ghost use Rattle.call_answers.specs.Walking as spec;

use crate::walking::{Spot, Walk};
use away_trees::{Decl, Expr, Item, LoopKind, Select};
use away_types::Slot;
use away_values::{Name, NoMemory, Ty};
use moved_slots::{expr_moved, select_moved, slot_at};
use sqlite_items::Items;
use std::alloc::Global;

pub(crate) fn same_expr(pairs: &[(u32, u32)], e: &Expr, x: &Expr) -> bool
    ensures { IsTrue result → ExprRenamed (slots_by pairs.now) e.now x.now }
{
    expr_moved(pairs, 0, e, x)
}

pub(crate) fn same_maybe(pairs: &[(u32, u32)], e: &Option<Expr>, x: &Option<Expr>) -> bool
    ensures { IsTrue result → spec.MaybeRenamed (slots_by pairs.now) e.now x.now }
{
    match e {
        None => x.is_none(),
        Some(a) => match x {
            None => false,
            Some(b) => same_expr(pairs, a, b),
        },
    }
}

fn same_marks(list: &[Item], others: &[Item]) -> bool
    ensures { IsTrue result → marks list.now ≡ marks others.now }
{
    if list.len() != others.len() {
        return false;
    }
    for i in 0..list.len() {
        if list[i].alias.is_some() != others[i].alias.is_some() {
            return false;
        }
    }
    true
}

pub(crate) fn same_select(pairs: &[(u32, u32)], s: &Select, y: &Select) -> bool
    ensures { IsTrue result → SelectRenamed (slots_by pairs.now) s.now y.now }
{
    if !same_marks(s.list.as_slice(), y.list.as_slice()) {
        return false;
    }
    select_moved(pairs, 0, s, y)
}

fn no_null(slots: &[Slot], i: u32) -> bool
    ensures { result ≡ no_null_in (typed_slots slots.now) i }
{
    match slots.get(i as usize) {
        None => false,
        Some(s) => s.not_null,
    }
}

fn type_of(slots: &[Slot], i: u32) -> Option<Ty>
    ensures { result ≡ type_at (types_in (typed_slots slots.now)) (Some i) }
{
    match slots.get(i as usize) {
        None => None,
        Some(s) => Some(s.ty),
    }
}

/// A slot may be NULL.
pub(crate) fn is_nullable(slots: &[Slot], i: u32) -> bool
    ensures { IsTrue result → no_null_in (typed_slots slots.now) i ≡ false }
{
    !no_null(slots, i)
}

/// Both slots are NOT NULL or neither is.
fn same_null(w: &Walk<'_>, i: u32, j: u32) -> bool
    ensures { IsTrue result → SameNull (spec.rules_of w.now) i j }
{
    no_null(w.own, i) == no_null(w.slots, j)
}

/// A slot in sight, and what it may hold.
pub(crate) fn same_slot(w: &Walk<'_>, pairs: &[(u32, u32)], i: u32, j: u32) -> bool
    ensures { IsTrue result
        → slot_becomes (spec.rules_of w.now) (slots_by pairs.now) (Some i) (Some j) }
{
    match slot_at(pairs, i) {
        None => false,
        Some(k) => k == j && same_null(w, i, j),
    }
}

fn same_target(
    w: &Walk<'_>,
    pairs: &[(u32, u32)],
    t: &(Name, Option<u32>),
    x: &(Name, Option<u32>),
) -> bool
    ensures { IsTrue result
        → spec.TargetBecomes (spec.rules_of w.now) (slots_by pairs.now) t.now x.now }
{
    match t.1 {
        None => false,
        Some(i) => match x.1 {
            None => false,
            Some(j) => same_slot(w, pairs, i, j) && type_of(w.own, i) == type_of(w.slots, j),
        },
    }
}

/// The targets of a SELECT INTO, whose values may be converted to their types.
pub(crate) fn same_targets(
    w: &Walk<'_>,
    pairs: &[(u32, u32)],
    list: &[(Name, Option<u32>)],
    others: &[(Name, Option<u32>)],
) -> bool
    ensures { IsTrue result
        → targets_become (spec.rules_of w.now) (slots_by pairs.now) list.now others.now }
{
    if list.len() != others.len() {
        return false;
    }
    for i in 0..list.len() {
        if !same_target(w, pairs, &list[i], &others[i]) {
            return false;
        }
    }
    true
}

/// The head of a loop.
pub(crate) fn same_kind(pairs: &[(u32, u32)], k: &LoopKind, x: &LoopKind) -> bool
    ensures { IsTrue result → spec.KindRenamed (slots_by pairs.now) k.now x.now }
{
    match k {
        LoopKind::Plain => match x {
            LoopKind::Plain => true,
            LoopKind::While(_) | LoopKind::Count { .. } => false,
        },
        LoopKind::While(e) => match x {
            LoopKind::While(y) => same_expr(pairs, e, y),
            LoopKind::Plain | LoopKind::Count { .. } => false,
        },
        LoopKind::Count {
            var: _,
            reverse,
            first,
            last,
            step,
        } => match x {
            LoopKind::Count {
                var: _,
                reverse: other,
                first: a,
                last: b,
                step: by,
            } => {
                if *reverse != *other {
                    return false;
                }
                if !same_expr(pairs, first, a) {
                    return false;
                }
                if !same_expr(pairs, last, b) {
                    return false;
                }
                same_maybe(pairs, step, by)
            }
            LoopKind::Plain | LoopKind::While(_) => false,
        },
    }
}

/// Behind a slot more.
pub(crate) fn next(p: Spot) -> Option<Spot>
    ensures { IfSome result (λ q. q ≡ spec.next p) }
{
    let at = p.at.checked_add(1)?;
    let new = p.new.checked_add(1)?;
    Some(Spot { at, new })
}

pub(crate) fn copy_pairs(alloc: Global, list: &[(u32, u32)]) -> Result<Items<(u32, u32)>, NoMemory>
    ensures { IfOk result (λ all. all ≡ list.now) }
{
    let mut all = Items::new(alloc);
    for p in list {
        all.push(*p)?;
    }
    Ok(all)
}

/// What is in sight behind some declarations, and the slots behind theirs.
#[derive(Drop)]
pub(crate) struct Declared {
    pub slots: Items<(u32, u32)>,
    pub spot: Spot,
}

/// The declarations of a block, from a spot on.
pub(crate) fn same_decls(
    alloc: Global,
    w: &Walk<'_>,
    pairs: &[(u32, u32)],
    p: Spot,
    decls: &[Decl],
    others: &[Decl],
) -> Result<Option<Declared>, NoMemory>
    ensures { IfOk result (λ r. IfSome r (λ d. spec.DeclsBecome (spec.rules_of w.now)
        (slots_by pairs.now) p decls.now others.now (slots_by d.slots) d.spot)) }
{
    if decls.len() != others.len() {
        return Ok(None);
    }
    let mut slots = copy_pairs(alloc, pairs)?;
    let mut spot = p;
    for i in 0..decls.len() {
        let same = same_maybe(slots.as_slice(), &decls[i].default, &others[i].default);
        if !same || !same_null(w, spot.at, spot.new) {
            return Ok(None);
        }
        let Some(behind) = next(spot) else {
            return Ok(None);
        };
        slots.push((spot.at, spot.new))?;
        spot = behind;
    }
    Ok(Some(Declared { slots, spot }))
}

/// What is in sight in a loop, and the slots behind its variable.
pub(crate) fn in_head(
    alloc: Global,
    pairs: &[(u32, u32)],
    p: Spot,
    k: &LoopKind,
) -> Result<Option<Declared>, NoMemory>
    ensures slots { IfOk result (λ r. IfSome r (λ d. slots_by d.slots
        ≡ spec.head_slots k.now p (slots_by pairs.now))) }
    ensures at { IfOk result (λ r. IfSome r (λ d. d.spot.at ≡ body_at k.now p.at)) }
    ensures new { IfOk result (λ r. IfSome r (λ d. d.spot.new ≡ body_at k.now p.new)) }
{
    let mut slots = copy_pairs(alloc, pairs)?;
    match k {
        LoopKind::Plain | LoopKind::While(_) => Ok(Some(Declared { slots, spot: p })),
        LoopKind::Count { .. } => {
            let Some(spot) = next(p) else {
                return Ok(None);
            };
            slots.push((p.at, p.new))?;
            Ok(Some(Declared { slots, spot }))
        }
    }
}
