//! What comes into sight in blocks and loops.

ghost use Rattle.std.specs.Prelude.{◌≡◌, IfOk, IsTrue, None, Some, bytes_eq, false, option_map};
ghost use Rattle.away_names.specs.Lookups.{Name as Word};
ghost use Rattle.call_meaning.specs.Alike as alike;
ghost use Rattle.call_answers.specs.Walking as spec;

use crate::walking::{Calls, InSight, Left, Walk};
use away_values::{Name, NoMemory};
use sqlite_items::Items;
use std::alloc::Global;

fn copy_names(alloc: Global, list: &[(Name, Name)]) -> Result<Items<(Name, Name)>, NoMemory>
    ensures { IfOk result (λ all. all ≡ list.now) }
{
    let mut all = Items::new(alloc);
    for i in 0..list.len() {
        all.push((list[i].0.copy(alloc)?, list[i].1.copy(alloc)?))?;
    }
    Ok(all)
}

fn with_label(
    alloc: Global,
    own: &Name,
    new: &Name,
    list: &[(Name, Name)],
) -> Result<Items<(Name, Name)>, NoMemory>
    ensures { IfOk result (λ all. spec.labels_by all
        ≡ alike.entered (Some own.now) (Some new.now) (spec.labels_by list.now)) }
{
    let mut all = copy_names(alloc, list)?;
    all.push((own.copy(alloc)?, new.copy(alloc)?))?;
    Ok(all)
}

/// Labels, with that of a block or a loop where both bodies have one.
#[tactic(auto, using(crate::proofs::Pairs::entered_none, crate::proofs::Pairs::entered_one))]
fn entered(
    alloc: Global,
    own: &Option<Name>,
    new: &Option<Name>,
    list: &[(Name, Name)],
) -> Result<Items<(Name, Name)>, NoMemory>
    ensures { IfOk result (λ all. spec.labels_by all
        ≡ alike.entered own.now new.now (spec.labels_by list.now)) }
{
    match own {
        None => copy_names(alloc, list),
        Some(o) => match new {
            None => copy_names(alloc, list),
            Some(n) => with_label(alloc, o, n, list),
        },
    }
}

/// What the statements of a block see.
pub(crate) fn in_block(
    alloc: Global,
    own: &Option<Name>,
    new: &Option<Name>,
    c: &InSight,
    slots: Items<(u32, u32)>,
) -> Result<InSight, NoMemory>
    ensures slots { IfOk result (λ x. x.slots ≡ slots) }
    ensures labels { IfOk result (λ x. spec.labels x
        ≡ alike.in_block own.now new.now (spec.labels c.now)) }
{
    Ok(InSight {
        slots,
        exits: entered(alloc, own, new, c.exits.as_slice())?,
        continues: copy_names(alloc, c.continues.as_slice())?,
        looped: c.looped,
    })
}

/// What the statements of a loop see.
pub(crate) fn in_loop(
    alloc: Global,
    own: &Option<Name>,
    new: &Option<Name>,
    c: &InSight,
    slots: Items<(u32, u32)>,
) -> Result<InSight, NoMemory>
    ensures slots { IfOk result (λ x. x.slots ≡ slots) }
    ensures labels { IfOk result (λ x. spec.labels x
        ≡ alike.in_loop own.now new.now (spec.labels c.now)) }
{
    Ok(InSight {
        slots,
        exits: entered(alloc, own, new, c.exits.as_slice())?,
        continues: entered(alloc, own, new, c.continues.as_slice())?,
        looped: true,
    })
}

/// What stands for a label, by the last pair that has it.
fn label_at<'a>(list: &'a [(Name, Name)], label: &Name) -> Option<&'a Name>
    ensures { option_map (λ n. n.now) result ≡ spec.labels_by list.now label.now }
{
    let mut found = None;
    for p in list {
        if label.text() == p.0.text() {
            found = Some(&p.1);
        }
    }
    found
}

/// The label of an EXIT or a CONTINUE in both bodies.
pub(crate) fn names(
    looped: bool,
    list: &[(Name, Name)],
    label: &Option<Name>,
    new: &Option<Name>,
) -> bool
    ensures { IsTrue result → alike.Names looped (spec.labels_by list.now) label.now new.now }
{
    match label {
        None => new.is_none() && looped,
        Some(l) => match new {
            None => false,
            Some(n) => match label_at(list, l) {
                None => false,
                Some(m) => m.text() == n.text(),
            },
        },
    }
}

#[tactic(auto, using(crate::proofs::Pairs::none_step))]
fn is_new(list: &[(Name, Name)], own: &Name) -> bool
    ensures { IsTrue result → (l k : Word) → spec.labels_by list.now l ≡ Some k
        → bytes_eq k own.now ≡ false }
{
    for p in list {
        if p.1.text() == own.text() {
            return false;
        }
    }
    true
}

/// The label of a block or a loop: in both bodies or in none, and in the other body a new one.
fn fresh_inside(c: &InSight, own: &Option<Name>, new: &Option<Name>) -> bool
    ensures { IsTrue result → alike.Fresh (spec.labels c.now) None own.now new.now }
{
    match own {
        None => new.is_none(),
        Some(_) => match new {
            None => false,
            Some(n) => is_new(c.exits.as_slice(), n) && is_new(c.continues.as_slice(), n),
        },
    }
}

/// The same of a body that may be left to a label, which is another.
fn fresh_beside(way: &Name, c: &InSight, own: &Option<Name>, new: &Option<Name>) -> bool
    ensures { IsTrue result → alike.Fresh (spec.labels c.now) (Some way.now) own.now new.now }
{
    match own {
        None => new.is_none(),
        Some(_) => match new {
            None => false,
            Some(n) => {
                is_new(c.exits.as_slice(), n)
                    && is_new(c.continues.as_slice(), n)
                    && way.text() != n.text()
            }
        },
    }
}

/// The label to which a body may be left.
fn way<'a>(w: &Walk<'a>) -> Option<&'a Name>
    ensures { option_map (λ n. n.now) result ≡ (spec.rules_of w.now).way }
{
    match w.calls {
        Calls::Turns(label) => Some(label),
        Calls::Expanded(x) => match x.left {
            Left::Whole => None,
            Left::Into(_, label) => Some(label),
        },
    }
}

/// The label of a block or a loop: in both bodies or in none, and in the other body a new one, and not that to which it may be left.
pub(crate) fn fresh(w: &Walk<'_>, c: &InSight, own: &Option<Name>, new: &Option<Name>) -> bool
    ensures { IsTrue result
        → alike.Fresh (spec.labels c.now) (spec.rules_of w.now).way own.now new.now }
{
    match way(w) {
        None => fresh_inside(c, own, new),
        Some(label) => fresh_beside(label, c, own, new),
    }
}
