//! The body of a called function: the walk along it, and where it stands.

ghost use Rattle.std.specs.Prelude.{◌+◌, ◌≡◌, IfOk, IfSome};
ghost use Rattle.call_answers.specs.Calling as call;
ghost use Rattle.moved_slots.specs.Moved.{slots_by};

use crate::calls::arguments_stand;
use crate::ends::body_place;
use crate::walking::{Callee, Calls, Expansion, InSight, Left, Placed, Spot, Walk};
use away_names::lookups::narrow;
use away_trees::{Decl, Stmt};
use away_values::{Name, NoMemory};
use sqlite_items::Items;
use std::alloc::Global;

/// The walk along the body of the called part, a call deeper.
fn deeper<'a>(w: &Walk<'a>, g: &Placed<'a>, slot: u32, label: &'a Name) -> Option<Walk<'a>>
    ensures { IfSome result (λ v. call.IsDeeper w.now g.now slot label.now v) }
{
    if g.expansion.depth == 0 {
        return None;
    }
    match g.expansion.parts.get(g.called.part) {
        None => None,
        Some(p) => Some(Walk {
            name: p.function.name.text(),
            f: &p.function,
            body: &p.function.body,
            own: p.slots.as_slice(),
            slots: w.slots,
            calls: Calls::Expanded(Expansion {
                parts: g.expansion.parts,
                depth: g.expansion.depth - 1,
                left: Left::Into(slot, label),
            }),
        }),
    }
}

/// Behind so many parameters from a slot on.
fn behind_parameters(n: usize, from: u32) -> Option<Spot>
    ensures at { IfSome result (λ p. p.at ≡ n) }
    ensures new { IfSome result (λ p. p.new ≡ from + n) }
{
    let at = narrow(n).ok()?;
    let new = from.checked_add(at)?;
    Some(Spot { at, new })
}

/// Where the body of a called part stands, by the block with its parameters.
pub(crate) fn entered<'a>(
    w: &Walk<'a>,
    c: &InSight,
    slot: u32,
    g: &Placed<'a>,
    label: &'a Name,
    params: &[Decl],
    xs: &[Stmt],
) -> Option<Callee<'a>>
    ensures { IfSome result (λ d. call.IsEntered w.now (slots_by c.now.slots) slot g.now label.now
        params.now xs.now d) }
{
    let walk = deeper(w, g, slot, label)?;
    let from = slot.checked_add(1)?;
    let n = walk.f.params.len();
    let spot = behind_parameters(n, from)?;
    if g.called.args.len() != n {
        return None;
    }
    if !arguments_stand(w, c.slots.as_slice(), g.called.args, params, from as usize) {
        return None;
    }
    let place = body_place(walk.f.strict, n, from as usize, label, xs)?;
    Some(Callee {
        walk,
        from,
        params: n,
        spot,
        place,
    })
}

/// Where a parameter stands in both bodies: the parameters of the other stand from a slot on.
fn pair_at(i: usize, from: u32) -> Result<(u32, u32), NoMemory>
    ensures own { IfOk result (λ p. p.0 ≡ i) }
    ensures new { IfOk result (λ p. p.1 ≡ from + i) }
{
    let own = narrow(i)?;
    match from.checked_add(own) {
        None => Err(NoMemory),
        Some(new) => Ok((own, new)),
    }
}

/// What the body of a called part has in sight: so many parameters, which stand from a slot on.
pub(crate) fn callee_in_sight(alloc: Global, n: usize, from: u32) -> Result<InSight, NoMemory>
    ensures { IfOk result (λ c. call.SeesFrom n from c) }
{
    let mut slots = Items::new(alloc);
    for i in 0..n {
        let pair = pair_at(i, from)?;
        slots.push(pair)?;
    }
    Ok(InSight {
        slots,
        exits: Items::new(alloc),
        continues: Items::new(alloc),
        looped: false,
    })
}
