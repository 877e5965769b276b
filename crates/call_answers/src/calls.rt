//! The block that a call has become: what is called, the slot of the result, the parameters with the arguments as defaults, and
//! what goes on.

ghost use Rattle.std.specs.Prelude.{◌≡◌, IfSome, IsTrue, None, Some};
ghost use Rattle.call_meaning.specs.Calls.{call_of, called_among, callee, place_among};
ghost use Rattle.call_meaning.specs.Expands.{ReturnsBy, arguments_become, kept, returns_by};
ghost use Rattle.call_meaning.specs.Renamed.{renaming};
ghost use Rattle.away_trees.specs.declared.queries.Expr.TheVariants as expr;
ghost use Rattle.moved_slots.specs.Moved.{slots_by};
ghost use Rattle.call_answers.specs.Calling as call;
ghost use Rattle.call_answers.specs.Walking as spec;

use crate::ends::is_exit;
use crate::leaf_pairs::{is_nullable, same_expr, same_slot};
use crate::walking::{CalledPart, Calls, Expansion, Left, Placed, StandingPart, To, Walk};
use away_names::lookups::narrow;
use away_trees::{Decl, Expr, Stmt};
use away_values::{Name, Ty};

// ---- what is called

fn number_of(parts: &[StandingPart], name: &Name) -> Option<usize>
    ensures { result ≡ place_among (call.names parts.now) name.now }
{
    let mut i = 0;
    for p in parts {
        if p.function.name.text() == name.text() {
            return Some(i);
        }
        i += 1;
    }
    None
}

fn called_by<'a>(
    parts: &[StandingPart],
    conversion: Option<Ty>,
    name: &Name,
    args: &'a [Expr],
) -> Option<CalledPart<'a>>
    ensures { call.maybe_called result
        ≡ called_among (call.names parts.now) conversion (Some (name.now, args.now)) }
{
    match number_of(parts, name) {
        None => None,
        Some(part) => Some(CalledPart {
            conversion,
            part,
            args,
        }),
    }
}

fn call_in<'a>(
    parts: &[StandingPart],
    conversion: Option<Ty>,
    e: &'a Expr,
) -> Option<CalledPart<'a>>
    ensures { call.maybe_called result
        ≡ called_among (call.names parts.now) conversion (call_of e.now) }
{
    match e {
        Expr::Call(name, args) => called_by(parts, conversion, name, args.as_slice()),
        _ => None,
    }
}

/// The part that an expression calls, as a whole or under the conversion to the type of its place.
pub(crate) fn called_part<'a>(parts: &[StandingPart], e: &'a Expr) -> Option<CalledPart<'a>>
    ensures { call.maybe_called result ≡ callee (call.names parts.now) e.now }
{
    match e {
        Expr::Call(name, args) => called_by(parts, None, name, args.as_slice()),
        Expr::Cast(inner, t) => call_in(parts, Some(*t), inner.get()),
        _ => None,
    }
}

fn placed_at<'a>(x: &Expansion<'a>, to: To, e: &'a Expr) -> Option<Placed<'a>>
    ensures { IfSome result (λ g. call.Places x.now to e.now g) }
{
    match called_part(x.parts, e) {
        None => None,
        Some(called) => Some(Placed {
            expansion: *x,
            to,
            called,
        }),
    }
}

/// The call in an assignment or a RETURN, where calls are expanded.
pub(crate) fn placed<'a>(w: &Walk<'a>, s: &'a Stmt) -> Option<Placed<'a>>
    ensures { IfSome result (λ g. call.IsPlaced w.now s.now g) }
{
    match w.calls {
        Calls::Turns(_) => None,
        Calls::Expanded(x) => match s {
            Stmt::Assign(_, slot, e) => match slot {
                None => None,
                Some(i) => placed_at(&x, To::Slot(*i), e),
            },
            Stmt::Return(e) => placed_at(&x, To::Result, e),
            _ => None,
        },
    }
}

// ---- what goes on

/// The value that is assigned to the slot that stands for one.
#[tactic(auto, using(crate::proofs::CallBlockRules::assigns_rule))]
fn assigned<'a>(w: &Walk<'_>, pairs: &[(u32, u32)], i: u32, x: &'a Stmt) -> Option<&'a Expr>
    ensures { IfSome result (λ y. call.AssignsTo w.now (slots_by pairs.now) i y.now x.now) }
{
    match x {
        Stmt::Assign(_, Some(j), y) => {
            if same_slot(w, pairs, i, *j) {
                Some(y)
            } else {
                None
            }
        }
        _ => None,
    }
}

fn set_to(i: u32, x: &Stmt) -> Option<&Expr>
    ensures { IfSome result (λ y. call.IsSet i y.now x.now) }
{
    match x {
        Stmt::Assign(_, Some(j), y) => { if *j == i { Some(y) } else { None } }
        _ => None,
    }
}

fn set_and_left<'a>(i: u32, label: &Name, xs: &'a [Stmt]) -> Option<&'a Expr>
    ensures { IfSome result (λ y. call.SetsAndLeaves i label.now y.now xs.now) }
{
    match xs {
        [a, b] => {
            if is_exit(label, b) {
                set_to(i, a)
            } else {
                None
            }
        }
        _ => None,
    }
}

/// The value with which a body is left by an EXIT.
fn left_with<'a>(i: u32, label: &Name, x: &'a Stmt) -> Option<&'a Expr>
    ensures { IfSome result (λ y. ReturnsBy i label.now y.now x.now) }
{
    match x {
        Stmt::Block {
            label: own,
            decls,
            body,
            closing: _,
        } => {
            if own.is_some() || !decls.is_empty() {
                return None;
            }
            set_and_left(i, label, body.as_slice())
        }
        _ => None,
    }
}

/// The value that is returned, by RETURN or by an EXIT.
fn returned<'a>(left: &Left<'_>, x: &'a Stmt) -> Option<&'a Expr>
    ensures { IfSome result (λ y. returns_by (spec.back left.now) y.now x.now) }
{
    match *left {
        Left::Whole => match x {
            Stmt::Return(y) => Some(y),
            _ => None,
        },
        Left::Into(i, label) => left_with(i, label, x),
    }
}

/// The value with which an assignment or a RETURN goes on.
pub(crate) fn goes_on<'a>(
    w: &Walk<'_>,
    pairs: &[(u32, u32)],
    left: &Left<'_>,
    to: &To,
    x: &'a Stmt,
) -> Option<&'a Expr>
    ensures { IfSome result (λ y. call.GoesOn w.now left.now (slots_by pairs.now) to.now y.now
        x.now) }
{
    match to {
        To::Slot(i) => assigned(w, pairs, *i, x),
        To::Result => returned(left, x),
    }
}

fn is_slot(i: u32, e: &Expr) -> bool
    ensures { IsTrue result → e.now ≡ expr.Slot i }
{
    match e {
        Expr::Slot(j) => *j == i,
        _ => false,
    }
}

/// The slot of the result, under the conversion of the place.
pub(crate) fn is_kept(conversion: Option<Ty>, i: u32, e: &Expr) -> bool
    ensures { IsTrue result → e.now ≡ kept conversion (expr.Slot i) }
{
    match conversion {
        None => is_slot(i, e),
        Some(t) => match e {
            Expr::Cast(inner, u) => *u == t && is_slot(i, inner.get()),
            _ => false,
        },
    }
}

// ---- the slot of the result, and the parameters

/// One declaration without a default, of a slot that may be NULL.
pub(crate) fn is_result(w: &Walk<'_>, i: u32, decls: &[Decl]) -> bool
    ensures { IsTrue result → call.IsResult (spec.typed w.now) i decls.now }
{
    match decls {
        [d] => d.default.is_none() && is_nullable(w.slots, i),
        _ => false,
    }
}

/// A parameter with its argument as default, of a slot that may be NULL.
fn argument(w: &Walk<'_>, pairs: &[(u32, u32)], i: usize, a: &Expr, d: &Decl) -> bool
    ensures { IsTrue result
        → call.ArgumentStands (spec.typed w.now) (slots_by pairs.now) i a.now d.now }
{
    let Ok(slot) = narrow(i) else {
        return false;
    };
    match &d.default {
        None => false,
        Some(y) => is_nullable(w.slots, slot) && same_expr(pairs, a, y),
    }
}

/// The parameters, from a slot on.
#[tactic(auto, using(crate::proofs::CallLists::arguments_step, crate::proofs::CallLists::arguments_end))]
pub(crate) fn arguments_stand(
    w: &Walk<'_>,
    pairs: &[(u32, u32)],
    args: &[Expr],
    params: &[Decl],
    from: usize,
) -> bool
    ensures { IsTrue result → arguments_become renaming (spec.typed w.now) (slots_by pairs.now)
        from args.now params.now }
{
    if args.len() != params.len() {
        return false;
    }
    let mut slot = from;
    for i in 0..args.len() {
        if !argument(w, pairs, slot, &args[i], &params[i]) {
            return false;
        }
        let Some(more) = slot.checked_add(1) else {
            return false;
        };
        slot = more;
    }
    true
}

/// The slot of the result, and what goes on by it.
pub(crate) fn ends_call(
    w: &Walk<'_>,
    pairs: &[(u32, u32)],
    slot: u32,
    g: &Placed<'_>,
    decls: &[Decl],
    tail: &Stmt,
) -> bool
    ensures { IsTrue result
        → call.EndsCall w.now (slots_by pairs.now) slot g.now decls.now tail.now }
{
    if !is_result(w, slot, decls) {
        return false;
    }
    match goes_on(w, pairs, &g.expansion.left, &g.to, tail) {
        None => false,
        Some(y) => is_kept(g.called.conversion, slot, y),
    }
}
