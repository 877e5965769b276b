//! Statements that take no slots: whether one has become another.

ghost use Rattle.std.specs.Prelude.{◌≡◌, IsTrue};
ghost use Rattle.away_names.specs.Lookups.{Name as Word};
ghost use Rattle.away_trees.specs.declared.statements.Stmt.TheVariants as stmt;
ghost use Rattle.moved_slots.specs.Moved.{slots_by};
ghost use Rattle.call_answers.specs.Calling as call;
ghost use Rattle.call_answers.specs.Walking as spec;

use crate::calls::{called_part, goes_on};
use crate::leaf_pairs::{same_expr, same_maybe, same_select, same_slot, same_targets};
use crate::sights::names;
use crate::turns::{found, is_next_turn};
use crate::walking::{Calls, Expansion, Found, InSight, To, Walk};
use away_trees::{Expr, Raised, Select, Stmt};
use away_values::Name;

/// An assignment, where self calls are turns: it calls nobody.
#[tactic(auto, using(crate::proofs::LeafRules::assign_rule))]
fn assign_stays(
    w: &Walk<'_>,
    label: &Name,
    c: &InSight,
    slot: &Option<u32>,
    e: &Expr,
    x: &Stmt,
) -> bool
    ensures { IsTrue result → (name : Word) → spec.LeafBecomes
        (spec.turn_rules w.now label.now) c.now (stmt.Assign name slot.now e.now) x.now }
{
    let Stmt::Assign(_, other, y) = x else {
        return false;
    };
    let (Some(i), Some(j)) = (slot, other) else {
        return false;
    };
    let pairs = c.slots.as_slice();
    match found(w.name, e) {
        Found::Nobody => same_slot(w, pairs, *i, *j) && same_expr(pairs, e, y),
        Found::Itself(_) | Found::Converted => false,
    }
}

/// A RETURN, where self calls are turns.
#[tactic(auto, using(crate::proofs::LeafRules::return_rule, crate::proofs::LeafRules::next_turn_rule))]
fn return_turns(w: &Walk<'_>, label: &Name, c: &InSight, e: &Expr, x: &Stmt) -> bool
    ensures { IsTrue result → spec.LeafBecomes
        (spec.turn_rules w.now label.now) c.now (stmt.Return e.now) x.now }
{
    let pairs = c.slots.as_slice();
    match found(w.name, e) {
        Found::Nobody => match x {
            Stmt::Return(y) => same_expr(pairs, e, y),
            _ => false,
        },
        Found::Itself(args) => is_next_turn(w, label, pairs, args, x),
        Found::Converted => false,
    }
}

/// A value that calls nobody, where calls are expanded.
fn value_stands(w: &Walk<'_>, x: &Expansion<'_>, c: &InSight, to: &To, e: &Expr, y: &Stmt) -> bool
    ensures { IsTrue result → call.ValueStands w.now x.now (slots_by c.now.slots) to.now e.now
        y.now }
{
    let pairs = c.slots.as_slice();
    match called_part(x.parts, e) {
        Some(_) => false,
        None => match goes_on(w, pairs, &x.left, to, y) {
            None => false,
            Some(v) => same_expr(pairs, e, v),
        },
    }
}

#[tactic(auto, using(crate::proofs::LeafRules::by_turns, crate::proofs::CallBlockRules::assign_stands))]
fn assign_becomes(w: &Walk<'_>, c: &InSight, slot: &Option<u32>, e: &Expr, x: &Stmt) -> bool
    ensures { IsTrue result → (name : Word)
        → spec.LeafBecomes (spec.rules_of w.now) c.now (stmt.Assign name slot.now e.now) x.now }
{
    match w.calls {
        Calls::Turns(label) => assign_stays(w, label, c, slot, e, x),
        Calls::Expanded(by) => match slot {
            None => false,
            Some(i) => value_stands(w, &by, c, &To::Slot(*i), e, x),
        },
    }
}

#[tactic(auto, using(crate::proofs::LeafRules::by_turns, crate::proofs::CallBlockRules::return_stands))]
fn return_becomes(w: &Walk<'_>, c: &InSight, e: &Expr, x: &Stmt) -> bool
    ensures { IsTrue result
        → spec.LeafBecomes (spec.rules_of w.now) c.now (stmt.Return e.now) x.now }
{
    match w.calls {
        Calls::Turns(label) => return_turns(w, label, c, e, x),
        Calls::Expanded(by) => value_stands(w, &by, c, &To::Result, e, x),
    }
}

#[tactic(auto, using(crate::proofs::LeafRules::exit_rule))]
fn exit_becomes(
    w: &Walk<'_>,
    c: &InSight,
    label: &Option<Name>,
    when: &Option<Expr>,
    x: &Stmt,
) -> bool
    ensures { IsTrue result
        → spec.LeafBecomes (spec.rules_of w.now) c.now (stmt.Exit label.now when.now) x.now }
{
    let Stmt::Exit(other, test) = x else {
        return false;
    };
    names(c.looped, c.exits.as_slice(), label, other) && same_maybe(c.slots.as_slice(), when, test)
}

#[tactic(auto, using(crate::proofs::LeafRules::continue_rule))]
fn continue_becomes(
    w: &Walk<'_>,
    c: &InSight,
    label: &Option<Name>,
    when: &Option<Expr>,
    x: &Stmt,
) -> bool
    ensures { IsTrue result
        → spec.LeafBecomes (spec.rules_of w.now) c.now (stmt.Continue label.now when.now) x.now }
{
    let Stmt::Continue(other, test) = x else {
        return false;
    };
    names(c.looped, c.continues.as_slice(), label, other)
        && same_maybe(c.slots.as_slice(), when, test)
}

fn same_raised(r: &Raised, x: &Raised) -> bool
    ensures { IsTrue result → r.now ≡ x.now }
{
    match r {
        Raised::Message(a) => match x {
            Raised::Message(b) => a.text() == b.text(),
            Raised::State(_) => false,
        },
        Raised::State(a) => match x {
            Raised::Message(_) => false,
            Raised::State(b) => a.text() == b.text(),
        },
    }
}

#[tactic(auto, using(crate::proofs::LeafRules::raise_rule))]
fn raise_becomes(w: &Walk<'_>, c: &InSight, r: &Raised, x: &Stmt) -> bool
    ensures { IsTrue result
        → spec.LeafBecomes (spec.rules_of w.now) c.now (stmt.Raise r.now) x.now }
{
    match x {
        Stmt::Raise(y) => same_raised(r, y),
        _ => false,
    }
}

#[tactic(auto, using(crate::proofs::LeafRules::into_rule))]
fn into_becomes(
    w: &Walk<'_>,
    c: &InSight,
    strict: bool,
    targets: &[(Name, Option<u32>)],
    query: &Select,
    x: &Stmt,
) -> bool
    ensures { IsTrue result → spec.LeafBecomes (spec.rules_of w.now) c.now
        (stmt.Into strict targets.now query.now) x.now }
{
    let Stmt::Into {
        strict: other,
        targets: others,
        query: y,
    } = x
    else {
        return false;
    };
    let pairs = c.slots.as_slice();
    strict == *other
        && same_targets(w, pairs, targets, others.as_slice())
        && same_select(pairs, query, y)
}

/// A statement without statements in it.
#[tactic(auto, using(crate::proofs::LeafRules::nothing_rule))]
pub(crate) fn leaf_becomes(w: &Walk<'_>, c: &InSight, s: &Stmt, x: &Stmt) -> bool
    ensures { IsTrue result → spec.LeafBecomes (spec.rules_of w.now) c.now s.now x.now }
{
    match s {
        Stmt::Assign(_, slot, e) => assign_becomes(w, c, slot, e, x),
        Stmt::Return(e) => return_becomes(w, c, e, x),
        Stmt::Exit(label, when) => exit_becomes(w, c, label, when, x),
        Stmt::Continue(label, when) => continue_becomes(w, c, label, when, x),
        Stmt::Raise(r) => raise_becomes(w, c, r, x),
        Stmt::Into {
            strict,
            targets,
            query,
        } => { into_becomes(w, c, *strict, targets.as_slice(), query, x) }
        Stmt::Nothing => match x {
            Stmt::Nothing => true,
            _ => false,
        },
        Stmt::Block { .. } | Stmt::If(_, _) | Stmt::Cases(_, _) | Stmt::Loop { .. } => false,
    }
}
