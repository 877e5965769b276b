//! Whether a body has become another. The walk goes down the other body, which comes first, and from a call on along the called
//! function's.

ghost use Rattle.std.specs.Prelude.{IfOk, IfSome, Option};
ghost use Rattle.away_trees.specs.declared.statements.Stmt.TheVariants as stmt;
ghost use Rattle.away_names.specs.Lookups.{Name as Word};
ghost use Rattle.moved_slots.specs.Moved.{slots_by};
ghost use Rattle.call_answers.specs.Calling as call;
ghost use Rattle.call_answers.specs.Walking as spec;

use crate::callees::{callee_in_sight, entered};
use crate::calls::{ends_call, placed};
use crate::leaf_pairs::{in_head, same_decls, same_expr, same_kind};
use crate::leaves::leaf_becomes;
use crate::sights::{fresh, in_block, in_loop};
use crate::walking::{InSight, Placed, Spot, Walk};
use away_trees::{Arm, Decl, LoopKind, Stmt};
use away_values::{Name, NoMemory};
use std::alloc::Global;

/// The spot behind a statement that has become another.
#[cycle(becoming)]
pub(crate) fn stmt_becomes(
    alloc: Global,
    w: &Walk<'_>,
    c: &InSight,
    p: Spot,
    x: &Stmt,
    s: &Stmt,
) -> Result<Option<Spot>, NoMemory>
    ensures { IfOk result (λ r. IfSome r
        (spec.StmtBecomes (spec.rules_of w.now) c.now p s.now x.now)) }
{
    match x {
        Stmt::Block { .. } => by_block(alloc, w, c, p, x, s),
        Stmt::Loop {
            label,
            kind,
            body,
            closing: _,
        } => loop_becomes(alloc, w, c, p, body.as_slice(), kind, label, s),
        Stmt::If(_, _) => if_becomes(alloc, w, c, p, x, s),
        Stmt::Cases(_, _) => cases_becomes(alloc, w, c, p, x, s),
        Stmt::Assign(_, _, _)
        | Stmt::Return(_)
        | Stmt::Exit(_, _)
        | Stmt::Continue(_, _)
        | Stmt::Raise(_)
        | Stmt::Into { .. }
        | Stmt::Nothing => Ok(if leaf_becomes(w, c, s, x) {
            Some(p)
        } else {
            None
        }),
    }
}

/// A block: what a RETURN, a call or a block has become.
#[cycle(becoming)]
fn by_block(
    alloc: Global,
    w: &Walk<'_>,
    c: &InSight,
    p: Spot,
    x: &Stmt,
    s: &Stmt,
) -> Result<Option<Spot>, NoMemory>
    ensures { IfOk result (λ r. IfSome r
        (spec.StmtBecomes (spec.rules_of w.now) c.now p s.now x.now)) }
{
    if leaf_becomes(w, c, s, x) {
        return Ok(Some(p));
    }
    let Stmt::Block {
        label,
        decls,
        body,
        closing,
    } = x
    else {
        return Ok(None);
    };
    let Some(g) = placed(&*w, &*s) else {
        return block_becomes(alloc, w, c, p, body.as_slice(), decls.as_slice(), label, s);
    };
    if label.is_some() || closing.is_some() {
        return Ok(None);
    }
    call_becomes(alloc, w, c, p, &g, body.as_slice(), decls.as_slice())
}

#[cycle(becoming)]
fn block_becomes(
    alloc: Global,
    w: &Walk<'_>,
    c: &InSight,
    p: Spot,
    body: &[Stmt],
    decls: &[Decl],
    label: &Option<Name>,
    s: &Stmt,
) -> Result<Option<Spot>, NoMemory>
    ensures { IfOk result (λ r. IfSome r (λ q. (closing : Option Word)
        → spec.StmtBecomes (spec.rules_of w.now) c.now p s.now
        (stmt.Block label.now decls.now body.now closing) q)) }
{
    let Stmt::Block {
        label: own,
        decls: declared,
        body: list,
        closing: _,
    } = s
    else {
        return Ok(None);
    };
    if !fresh(w, c, own, label) {
        return Ok(None);
    }
    let pairs = c.slots.as_slice();
    let Some(d) = same_decls(alloc, w, pairs, p, declared.as_slice(), decls)? else {
        return Ok(None);
    };
    let from = d.spot;
    let inside = in_block(alloc, own, label, c, d.slots)?;
    row_becomes(alloc, w, &inside, from, body, list.as_slice())
}

#[cycle(becoming)]
fn loop_becomes(
    alloc: Global,
    w: &Walk<'_>,
    c: &InSight,
    p: Spot,
    body: &[Stmt],
    kind: &LoopKind,
    label: &Option<Name>,
    s: &Stmt,
) -> Result<Option<Spot>, NoMemory>
    ensures { IfOk result (λ r. IfSome r (λ q. (closing : Option Word)
        → spec.StmtBecomes (spec.rules_of w.now) c.now p s.now
        (stmt.Loop label.now kind.now body.now closing) q)) }
{
    let Stmt::Loop {
        label: own,
        kind: head,
        body: list,
        closing: _,
    } = s
    else {
        return Ok(None);
    };
    let pairs = c.slots.as_slice();
    if !fresh(w, c, own, label) || !same_kind(pairs, head, kind) {
        return Ok(None);
    }
    let Some(d) = in_head(alloc, pairs, p, head)? else {
        return Ok(None);
    };
    let from = d.spot;
    let inside = in_loop(alloc, own, label, c, d.slots)?;
    row_becomes(alloc, w, &inside, from, body, list.as_slice())
}

/// Statements one behind the other.
#[cycle(becoming)]
#[tactic(auto, using(crate::proofs::Chains::chain_step, crate::proofs::Chains::chain_end))]
fn row_becomes(
    alloc: Global,
    w: &Walk<'_>,
    c: &InSight,
    p: Spot,
    xs: &[Stmt],
    list: &[Stmt],
) -> Result<Option<Spot>, NoMemory>
    ensures { IfOk result (λ r. IfSome r
        (spec.RowBecomes (spec.rules_of w.now) c.now p list.now xs.now)) }
{
    if list.len() != xs.len() {
        return Ok(None);
    }
    let mut q = p;
    for i in 0..xs.len() {
        let Some(behind) = stmt_becomes(alloc, w, c, q, &xs[i], &list[i])? else {
            return Ok(None);
        };
        q = behind;
    }
    Ok(Some(q))
}

#[cycle(becoming)]
fn arm_becomes(
    alloc: Global,
    w: &Walk<'_>,
    c: &InSight,
    p: Spot,
    x: &Arm,
    a: &Arm,
) -> Result<Option<Spot>, NoMemory>
    ensures { IfOk result (λ r. IfSome r
        (spec.ArmBecomes (spec.rules_of w.now) c.now p a.now x.now)) }
{
    if same_expr(c.slots.as_slice(), &a.test, &x.test) {
        row_becomes(alloc, w, c, p, x.body.as_slice(), a.body.as_slice())
    } else {
        Ok(None)
    }
}

#[cycle(becoming)]
#[tactic(auto, using(crate::proofs::Chains::chain_step, crate::proofs::Chains::chain_end))]
fn arms_become(
    alloc: Global,
    w: &Walk<'_>,
    c: &InSight,
    p: Spot,
    xs: &[Arm],
    list: &[Arm],
) -> Result<Option<Spot>, NoMemory>
    ensures { IfOk result (λ r. IfSome r
        (spec.ArmsBecome (spec.rules_of w.now) c.now p list.now xs.now)) }
{
    if list.len() != xs.len() {
        return Ok(None);
    }
    let mut q = p;
    for i in 0..xs.len() {
        let Some(behind) = arm_becomes(alloc, w, c, q, &xs[i], &list[i])? else {
            return Ok(None);
        };
        q = behind;
    }
    Ok(Some(q))
}

/// Arms, and what stands behind ELSE.
#[cycle(becoming)]
fn if_becomes(
    alloc: Global,
    w: &Walk<'_>,
    c: &InSight,
    p: Spot,
    x: &Stmt,
    s: &Stmt,
) -> Result<Option<Spot>, NoMemory>
    ensures { IfOk result (λ r. IfSome r
        (spec.StmtBecomes (spec.rules_of w.now) c.now p s.now x.now)) }
{
    let Stmt::If(own, rest) = s else {
        return Ok(None);
    };
    let Stmt::If(arms, other) = x else {
        return Ok(None);
    };
    let Some(m) = arms_become(alloc, w, c, p, arms.as_slice(), own.as_slice())? else {
        return Ok(None);
    };
    match rest {
        None => Ok(if other.is_none() { Some(m) } else { None }),
        Some(list) => match other {
            None => Ok(None),
            Some(body) => row_becomes(alloc, w, c, m, body.as_slice(), list.as_slice()),
        },
    }
}

/// Arms, and what stands behind ELSE.
#[cycle(becoming)]
fn cases_becomes(
    alloc: Global,
    w: &Walk<'_>,
    c: &InSight,
    p: Spot,
    x: &Stmt,
    s: &Stmt,
) -> Result<Option<Spot>, NoMemory>
    ensures { IfOk result (λ r. IfSome r
        (spec.StmtBecomes (spec.rules_of w.now) c.now p s.now x.now)) }
{
    let Stmt::Cases(own, rest) = s else {
        return Ok(None);
    };
    let Stmt::Cases(arms, other) = x else {
        return Ok(None);
    };
    let Some(m) = arms_become(alloc, w, c, p, arms.as_slice(), own.as_slice())? else {
        return Ok(None);
    };
    match rest {
        None => Ok(if other.is_none() { Some(m) } else { None }),
        Some(list) => match other {
            None => Ok(None),
            Some(body) => row_becomes(alloc, w, c, m, body.as_slice(), list.as_slice()),
        },
    }
}

/// The block that a call of a part has become.
#[cycle(becoming)]
fn call_becomes(
    alloc: Global,
    w: &Walk<'_>,
    c: &InSight,
    p: Spot,
    g: &Placed<'_>,
    xs: &[Stmt],
    decls: &[Decl],
) -> Result<Option<Spot>, NoMemory>
    ensures { IfOk result (λ r. IfSome r
        (call.CallStands w.now c.now p g.now decls.now xs.now)) }
{
    if xs.len() != 2 {
        return Ok(None);
    }
    if !ends_call(w, c.slots.as_slice(), p.new, g, decls, &xs[1]) {
        return Ok(None);
    }
    let Stmt::Block {
        label,
        decls: params,
        body,
        closing,
    } = &xs[0]
    else {
        return Ok(None);
    };
    if closing.is_some() {
        return Ok(None);
    }
    match label {
        None => Ok(None),
        Some(l) => callee_becomes(alloc, w, c, p, g, l, body.as_slice(), params.as_slice()),
    }
}

/// The block with the parameters, in which the body of the called part stands.
#[cycle(becoming)]
fn callee_becomes(
    alloc: Global,
    w: &Walk<'_>,
    c: &InSight,
    p: Spot,
    g: &Placed<'_>,
    label: &Name,
    xs: &[Stmt],
    params: &[Decl],
) -> Result<Option<Spot>, NoMemory>
    ensures { IfOk result (λ r. IfSome r (call.CalleeStands w.now (slots_by c.now.slots) p g.now
        label.now params.now xs.now)) }
{
    let Some(d) = entered(&*w, c, p.new, &*g, &*label, params, xs) else {
        return Ok(None);
    };
    if d.place >= xs.len() {
        return Ok(None);
    }
    let inside = callee_in_sight(alloc, d.params, d.from)?;
    let v = d.walk;
    match stmt_becomes(alloc, &v, &inside, d.spot, &xs[d.place], v.body)? {
        None => Ok(None),
        Some(q) => Ok(Some(Spot {
            at: p.at,
            new: q.new,
        })),
    }
}
