//! Expressions whose slots stand elsewhere.

ghost use Rattle.std.specs.Prelude.{IsTrue};
ghost use Rattle.moved_slots.specs.Moved as spec;
ghost use Rattle.moved_slots.specs.Moved.{slots_by};

use crate::queries::query_moved;
use crate::slots::stands_at;
use away_trees::Expr;
use away_values::ChainOp;
use sqlite_items::Boxed;

/// Whether an expression, so many selects deep, is another whose slots stand elsewhere.
#[cycle(moved)]
#[tactic(auto, using(crate::proofs::MovedRules::expr_rules))]
pub fn expr_moved(pairs: &[(u32, u32)], d: u32, e: &Expr, x: &Expr) -> bool
    ensures { IsTrue result → spec.ExprMoved (slots_by pairs.now) d e.now x.now }
{
    match e {
        Expr::Int(a) => match x {
            Expr::Int(b) => a == b,
            _ => false,
        },
        Expr::Str(a) => match x {
            Expr::Str(b) => a.text() == b.text(),
            _ => false,
        },
        Expr::Bool(a) => match x {
            Expr::Bool(b) => a == b,
            _ => false,
        },
        Expr::Null => match x {
            Expr::Null => true,
            _ => false,
        },
        Expr::CountRows => match x {
            Expr::CountRows => true,
            _ => false,
        },
        Expr::Slot(i) => match x {
            Expr::Slot(j) => stands_at(pairs, *i, *j),
            _ => false,
        },
        Expr::Column(a) => match x {
            Expr::Column(b) => *a == *b && a.level < d,
            _ => false,
        },
        Expr::Named(_) | Expr::Dotted(_, _) | Expr::Param(_, _) => false,
        Expr::Neg(_)
        | Expr::NegSmall(_)
        | Expr::Not(_)
        | Expr::Is(_, _, _)
        | Expr::Cast(_, _)
        | Expr::Scalar(_)
        | Expr::Exists(_) => one_part_moved(pairs, d, e, x),
        Expr::Chain(_, _)
        | Expr::Compare(_, _, _)
        | Expr::Between(_, _, _, _)
        | Expr::OneOf(_, _, _)
        | Expr::Cases(_, _)
        | Expr::Call(_, _) => parts_moved(pairs, d, e, x),
    }
}

/// An expression with one part.
#[cycle(moved)]
#[tactic(auto, using(crate::proofs::MovedRules::part_rules))]
fn one_part_moved(pairs: &[(u32, u32)], d: u32, e: &Expr, x: &Expr) -> bool
    ensures { IsTrue result → spec.ExprMoved (slots_by pairs.now) d e.now x.now }
{
    match e {
        Expr::Neg(a) => match x {
            Expr::Neg(b) => expr_moved(pairs, d, a.get(), b.get()),
            _ => false,
        },
        Expr::NegSmall(a) => match x {
            Expr::NegSmall(b) => expr_moved(pairs, d, a.get(), b.get()),
            _ => false,
        },
        Expr::Not(a) => match x {
            Expr::Not(b) => expr_moved(pairs, d, a.get(), b.get()),
            _ => false,
        },
        Expr::Is(a, s, t) => match x {
            Expr::Is(b, u, v) => {
                if *s != *u {
                    return false;
                }
                if *t != *v {
                    return false;
                }
                expr_moved(pairs, d, a.get(), b.get())
            }
            _ => false,
        },
        Expr::Cast(a, s) => match x {
            Expr::Cast(b, t) => {
                if *s != *t {
                    return false;
                }
                expr_moved(pairs, d, a.get(), b.get())
            }
            _ => false,
        },
        Expr::Scalar(q) => match x {
            Expr::Scalar(r) => query_moved(pairs, d, q.get(), r.get()),
            _ => false,
        },
        Expr::Exists(q) => match x {
            Expr::Exists(r) => query_moved(pairs, d, q.get(), r.get()),
            _ => false,
        },
        _ => false,
    }
}

/// An expression with several parts.
#[cycle(moved)]
#[tactic(auto, using(crate::proofs::MovedRules::parts_rules))]
fn parts_moved(pairs: &[(u32, u32)], d: u32, e: &Expr, x: &Expr) -> bool
    ensures { IsTrue result → spec.ExprMoved (slots_by pairs.now) d e.now x.now }
{
    match e {
        Expr::Chain(a, links) => match x {
            Expr::Chain(b, others) => {
                if !expr_moved(pairs, d, a.get(), b.get()) {
                    return false;
                }
                links_moved(pairs, d, links.as_slice(), others.as_slice())
            }
            _ => false,
        },
        Expr::Compare(s, a, b) => match x {
            Expr::Compare(t, y, z) => {
                if *s != *t {
                    return false;
                }
                if !expr_moved(pairs, d, a.get(), y.get()) {
                    return false;
                }
                expr_moved(pairs, d, b.get(), z.get())
            }
            _ => false,
        },
        Expr::Between(s, a, b, c) => match x {
            Expr::Between(t, w, y, z) => {
                if *s != *t {
                    return false;
                }
                if !expr_moved(pairs, d, a.get(), w.get()) {
                    return false;
                }
                if !expr_moved(pairs, d, b.get(), y.get()) {
                    return false;
                }
                expr_moved(pairs, d, c.get(), z.get())
            }
            _ => false,
        },
        Expr::OneOf(s, a, list) => match x {
            Expr::OneOf(t, b, others) => {
                if *s != *t {
                    return false;
                }
                if !expr_moved(pairs, d, a.get(), b.get()) {
                    return false;
                }
                exprs_moved(pairs, d, list.as_slice(), others.as_slice())
            }
            _ => false,
        },
        Expr::Cases(arms, a) => match x {
            Expr::Cases(others, b) => {
                if !arms_moved(pairs, d, arms.as_slice(), others.as_slice()) {
                    return false;
                }
                other_moved(pairs, d, a, b)
            }
            _ => false,
        },
        Expr::Call(f, list) => match x {
            Expr::Call(g, others) => {
                if f.text() != g.text() {
                    return false;
                }
                exprs_moved(pairs, d, list.as_slice(), others.as_slice())
            }
            _ => false,
        },
        _ => false,
    }
}

#[cycle(moved)]
fn exprs_moved(pairs: &[(u32, u32)], d: u32, list: &[Expr], others: &[Expr]) -> bool
    ensures { IsTrue result
        → spec.Each (spec.ExprMoved (slots_by pairs.now) d) list.now others.now }
{
    if list.len() != others.len() {
        return false;
    }
    for i in 0..list.len() {
        if !expr_moved(pairs, d, &list[i], &others[i]) {
            return false;
        }
    }
    true
}

#[cycle(moved)]
fn links_moved(
    pairs: &[(u32, u32)],
    d: u32,
    list: &[(ChainOp, Expr)],
    others: &[(ChainOp, Expr)],
) -> bool
    ensures { IsTrue result
        → spec.Each (spec.LinkMoved (slots_by pairs.now) d) list.now others.now }
{
    if list.len() != others.len() {
        return false;
    }
    for i in 0..list.len() {
        if others[i].0 != list[i].0 {
            return false;
        }
        if !expr_moved(pairs, d, &list[i].1, &others[i].1) {
            return false;
        }
    }
    true
}

#[cycle(moved)]
fn arms_moved(pairs: &[(u32, u32)], d: u32, list: &[(Expr, Expr)], others: &[(Expr, Expr)]) -> bool
    ensures { IsTrue result
        → spec.Each (spec.ArmMoved (slots_by pairs.now) d) list.now others.now }
{
    if list.len() != others.len() {
        return false;
    }
    for i in 0..list.len() {
        if !expr_moved(pairs, d, &list[i].0, &others[i].0) {
            return false;
        }
        if !expr_moved(pairs, d, &list[i].1, &others[i].1) {
            return false;
        }
    }
    true
}

#[cycle(moved)]
fn other_moved(
    pairs: &[(u32, u32)],
    d: u32,
    e: &Option<Boxed<Expr>>,
    x: &Option<Boxed<Expr>>,
) -> bool
    ensures { IsTrue result
        → spec.Maybe (spec.ExprMoved (slots_by pairs.now) d) e.now x.now }
{
    match e {
        None => x.is_none(),
        Some(a) => match x {
            None => false,
            Some(b) => expr_moved(pairs, d, a.get(), b.get()),
        },
    }
}

#[cycle(moved)]
pub(crate) fn maybe_moved(pairs: &[(u32, u32)], d: u32, e: &Option<Expr>, x: &Option<Expr>) -> bool
    ensures { IsTrue result
        → spec.Maybe (spec.ExprMoved (slots_by pairs.now) d) e.now x.now }
{
    match e {
        None => x.is_none(),
        Some(a) => match x {
            None => false,
            Some(b) => expr_moved(pairs, d, a, b),
        },
    }
}
