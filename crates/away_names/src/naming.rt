//! Expressions with what their names stand for, and the least rule that their names break.

ghost use Rattle.std.specs.Prelude.{◌≡◌, IfOk};
ghost use Rattle.away_names.specs.Naming as spec;
ghost use Rattle.away_names.specs.NamingLists as lists;
ghost use Rattle.away_names.specs.Notes as notes;
ghost use Rattle.away_names.specs.Places.{scope};
ghost use Rattle.away_names.specs.Trees as trees;

use crate::naming_queries::named_query;
use crate::note::{Column, Noted, Shown, breaks, clean, joined};
use crate::references::{call_note, named, qualified};
use crate::rule::Rule;
use crate::scope::Scope;
use away_trees::{Expr, Query};
use away_values::{ChainOp, NoMemory};
use sqlite_items::{Boxed, Items};
use std::alloc::Global;

fn pure(e: Expr) -> Noted<Expr>
    ensures { result ≡ notes.pure e }
{
    Noted {
        it: e,
        note: clean(),
    }
}

#[tactic(auto, unfolding(crate::specs::Naming::unwritten))]
fn unwritten(e: Expr) -> Noted<Expr>
    ensures { result ≡ spec.unwritten e }
{
    Noted {
        it: e,
        note: breaks(Rule::Names, true),
    }
}

/// An expression.
#[cycle(naming)]
#[tactic(auto, using(crate::proofs::NamingRules::naming_rules))]
pub fn named_expr(alloc: Global, e: &Expr, s: &Scope<'_>) -> Result<Noted<Expr>, NoMemory>
    ensures { IfOk result (λ x. x ≡ trees.named_expr e.now (scope s.now)) }
{
    match e {
        Expr::Int(n) => Ok(pure(Expr::Int(*n))),
        Expr::Str(t) => Ok(pure(Expr::Str(t.copy(alloc)?))),
        Expr::Bool(b) => Ok(pure(Expr::Bool(*b))),
        Expr::Null => Ok(pure(Expr::Null)),
        Expr::Named(n) => named(alloc, n, s),
        Expr::Dotted(a, n) => qualified(alloc, a, n, s),
        Expr::Slot(i) => Ok(unwritten(Expr::Slot(*i))),
        Expr::Column(c) => Ok(unwritten(Expr::Column(*c))),
        Expr::Param(i, ty) => Ok(Noted {
            it: Expr::Param(*i, *ty),
            note: breaks(Rule::Names, s.in_function),
        }),
        Expr::Neg(a) => {
            let x = named_box(alloc, a.get(), s)?;
            Ok(Noted {
                it: Expr::Neg(x.it),
                note: x.note,
            })
        }
        Expr::NegSmall(a) => {
            let x = named_box(alloc, a.get(), s)?;
            Ok(Noted {
                it: Expr::NegSmall(x.it),
                note: x.note,
            })
        }
        Expr::Not(a) => {
            let x = named_box(alloc, a.get(), s)?;
            Ok(Noted {
                it: Expr::Not(x.it),
                note: x.note,
            })
        }
        Expr::Is(a, test, negative) => {
            let x = named_box(alloc, a.get(), s)?;
            Ok(Noted {
                it: Expr::Is(x.it, *test, *negative),
                note: x.note,
            })
        }
        Expr::Chain(first, links) => {
            let x = named_box(alloc, first.get(), s)?;
            let xs = named_links(alloc, links.as_slice(), s)?;
            Ok(Noted {
                it: Expr::Chain(x.it, xs.it),
                note: joined(x.note, xs.note),
            })
        }
        Expr::Compare(op, a, b) => {
            let x = named_box(alloc, a.get(), s)?;
            let y = named_box(alloc, b.get(), s)?;
            Ok(Noted {
                it: Expr::Compare(*op, x.it, y.it),
                note: joined(x.note, y.note),
            })
        }
        Expr::Between(negative, a, low, high) => {
            let x = named_box(alloc, a.get(), s)?;
            let y = named_box(alloc, low.get(), s)?;
            let z = named_box(alloc, high.get(), s)?;
            Ok(Noted {
                it: Expr::Between(*negative, x.it, y.it, z.it),
                note: joined(x.note, joined(y.note, z.note)),
            })
        }
        Expr::OneOf(negative, a, choices) => {
            let x = named_box(alloc, a.get(), s)?;
            let xs = named_all(alloc, choices.as_slice(), s)?;
            Ok(Noted {
                it: Expr::OneOf(*negative, x.it, xs.it),
                note: joined(x.note, xs.note),
            })
        }
        Expr::Cast(a, ty) => {
            let x = named_box(alloc, a.get(), s)?;
            Ok(Noted {
                it: Expr::Cast(x.it, *ty),
                note: x.note,
            })
        }
        Expr::Cases(arms, other) => {
            let xs = named_arms(alloc, arms.as_slice(), s)?;
            let y = named_other(alloc, other, s)?;
            Ok(Noted {
                it: Expr::Cases(xs.it, y.it),
                note: joined(xs.note, y.note),
            })
        }
        Expr::Call(name, args) => {
            let function = name.copy(alloc)?;
            let xs = named_all(alloc, args.as_slice(), s)?;
            Ok(Noted {
                it: Expr::Call(function, xs.it),
                note: joined(call_note(s, name), xs.note),
            })
        }
        Expr::CountRows => Ok(pure(Expr::CountRows)),
        Expr::Scalar(q) => {
            let x = named_subquery(alloc, q.get(), s)?;
            Ok(Noted {
                it: Expr::Scalar(x.it),
                note: x.note,
            })
        }
        Expr::Exists(q) => {
            let x = named_subquery(alloc, q.get(), s)?;
            Ok(Noted {
                it: Expr::Exists(x.it),
                note: x.note,
            })
        }
    }
}

#[cycle(naming)]
fn named_box(alloc: Global, e: &Expr, s: &Scope<'_>) -> Result<Noted<Boxed<Expr>>, NoMemory>
    ensures { IfOk result (λ x. x ≡ trees.named_expr e.now (scope s.now)) }
{
    let x = named_expr(alloc, e, s)?;
    Ok(Noted {
        it: Boxed::new(alloc, x.it)?,
        note: x.note,
    })
}

#[cycle(naming)]
fn named_subquery(alloc: Global, q: &Query, s: &Scope<'_>) -> Result<Noted<Boxed<Query>>, NoMemory>
    ensures { IfOk result (λ x. x
        ≡ notes.mapped (λ y. y.it) (trees.named_query q.now (scope s.now))) }
{
    let Noted { it, note } = named_query(alloc, q, s)?;
    let Shown { it, names: _ } = it;
    Ok(Noted {
        it: Boxed::new(alloc, it)?,
        note,
    })
}

#[cycle(naming)]
fn named_links(
    alloc: Global,
    links: &[(ChainOp, Expr)],
    s: &Scope<'_>,
) -> Result<Noted<Items<(ChainOp, Expr)>>, NoMemory>
    ensures { IfOk result (λ x. x ≡ notes.each (lists.named_link (scope s.now)) links.now) }
{
    let mut done = Items::new(alloc);
    let mut note = clean();
    for link in links {
        let x = named_expr(alloc, &link.1, s)?;
        done.push((link.0, x.it))?;
        note = joined(note, x.note);
    }
    Ok(Noted { it: done, note })
}

#[cycle(naming)]
fn named_all(alloc: Global, es: &[Expr], s: &Scope<'_>) -> Result<Noted<Items<Expr>>, NoMemory>
    ensures { IfOk result (λ x. x ≡ notes.each (lists.named_in (scope s.now)) es.now) }
{
    let mut done = Items::new(alloc);
    let mut note = clean();
    for e in es {
        let x = named_expr(alloc, e, s)?;
        done.push(x.it)?;
        note = joined(note, x.note);
    }
    Ok(Noted { it: done, note })
}

#[cycle(naming)]
fn named_arms(
    alloc: Global,
    arms: &[(Expr, Expr)],
    s: &Scope<'_>,
) -> Result<Noted<Items<(Expr, Expr)>>, NoMemory>
    ensures { IfOk result (λ x. x ≡ notes.each (lists.named_arm (scope s.now)) arms.now) }
{
    let mut done = Items::new(alloc);
    let mut note = clean();
    for arm in arms {
        let x = named_expr(alloc, &arm.0, s)?;
        let y = named_expr(alloc, &arm.1, s)?;
        done.push((x.it, y.it))?;
        note = joined(note, joined(x.note, y.note));
    }
    Ok(Noted { it: done, note })
}

#[cycle(naming)]
fn named_other(
    alloc: Global,
    other: &Option<Boxed<Expr>>,
    s: &Scope<'_>,
) -> Result<Noted<Option<Boxed<Expr>>>, NoMemory>
    ensures { IfOk result (λ x. x ≡ notes.held (lists.named_in (scope s.now)) other.now) }
{
    match other {
        None => Ok(Noted {
            it: None,
            note: clean(),
        }),
        Some(e) => {
            let x = named_box(alloc, e.get(), s)?;
            Ok(Noted {
                it: Some(x.it),
                note: x.note,
            })
        }
    }
}

#[cycle(naming)]
pub fn named_maybe(
    alloc: Global,
    e: &Option<Expr>,
    s: &Scope<'_>,
) -> Result<Noted<Option<Expr>>, NoMemory>
    ensures { IfOk result (λ x. x ≡ notes.held (lists.named_in (scope s.now)) e.now) }
{
    match e {
        None => Ok(Noted {
            it: None,
            note: clean(),
        }),
        Some(e) => {
            let x = named_expr(alloc, e, s)?;
            Ok(Noted {
                it: Some(x.it),
                note: x.note,
            })
        }
    }
}
