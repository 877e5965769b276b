//! Expressions with their operations marked, and their types.

ghost use Rattle.std.specs.Prelude.{◌≡◌, IfOk};
ghost use Rattle.elaboration.specs.Elaborating as spec;
ghost use Rattle.elaboration.specs.ElaboratingLists as lists;
ghost use Rattle.away_typing.specs.TypingLists.{places};

use crate::elaborating_queries::elaborated_query;
use crate::made::{Made, MadeAll, MadeArms, MadeMaybe, Shaped};
use crate::marks::{marked_op, negated};
use crate::parts::{made, truth};
use away_names::function::function;
use away_trees::{Expr, Query};
use away_typing::kind::{Kind, fits, is_right, meet, only_if, settled};
use away_typing::operands::{
    cast_kind, column, common, exists_kind, kind_of_call, pair, passed, scalar_kind, slot,
};
use away_typing::types::Places;
use away_values::{ChainOp, NoMemory, Ty, literal_type};
use sqlite_items::{Boxed, Items};
use std::alloc::Global;

/// An expression. An operation on integers alone is marked as one of 32 bits, and no other is.
#[cycle(elaborating)]
#[tactic(auto, using(crate::proofs::ElaboratingRules::elaborating_rules))]
pub fn elaborated(alloc: Global, e: &Expr, p: &Places<'_>) -> Result<Made<Expr>, NoMemory>
    ensures { IfOk result (λ x. x ≡ spec.elaborated (places p.now) e.now) }
{
    match e {
        Expr::Int(n) => Ok(made(Kind::Of(literal_type(*n)), Expr::Int(*n))),
        Expr::Str(t) => Ok(made(Kind::Of(Ty::Text), Expr::Str(t.copy(alloc)?))),
        Expr::Bool(b) => Ok(made(Kind::Of(Ty::Boolean), Expr::Bool(*b))),
        Expr::Null => Ok(made(Kind::Null, Expr::Null)),
        Expr::Named(n) => Ok(made(Kind::Wrong, Expr::Named(n.copy(alloc)?))),
        Expr::Dotted(a, n) => Ok(made(Kind::Wrong, Expr::Dotted(a.copy(alloc)?, n.copy(alloc)?))),
        Expr::Slot(i) => Ok(made(slot(*i, p), Expr::Slot(*i))),
        Expr::Column(c) => Ok(made(column(*c, p), Expr::Column(*c))),
        Expr::Param(i, ty) => Ok(made(Kind::Of(*ty), Expr::Param(*i, *ty))),
        Expr::CountRows => Ok(made(Kind::Of(Ty::Bigint), Expr::CountRows)),
        Expr::Neg(a) => Ok(negated(made_box(alloc, a.get(), p)?)),
        Expr::NegSmall(a) => Ok(negated(made_box(alloc, a.get(), p)?)),
        Expr::Not(a) => {
            let x = made_box(alloc, a.get(), p)?;
            Ok(truth(fits(Ty::Boolean, x.kind), Expr::Not(x.it)))
        }
        Expr::Is(a, test, negative) => {
            let x = made_box(alloc, a.get(), p)?;
            Ok(truth(passed(*test, x.kind), Expr::Is(x.it, *test, *negative)))
        }
        Expr::Chain(first, links) => {
            let x = made_box(alloc, first.get(), p)?;
            let xs = made_links(alloc, x.kind, links.as_slice(), p)?;
            Ok(made(xs.kind, Expr::Chain(x.it, xs.it)))
        }
        Expr::Compare(op, a, b) => {
            let x = made_box(alloc, a.get(), p)?;
            let y = made_box(alloc, b.get(), p)?;
            Ok(truth(
                is_right(meet(x.kind, y.kind)),
                Expr::Compare(*op, x.it, y.it),
            ))
        }
        Expr::Between(negative, a, low, high) => {
            let x = made_box(alloc, a.get(), p)?;
            let y = made_box(alloc, low.get(), p)?;
            let z = made_box(alloc, high.get(), p)?;
            Ok(truth(
                is_right(meet(meet(x.kind, y.kind), z.kind)),
                Expr::Between(*negative, x.it, y.it, z.it),
            ))
        }
        Expr::OneOf(negative, a, choices) => {
            let x = made_box(alloc, a.get(), p)?;
            let xs = made_all(alloc, choices.as_slice(), p)?;
            Ok(truth(
                is_right(meet(x.kind, common(xs.kinds.as_slice()))),
                Expr::OneOf(*negative, x.it, xs.it),
            ))
        }
        Expr::Cast(a, ty) => {
            let x = made_box(alloc, a.get(), p)?;
            Ok(made(cast_kind(*ty, x.kind), Expr::Cast(x.it, *ty)))
        }
        Expr::Cases(arms, other) => {
            let xs = made_arms(alloc, arms.as_slice(), p)?;
            let y = made_other(alloc, other, p)?;
            let k = settled(meet(common(xs.kinds.as_slice()), y.kind));
            Ok(made(only_if(xs.tested, k), Expr::Cases(xs.it, y.it)))
        }
        Expr::Call(name, args) => {
            let called = name.copy(alloc)?;
            let xs = made_all(alloc, args.as_slice(), p)?;
            let k = kind_of_call(function(name), xs.kinds.as_slice());
            Ok(made(k, Expr::Call(called, xs.it)))
        }
        Expr::Scalar(q) => {
            let x = made_subquery(alloc, q.get(), p)?;
            Ok(made(scalar_kind(&x.shape), Expr::Scalar(x.it)))
        }
        Expr::Exists(q) => {
            let x = made_subquery(alloc, q.get(), p)?;
            Ok(made(exists_kind(&x.shape), Expr::Exists(x.it)))
        }
    }
}

#[cycle(elaborating)]
fn made_box(alloc: Global, e: &Expr, p: &Places<'_>) -> Result<Made<Boxed<Expr>>, NoMemory>
    ensures { IfOk result (λ x. x ≡ spec.elaborated (places p.now) e.now) }
{
    let x = elaborated(alloc, e, p)?;
    Ok(Made {
        kind: x.kind,
        it: Boxed::new(alloc, x.it)?,
    })
}

#[cycle(elaborating)]
fn made_subquery(alloc: Global, q: &Query, p: &Places<'_>) -> Result<Shaped<Boxed<Query>>, NoMemory>
    ensures { IfOk result (λ x. x ≡ spec.elaborated_query (places p.now) q.now) }
{
    let Shaped { shape, it } = elaborated_query(alloc, q, p)?;
    Ok(Shaped {
        shape,
        it: Boxed::new(alloc, it)?,
    })
}

/// The links of a chain, each marked by what stands to its left, and the type of the whole.
#[cycle(elaborating)]
fn made_links(
    alloc: Global,
    first: Kind,
    links: &[(ChainOp, Expr)],
    p: &Places<'_>,
) -> Result<Made<Items<(ChainOp, Expr)>>, NoMemory>
    ensures { IfOk result (λ x. x ≡ record {
      kind = spec.chain_kind (lists.links_in (places p.now) first links.now) first;
      it = spec.link_trees (lists.links_in (places p.now) first links.now);
    }) }
{
    let mut done = Items::new(alloc);
    let mut k = first;
    for link in links {
        let x = elaborated(alloc, &link.1, p)?;
        let op = marked_op(link.0, k, x.kind);
        k = pair(op, k, x.kind);
        done.push((op, x.it))?;
    }
    Ok(Made { kind: k, it: done })
}

#[cycle(elaborating)]
fn made_all(alloc: Global, es: &[Expr], p: &Places<'_>) -> Result<MadeAll<Items<Expr>>, NoMemory>
    ensures { IfOk result (λ x. x ≡ record {
      kinds = spec.kinds_of (lists.made_in (places p.now) es.now);
      it = spec.trees_of (lists.made_in (places p.now) es.now);
    }) }
{
    let mut kinds = Items::new(alloc);
    let mut done = Items::new(alloc);
    for e in es {
        let x = elaborated(alloc, e, p)?;
        kinds.push(x.kind)?;
        done.push(x.it)?;
    }
    Ok(MadeAll { kinds, it: done })
}

#[cycle(elaborating)]
fn made_arms(alloc: Global, arms: &[(Expr, Expr)], p: &Places<'_>) -> Result<MadeArms, NoMemory>
    ensures { IfOk result (λ x. x ≡ record {
      tested = spec.tested (lists.arms_in (places p.now) arms.now);
      kinds = spec.value_kinds (lists.arms_in (places p.now) arms.now);
      it = spec.arm_trees (lists.arms_in (places p.now) arms.now);
    }) }
{
    let mut all = true;
    let mut kinds = Items::new(alloc);
    let mut done = Items::new(alloc);
    for arm in arms {
        let x = elaborated(alloc, &arm.0, p)?;
        let y = elaborated(alloc, &arm.1, p)?;
        all = all && fits(Ty::Boolean, x.kind);
        kinds.push(y.kind)?;
        done.push((x.it, y.it))?;
    }
    Ok(MadeArms {
        tested: all,
        kinds,
        it: done,
    })
}

/// What stands behind ELSE, or else NULL.
#[cycle(elaborating)]
fn made_other(
    alloc: Global,
    other: &Option<Boxed<Expr>>,
    p: &Places<'_>,
) -> Result<Made<Option<Boxed<Expr>>>, NoMemory>
    ensures { IfOk result (λ x. x ≡ record {
      kind = spec.other_kind (lists.maybe_in (places p.now) other.now);
      it = spec.option_tree (lists.maybe_in (places p.now) other.now);
    }) }
{
    match other {
        None => Ok(Made {
            kind: Kind::Null,
            it: None,
        }),
        Some(e) => {
            let x = made_box(alloc, e.get(), p)?;
            Ok(Made {
                kind: x.kind,
                it: Some(x.it),
            })
        }
    }
}

#[cycle(elaborating)]
pub fn made_maybe(alloc: Global, e: &Option<Expr>, p: &Places<'_>) -> Result<MadeMaybe, NoMemory>
    ensures { IfOk result (λ x. x ≡ record {
      kind = spec.option_kind (lists.maybe_in (places p.now) e.now);
      it = spec.option_tree (lists.maybe_in (places p.now) e.now);
    }) }
{
    match e {
        None => Ok(MadeMaybe {
            kind: None,
            it: None,
        }),
        Some(e) => {
            let x = elaborated(alloc, e, p)?;
            Ok(MadeMaybe {
                kind: Some(x.kind),
                it: Some(x.it),
            })
        }
    }
}
