//! What breaks a rule of names in an expression.

ghost use Rattle.std.specs.Prelude.{IfOk, IfSome};
ghost use Rattle.away_names.specs.Places.{scope};
ghost use Rattle.broken_names.specs.Holds.{Holds, InArm, InOne, of_expr, of_maybe};

use crate::culprit::Culprit;
use crate::queries::in_query;
use crate::single_names::{breaks_call, breaks_parameter, broken_column, broken_name};
use away_names::rule::Rule;
use away_names::scope::Scope;
use away_trees::Expr;
use away_values::{ChainOp, NoMemory};
use sqlite_items::Boxed;
use std::alloc::Global;

/// The first of an expression that breaks the rule.
#[cycle(culprits)]
pub(crate) fn in_expr(
    alloc: Global,
    broken: Rule,
    e: &Expr,
    s: &Scope<'_>,
) -> Result<Option<Culprit>, NoMemory>
    ensures { IfOk result (λ found. IfSome found (Holds broken (scope s.now) (of_expr e.now))) }
{
    match e {
        Expr::Named(n) => broken_name(alloc, broken, n, s),
        Expr::Dotted(a, n) => broken_column(alloc, broken, a, n, s),
        Expr::Param(i, _) => {
            if breaks_parameter(broken, s) {
                Ok(Some(Culprit::Parameter(*i)))
            } else {
                Ok(None)
            }
        }
        Expr::Int(_) | Expr::Str(_) | Expr::Bool(_) | Expr::Null | Expr::CountRows => Ok(None),
        Expr::Slot(_) | Expr::Column(_) => Ok(None),
        Expr::Neg(a) => in_expr(alloc, broken, a.get(), s),
        Expr::NegSmall(a) => in_expr(alloc, broken, a.get(), s),
        Expr::Not(a) => in_expr(alloc, broken, a.get(), s),
        Expr::Is(a, _, _) => in_expr(alloc, broken, a.get(), s),
        Expr::Cast(a, _) => in_expr(alloc, broken, a.get(), s),
        Expr::Chain(first, links) => match in_expr(alloc, broken, first.get(), s)? {
            Some(found) => Ok(Some(found)),
            None => in_links(alloc, broken, links.as_slice(), s),
        },
        Expr::Compare(_, a, b) => match in_expr(alloc, broken, a.get(), s)? {
            Some(found) => Ok(Some(found)),
            None => in_expr(alloc, broken, b.get(), s),
        },
        Expr::Between(_, a, low, high) => match in_expr(alloc, broken, a.get(), s)? {
            Some(found) => Ok(Some(found)),
            None => match in_expr(alloc, broken, low.get(), s)? {
                Some(found) => Ok(Some(found)),
                None => in_expr(alloc, broken, high.get(), s),
            },
        },
        Expr::OneOf(_, a, choices) => match in_expr(alloc, broken, a.get(), s)? {
            Some(found) => Ok(Some(found)),
            None => in_exprs(alloc, broken, choices.as_slice(), s),
        },
        Expr::Cases(arms, other) => match in_arms(alloc, broken, arms.as_slice(), s)? {
            Some(found) => Ok(Some(found)),
            None => in_other(alloc, broken, other, s),
        },
        Expr::Call(name, arguments) => {
            if breaks_call(broken, name, s) {
                return Ok(Some(Culprit::Function(name.copy(alloc)?)));
            }
            in_exprs(alloc, broken, arguments.as_slice(), s)
        }
        Expr::Scalar(q) => in_query(alloc, broken, q.get(), s),
        Expr::Exists(q) => in_query(alloc, broken, q.get(), s),
    }
}

/// The same of a list.
#[cycle(culprits)]
fn in_exprs(
    alloc: Global,
    broken: Rule,
    es: &[Expr],
    s: &Scope<'_>,
) -> Result<Option<Culprit>, NoMemory>
    ensures { IfOk result (λ found. IfSome found (InOne of_expr broken (scope s.now) es.now)) }
{
    for e in es {
        if let Some(found) = in_expr(alloc, broken, e, s)? {
            return Ok(Some(found));
        }
    }
    Ok(None)
}

/// The same of the links of a chain.
#[cycle(culprits)]
fn in_links(
    alloc: Global,
    broken: Rule,
    links: &[(ChainOp, Expr)],
    s: &Scope<'_>,
) -> Result<Option<Culprit>, NoMemory>
    ensures { IfOk result (λ found. IfSome found (InOne (λ l. of_expr l.1) broken (scope s.now) links.now)) }
{
    for link in links {
        if let Some(found) = in_expr(alloc, broken, &link.1, s)? {
            return Ok(Some(found));
        }
    }
    Ok(None)
}

/// The same of the arms of a CASE.
#[cycle(culprits)]
fn in_arms(
    alloc: Global,
    broken: Rule,
    arms: &[(Expr, Expr)],
    s: &Scope<'_>,
) -> Result<Option<Culprit>, NoMemory>
    ensures { IfOk result (λ found. IfSome found (InArm broken (scope s.now) arms.now)) }
{
    for arm in arms {
        if let Some(found) = in_expr(alloc, broken, &arm.0, s)? {
            return Ok(Some(found));
        }
        if let Some(found) = in_expr(alloc, broken, &arm.1, s)? {
            return Ok(Some(found));
        }
    }
    Ok(None)
}

/// The same of what stands behind ELSE.
#[cycle(culprits)]
fn in_other(
    alloc: Global,
    broken: Rule,
    other: &Option<Boxed<Expr>>,
    s: &Scope<'_>,
) -> Result<Option<Culprit>, NoMemory>
    ensures { IfOk result (λ found. IfSome found (Holds broken (scope s.now) (of_maybe other.now))) }
{
    match other {
        None => Ok(None),
        Some(e) => in_expr(alloc, broken, e.get(), s),
    }
}

/// The same of an expression, where one stands.
#[cycle(culprits)]
pub(crate) fn in_maybe(
    alloc: Global,
    broken: Rule,
    e: &Option<Expr>,
    s: &Scope<'_>,
) -> Result<Option<Culprit>, NoMemory>
    ensures { IfOk result (λ found. IfSome found (Holds broken (scope s.now) (of_maybe e.now))) }
{
    match e {
        None => Ok(None),
        Some(e) => in_expr(alloc, broken, e, s),
    }
}
