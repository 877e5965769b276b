//! Whether an expression has what is looked for.

ghost use Rattle.std.specs.Prelude.{◌≡◌};
ghost use Rattle.std.specs.List.{list_any};
ghost use Rattle.moved_names.specs.Finding as spec;
ghost use Rattle.moved_names.specs.Seeking.{sought};

use crate::finding_queries::in_query;
use crate::sought::{Sought, is_called, is_word};
use away_trees::Expr;
use away_values::ChainOp;
use sqlite_items::Boxed;

#[cycle(finding)]
#[tactic(auto, using(crate::proofs::FindingRules::finding_rules))]
pub fn in_expr(s: Sought<'_>, e: &Expr) -> bool
    ensures { result ≡ spec.in_expr (sought s.entry) e.now }
{
    match e {
        Expr::Int(_)
        | Expr::Str(_)
        | Expr::Bool(_)
        | Expr::Null
        | Expr::Slot(_)
        | Expr::Column(_)
        | Expr::Param(_, _)
        | Expr::CountRows => false,
        Expr::Named(n) => is_word(s, n),
        Expr::Dotted(a, n) => is_word(s, a) || is_word(s, n),
        Expr::Neg(a) | Expr::NegSmall(a) | Expr::Not(a) => in_expr(s, a.get()),
        Expr::Is(a, _, _) => in_expr(s, a.get()),
        Expr::Cast(a, _) => in_expr(s, a.get()),
        Expr::Chain(a, links) => in_expr(s, a.get()) || in_links(s, links.as_slice()),
        Expr::Compare(_, a, b) => in_expr(s, a.get()) || in_expr(s, b.get()),
        Expr::Between(_, a, low, high) => {
            in_expr(s, a.get()) || (in_expr(s, low.get()) || in_expr(s, high.get()))
        }
        Expr::OneOf(_, a, choices) => in_expr(s, a.get()) || in_exprs(s, choices.as_slice()),
        Expr::Cases(arms, other) => in_arms(s, arms.as_slice()) || in_other(s, other),
        Expr::Call(name, args) => is_called(s, name) || in_exprs(s, args.as_slice()),
        Expr::Scalar(q) | Expr::Exists(q) => in_query(s, q.get()),
    }
}

#[cycle(finding)]
pub fn in_exprs(s: Sought<'_>, list: &[Expr]) -> bool
    ensures { result ≡ list_any (spec.in_expr (sought s.entry)) list.now }
{
    for e in list {
        if in_expr(s, e) {
            return true;
        }
    }
    false
}

#[cycle(finding)]
fn in_links(s: Sought<'_>, list: &[(ChainOp, Expr)]) -> bool
    ensures { result ≡ list_any (spec.in_link (sought s.entry)) list.now }
{
    for link in list {
        if in_expr(s, &link.1) {
            return true;
        }
    }
    false
}

#[cycle(finding)]
fn in_arms(s: Sought<'_>, list: &[(Expr, Expr)]) -> bool
    ensures { result ≡ list_any (spec.in_arm (sought s.entry)) list.now }
{
    for arm in list {
        if in_expr(s, &arm.0) || in_expr(s, &arm.1) {
            return true;
        }
    }
    false
}

#[cycle(finding)]
fn in_other(s: Sought<'_>, other: &Option<Boxed<Expr>>) -> bool
    ensures { result ≡ spec.holds (spec.in_expr (sought s.entry)) other.now }
{
    match other {
        None => false,
        Some(e) => in_expr(s, e.get()),
    }
}

#[cycle(finding)]
pub fn in_maybe(s: Sought<'_>, e: &Option<Expr>) -> bool
    ensures { result ≡ spec.holds (spec.in_expr (sought s.entry)) e.now }
{
    match e {
        None => false,
        Some(e) => in_expr(s, e),
    }
}
