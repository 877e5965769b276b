//! The calls of a function in the list of a select.

ghost use Rattle.std.specs.Prelude.{◌≡◌, [], IfOk};
ghost use Rattle.away_trees.specs.declared.queries.Expr.TheVariants as expr;
ghost use Rattle.inline_calls.specs.Parting as spec;

use away_core::Copied;
use away_names::listings::copy_alias;
use away_names::lookups::narrow;
use away_trees::{Expr, Item};
use away_values::{ChainOp, Name, NoMemory};
use sqlite_items::{Boxed, Items};
use std::alloc::Global;

/// An expression with a slot in the place of each call, where the calls so far are these.
#[cycle(parting)]
#[tactic(auto, using(crate::proofs::PartingRules::leaf_rules))]
pub(crate) fn parted(
    alloc: Global,
    f: &Name,
    e: &Expr,
    calls: &mut Items<Items<Expr>>,
) -> Result<Expr, NoMemory>
    ensures { IfOk result (λ x. record { it = x; calls = calls.new }
        ≡ spec.parted f.now e.now calls.old) }
{
    match e {
        Expr::Int(n) => Ok(Expr::Int(*n)),
        Expr::Str(t) => Ok(Expr::Str(t.copy(alloc)?)),
        Expr::Bool(b) => Ok(Expr::Bool(*b)),
        Expr::Null => Ok(Expr::Null),
        Expr::Named(n) => Ok(Expr::Named(n.copy(alloc)?)),
        Expr::Dotted(a, n) => Ok(Expr::Dotted(a.copy(alloc)?, n.copy(alloc)?)),
        Expr::Slot(i) => Ok(Expr::Slot(*i)),
        Expr::Column(c) => Ok(Expr::Column(*c)),
        Expr::Param(i, ty) => Ok(Expr::Param(*i, *ty)),
        Expr::CountRows => Ok(Expr::CountRows),
        Expr::Scalar(q) => Ok(Expr::Scalar(Boxed::new(alloc, q.get().copy(alloc)?)?)),
        Expr::Exists(q) => Ok(Expr::Exists(Boxed::new(alloc, q.get().copy(alloc)?)?)),
        Expr::Neg(_) | Expr::NegSmall(_) | Expr::Not(_) | Expr::Is(_, _, _) | Expr::Cast(_, _) => {
            with_part(alloc, f, e, calls)
        }
        Expr::Chain(_, _)
        | Expr::Compare(_, _, _)
        | Expr::Between(_, _, _, _)
        | Expr::OneOf(_, _, _)
        | Expr::Cases(_, _) => with_parts(alloc, f, e, calls),
        Expr::Call(name, args) => parted_call(alloc, f, name, args.as_slice(), calls),
    }
}

/// An expression with one part.
#[cycle(parting)]
#[tactic(auto, using(crate::proofs::PartingRules::part_rules))]
fn with_part(
    alloc: Global,
    f: &Name,
    e: &Expr,
    calls: &mut Items<Items<Expr>>,
) -> Result<Expr, NoMemory>
    ensures { IfOk result (λ x. record { it = x; calls = calls.new }
        ≡ spec.parted f.now e.now calls.old) }
{
    match e {
        Expr::Neg(a) => Ok(Expr::Neg(parted_box(alloc, f, a.get(), calls)?)),
        Expr::NegSmall(a) => Ok(Expr::NegSmall(parted_box(alloc, f, a.get(), calls)?)),
        Expr::Not(a) => Ok(Expr::Not(parted_box(alloc, f, a.get(), calls)?)),
        Expr::Is(a, test, negative) => {
            Ok(Expr::Is(parted_box(alloc, f, a.get(), calls)?, *test, *negative))
        }
        Expr::Cast(a, ty) => Ok(Expr::Cast(parted_box(alloc, f, a.get(), calls)?, *ty)),
        _ => Err(NoMemory),
    }
}

/// An expression with several parts.
#[cycle(parting)]
#[tactic(auto, using(crate::proofs::PartingRules::parts_rules))]
fn with_parts(
    alloc: Global,
    f: &Name,
    e: &Expr,
    calls: &mut Items<Items<Expr>>,
) -> Result<Expr, NoMemory>
    ensures { IfOk result (λ x. record { it = x; calls = calls.new }
        ≡ spec.parted f.now e.now calls.old) }
{
    match e {
        Expr::Chain(first, links) => {
            let x = parted_box(alloc, f, first.get(), calls)?;
            let xs = parted_links(alloc, f, links.as_slice(), calls)?;
            Ok(Expr::Chain(x, xs))
        }
        Expr::Compare(op, a, b) => {
            let x = parted_box(alloc, f, a.get(), calls)?;
            let y = parted_box(alloc, f, b.get(), calls)?;
            Ok(Expr::Compare(*op, x, y))
        }
        Expr::Between(negative, a, low, high) => {
            let x = parted_box(alloc, f, a.get(), calls)?;
            let y = parted_box(alloc, f, low.get(), calls)?;
            let z = parted_box(alloc, f, high.get(), calls)?;
            Ok(Expr::Between(*negative, x, y, z))
        }
        Expr::OneOf(negative, a, choices) => {
            let x = parted_box(alloc, f, a.get(), calls)?;
            let xs = parted_all(alloc, f, choices.as_slice(), calls)?;
            Ok(Expr::OneOf(*negative, x, xs))
        }
        Expr::Cases(arms, other) => {
            let xs = parted_arms(alloc, f, arms.as_slice(), calls)?;
            let y = parted_other(alloc, f, other, calls)?;
            Ok(Expr::Cases(xs, y))
        }
        _ => Err(NoMemory),
    }
}

/// A call: the next one, or one of another function.
#[cycle(parting)]
#[tactic(auto, using(crate::proofs::PartingRules::call_is))]
fn parted_call(
    alloc: Global,
    f: &Name,
    name: &Name,
    args: &[Expr],
    calls: &mut Items<Items<Expr>>,
) -> Result<Expr, NoMemory>
    ensures { IfOk result (λ x. record { it = x; calls = calls.new }
        ≡ spec.parted f.now (expr.Call name.now args.now) calls.old) }
{
    if name.text() == f.text() {
        next_call(alloc, args, calls)
    } else {
        let function = name.copy(alloc)?;
        Ok(Expr::Call(function, parted_all(alloc, f, args, calls)?))
    }
}

#[cycle(parting)]
fn parted_box(
    alloc: Global,
    f: &Name,
    e: &Expr,
    calls: &mut Items<Items<Expr>>,
) -> Result<Boxed<Expr>, NoMemory>
    ensures { IfOk result (λ x. record { it = x; calls = calls.new }
        ≡ spec.parted f.now e.now calls.old) }
{
    Ok(Boxed::new(alloc, parted(alloc, f, e, calls)?)?)
}

#[cycle(parting)]
fn parted_all(
    alloc: Global,
    f: &Name,
    es: &[Expr],
    calls: &mut Items<Items<Expr>>,
) -> Result<Items<Expr>, NoMemory>
    ensures { IfOk result (λ xs. record { it = xs; calls = calls.new }
        ≡ spec.parted_all f.now es.now calls.old) }
{
    let mut done = Items::new(alloc);
    for e in es {
        done.push(parted(alloc, f, e, calls)?)?;
    }
    Ok(done)
}

#[cycle(parting)]
fn parted_links(
    alloc: Global,
    f: &Name,
    links: &[(ChainOp, Expr)],
    calls: &mut Items<Items<Expr>>,
) -> Result<Items<(ChainOp, Expr)>, NoMemory>
    ensures { IfOk result (λ xs. record { it = xs; calls = calls.new }
        ≡ spec.parted_links f.now links.now calls.old) }
{
    let mut done = Items::new(alloc);
    for link in links {
        done.push((link.0, parted(alloc, f, &link.1, calls)?))?;
    }
    Ok(done)
}

#[cycle(parting)]
fn parted_arms(
    alloc: Global,
    f: &Name,
    arms: &[(Expr, Expr)],
    calls: &mut Items<Items<Expr>>,
) -> Result<Items<(Expr, Expr)>, NoMemory>
    ensures { IfOk result (λ xs. record { it = xs; calls = calls.new }
        ≡ spec.parted_arms f.now arms.now calls.old) }
{
    let mut done = Items::new(alloc);
    for arm in arms {
        let x = parted(alloc, f, &arm.0, calls)?;
        let y = parted(alloc, f, &arm.1, calls)?;
        done.push((x, y))?;
    }
    Ok(done)
}

#[cycle(parting)]
fn parted_other(
    alloc: Global,
    f: &Name,
    other: &Option<Boxed<Expr>>,
    calls: &mut Items<Items<Expr>>,
) -> Result<Option<Boxed<Expr>>, NoMemory>
    ensures { IfOk result (λ x. record { it = x; calls = calls.new }
        ≡ spec.parted_maybe f.now other.now calls.old) }
{
    match other {
        None => Ok(None),
        Some(e) => Ok(Some(parted_box(alloc, f, e.get(), calls)?)),
    }
}

pub(crate) fn copied_exprs(alloc: Global, es: &[Expr]) -> Result<Items<Expr>, NoMemory>
    ensures { IfOk result (λ xs. xs ≡ es.now) }
{
    let mut done = Items::new(alloc);
    for e in es {
        done.push(e.copy(alloc)?)?;
    }
    Ok(done)
}

/// The next call.
fn next_call(alloc: Global, args: &[Expr], calls: &mut Items<Items<Expr>>) -> Result<Expr, NoMemory>
    ensures { IfOk result (λ x. record { it = x; calls = calls.new }
        ≡ spec.next_call args.now calls.old) }
{
    let place = narrow(calls.len())?;
    calls.push(copied_exprs(alloc, args)?)?;
    Ok(Expr::Slot(place))
}

fn parted_item(
    alloc: Global,
    f: &Name,
    i: &Item,
    calls: &mut Items<Items<Expr>>,
) -> Result<Item, NoMemory>
    ensures { IfOk result (λ x. record { it = x; calls = calls.new }
        ≡ spec.parted_item f.now i.now calls.old) }
{
    let expr = parted(alloc, f, &i.expr, calls)?;
    let alias = copy_alias(alloc, &i.alias)?;
    Ok(Item { expr, alias })
}

fn parted_items(
    alloc: Global,
    f: &Name,
    list: &[Item],
    calls: &mut Items<Items<Expr>>,
) -> Result<Items<Item>, NoMemory>
    ensures { IfOk result (λ xs. record { it = xs; calls = calls.new }
        ≡ spec.parted_items f.now list.now calls.old) }
{
    let mut done = Items::new(alloc);
    for i in list {
        done.push(parted_item(alloc, f, i, calls)?)?;
    }
    Ok(done)
}

/// A list with slots in the places of its calls, and these.
#[derive(Drop)]
pub(crate) struct PartedList {
    pub list: Items<Item>,
    pub calls: Items<Items<Expr>>,
}

/// The calls of a function in a list.
pub(crate) fn parted_list(alloc: Global, f: &Name, list: &[Item]) -> Result<PartedList, NoMemory>
    ensures { IfOk result (λ x. record { it = x.list; calls = x.calls }
        ≡ spec.parted_items f.now list.now []) }
{
    let mut calls = Items::new(alloc);
    let list = parted_items(alloc, f, list, &mut calls)?;
    Ok(PartedList { list, calls })
}
