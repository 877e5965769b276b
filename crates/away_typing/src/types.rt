//! The types of trees whose names are resolved.

ghost use Rattle.std.specs.Prelude.{◌≡◌, IfOk, map, ◌∷◌, []};
ghost use Rattle.away_trees.specs.declared.queries.Select.{out-Select};
ghost use Rattle.away_typing.specs.Kinds as kinds;
ghost use Rattle.away_typing.specs.Trees as trees;
ghost use Rattle.away_typing.specs.Typing as spec;
ghost use Rattle.away_typing.specs.Typing.{inside};
ghost use Rattle.away_typing.specs.TypingLists as lists;
ghost use Rattle.away_typing.specs.TypingLists.{places};

use crate::kind::{Kind, fits, is_integer, is_number, is_right, meet, only_if, settled};
use crate::operands::{
    cast_kind, column, common, exists_kind, kind_of_call, kind_or_null, pair, passed, scalar_kind,
    slot,
};
use crate::shapes::{
    before, further, listed, nested, or_none, select_kinds, table_shape, types_of,
};
use away_names::function::function;
use away_trees::{Expr, FromItem, Item, Key, Query, Select, Source};
use away_values::{ChainOp, Name, NoMemory, Ty, literal_type};
use sqlite_items::{Boxed, Items};
use std::alloc::Global;

/// Where an expression stands: the types of the variables, of the columns of the FROM items around it, and of the tables.
#[derive(Clone, Copy)]
pub struct Places<'a> {
    pub slots: &'a [Ty],
    /// The innermost select comes first.
    pub frames: &'a [&'a Items<Items<Ty>>],
    pub tables: &'a [Items<Ty>],
}

/// The kind of an expression.
#[cycle(types)]
#[tactic(auto, using(crate::proofs::TypingRules::kind_rules))]
pub fn kind(alloc: Global, e: &Expr, p: &Places<'_>) -> Result<Kind, NoMemory>
    ensures { IfOk result (λ k. k ≡ trees.kind_of e.now (places p.now)) }
{
    match e {
        Expr::Int(n) => Ok(Kind::Of(literal_type(*n))),
        Expr::Str(_) => Ok(Kind::Of(Ty::Text)),
        Expr::Bool(_) => Ok(Kind::Of(Ty::Boolean)),
        Expr::Null => Ok(Kind::Null),
        Expr::Named(_) => Ok(Kind::Wrong),
        Expr::Dotted(_, _) => Ok(Kind::Wrong),
        Expr::Slot(i) => Ok(slot(*i, p)),
        Expr::Column(c) => Ok(column(*c, p)),
        Expr::Param(_, ty) => Ok(Kind::Of(*ty)),
        Expr::CountRows => Ok(Kind::Of(Ty::Bigint)),
        Expr::Neg(a) => {
            let k = kind(alloc, a.get(), p)?;
            Ok(only_if(is_number(k) && !is_integer(k), Kind::Of(Ty::Bigint)))
        }
        Expr::NegSmall(a) => {
            let k = kind(alloc, a.get(), p)?;
            Ok(only_if(is_integer(k), Kind::Of(Ty::Integer)))
        }
        Expr::Not(a) => {
            let k = kind(alloc, a.get(), p)?;
            Ok(only_if(fits(Ty::Boolean, k), Kind::Of(Ty::Boolean)))
        }
        Expr::Is(a, test, _) => {
            let k = kind(alloc, a.get(), p)?;
            Ok(only_if(passed(*test, k), Kind::Of(Ty::Boolean)))
        }
        Expr::Chain(first, links) => {
            let k = kind(alloc, first.get(), p)?;
            chained(alloc, k, links.as_slice(), p)
        }
        Expr::Compare(_, a, b) => {
            let k = kind(alloc, a.get(), p)?;
            let j = kind(alloc, b.get(), p)?;
            Ok(only_if(is_right(meet(k, j)), Kind::Of(Ty::Boolean)))
        }
        Expr::Between(_, a, low, high) => {
            let k = kind(alloc, a.get(), p)?;
            let j = kind(alloc, low.get(), p)?;
            let i = kind(alloc, high.get(), p)?;
            Ok(only_if(is_right(meet(meet(k, j), i)), Kind::Of(Ty::Boolean)))
        }
        Expr::OneOf(_, a, choices) => {
            let k = kind(alloc, a.get(), p)?;
            let ks = kinds(alloc, choices.as_slice(), p)?;
            Ok(only_if(
                is_right(meet(k, common(ks.as_slice()))),
                Kind::Of(Ty::Boolean),
            ))
        }
        Expr::Cast(a, ty) => {
            let k = kind(alloc, a.get(), p)?;
            Ok(cast_kind(*ty, k))
        }
        Expr::Cases(arms, other) => {
            let tested = tested(alloc, arms.as_slice(), p)?;
            let ks = values(alloc, arms.as_slice(), p)?;
            let k = other_kind(alloc, other, p)?;
            Ok(only_if(
                tested,
                settled(meet(common(ks.as_slice()), kind_or_null(k))),
            ))
        }
        Expr::Call(name, args) => {
            let ks = kinds(alloc, args.as_slice(), p)?;
            Ok(kind_of_call(function(name), ks.as_slice()))
        }
        Expr::Scalar(q) => {
            let shape = query_shape(alloc, q.get(), p)?;
            Ok(scalar_kind(&shape))
        }
        Expr::Exists(q) => {
            let shape = query_shape(alloc, q.get(), p)?;
            Ok(exists_kind(&shape))
        }
    }
}

#[cycle(types)]
fn chained(
    alloc: Global,
    first: Kind,
    links: &[(ChainOp, Expr)],
    p: &Places<'_>,
) -> Result<Kind, NoMemory>
    ensures { IfOk result (λ k. k ≡ lists.chain_kind (places p.now) links.now first) }
{
    let mut k = first;
    for link in links {
        let j = kind(alloc, &link.1, p)?;
        k = pair(link.0, k, j);
    }
    Ok(k)
}

#[cycle(types)]
fn kinds(alloc: Global, es: &[Expr], p: &Places<'_>) -> Result<Items<Kind>, NoMemory>
    ensures { IfOk result (λ ks. ks ≡ lists.kinds_in (places p.now) es.now) }
{
    let mut done = Items::new(alloc);
    for e in es {
        done.push(kind(alloc, e, p)?)?;
    }
    Ok(done)
}

#[cycle(types)]
fn tested(alloc: Global, arms: &[(Expr, Expr)], p: &Places<'_>) -> Result<bool, NoMemory>
    ensures { IfOk result (λ b. b ≡ lists.tested_in (places p.now) arms.now) }
{
    let mut all = true;
    for arm in arms {
        let k = kind(alloc, &arm.0, p)?;
        all = all && fits(Ty::Boolean, k);
    }
    Ok(all)
}

#[cycle(types)]
fn values(alloc: Global, arms: &[(Expr, Expr)], p: &Places<'_>) -> Result<Items<Kind>, NoMemory>
    ensures { IfOk result (λ ks. ks ≡ lists.values_in (places p.now) arms.now) }
{
    let mut done = Items::new(alloc);
    for arm in arms {
        done.push(kind(alloc, &arm.1, p)?)?;
    }
    Ok(done)
}

#[cycle(types)]
fn other_kind(
    alloc: Global,
    other: &Option<Boxed<Expr>>,
    p: &Places<'_>,
) -> Result<Option<Kind>, NoMemory>
    ensures { IfOk result (λ k. k ≡ lists.maybe_kind (places p.now) other.now) }
{
    match other {
        None => Ok(None),
        Some(e) => Ok(Some(kind(alloc, e.get(), p)?)),
    }
}

#[cycle(types)]
fn maybe_kind(alloc: Global, e: &Option<Expr>, p: &Places<'_>) -> Result<Option<Kind>, NoMemory>
    ensures { IfOk result (λ k. k ≡ lists.maybe_kind (places p.now) e.now) }
{
    match e {
        None => Ok(None),
        Some(e) => Ok(Some(kind(alloc, e, p)?)),
    }
}

// ---- queries

/// The types of a query's columns; None where it has none. A query with WITH isn't one that stands inside.
#[cycle(types)]
#[tactic(auto, using(crate::proofs::TypingRules::query_rule))]
pub fn query_shape(alloc: Global, q: &Query, p: &Places<'_>) -> Result<Option<Items<Ty>>, NoMemory>
    ensures { IfOk result (λ s. s ≡ trees.shape_of_query q.now (places p.now)) }
{
    if q.recursive.is_some() {
        return Ok(None);
    }
    match union(alloc, q.selects.as_slice(), p)? {
        None => Ok(None),
        Some(kinds) => Ok(Some(types_of(alloc, kinds.as_slice())?)),
    }
}

/// The kinds of selects that UNION ALL joins. The manual: 7.4, Combining Queries, and 10.5, UNION, CASE, and Related Constructs.
#[cycle(types)]
pub fn union(
    alloc: Global,
    selects: &[Select],
    p: &Places<'_>,
) -> Result<Option<Items<Kind>>, NoMemory>
    ensures { IfOk result (λ ks. ks ≡ lists.union_in (places p.now) selects.now) }
{
    let mut kinds = None;
    for select in selects {
        let own = select_shape(alloc, select, p)?;
        kinds = further(alloc, kinds, own)?;
    }
    Ok(or_none(kinds))
}

/// The kinds of the columns of a select; None where it has none.
#[cycle(types)]
#[tactic(auto, using(crate::proofs::TypingRules::select_rule))]
pub fn select_shape(
    alloc: Global,
    select: &Select,
    p: &Places<'_>,
) -> Result<Option<Items<Kind>>, NoMemory>
    ensures { IfOk result (λ ks. ks ≡ trees.kinds_of_select select.now (places p.now)) }
{
    match framed(alloc, select.from.as_slice(), p)? {
        None => Ok(None),
        Some(frame) => kinds_over(alloc, select, &frame, p),
    }
}

#[cycle(types)]
fn kinds_over(
    alloc: Global,
    select: &Select,
    frame: &Items<Items<Ty>>,
    p: &Places<'_>,
) -> Result<Option<Items<Kind>>, NoMemory>
    ensures { IfOk result (λ ks. ks ≡ lists.kinds_over (out-Select select.now)
        (inside frame.now (places p.now))) }
{
    let frames = nested(alloc, frame, p.frames)?;
    let inner = Places {
        slots: p.slots,
        frames: frames.as_slice(),
        tables: p.tables,
    };
    kinds_inside(alloc, select, &inner)
}

#[cycle(types)]
#[tactic(auto, unfolding(crate::specs::TypingLists::kinds_over))]
fn kinds_inside(
    alloc: Global,
    select: &Select,
    p: &Places<'_>,
) -> Result<Option<Items<Kind>>, NoMemory>
    ensures { IfOk result (λ ks. ks ≡ lists.kinds_over (out-Select select.now) (places p.now)) }
{
    let list = item_kinds(alloc, select.list.as_slice(), p)?;
    let filter = maybe_kind(alloc, &select.filter, p)?;
    let order = key_kinds(alloc, select.order.as_slice(), p)?;
    let limit = maybe_kind(alloc, &select.limit, p)?;
    Ok(select_kinds(list, filter, &order, limit))
}

#[cycle(types)]
fn item_kinds(alloc: Global, list: &[Item], p: &Places<'_>) -> Result<Items<Kind>, NoMemory>
    ensures { IfOk result (λ ks. ks ≡ lists.item_kinds (places p.now) list.now) }
{
    let mut done = Items::new(alloc);
    for item in list {
        done.push(kind(alloc, &item.expr, p)?)?;
    }
    Ok(done)
}

#[cycle(types)]
fn key_kinds(alloc: Global, keys: &[Key], p: &Places<'_>) -> Result<Items<Kind>, NoMemory>
    ensures { IfOk result (λ ks. ks ≡ lists.key_kinds (places p.now) keys.now) }
{
    let mut done = Items::new(alloc);
    for key in keys {
        done.push(kind(alloc, &key.expr, p)?)?;
    }
    Ok(done)
}

/// The types of the items of FROM, each of which sees those before it.
#[cycle(types)]
fn framed(
    alloc: Global,
    from: &[FromItem],
    p: &Places<'_>,
) -> Result<Option<Items<Items<Ty>>>, NoMemory>
    ensures { IfOk result (λ f. f ≡ lists.framed_in (places p.now) from.now []) }
{
    let mut frame = Items::new(alloc);
    for f in from {
        match part_shape(alloc, f, p, &frame)? {
            None => return Ok(None),
            Some(types) => frame.push(types)?,
        }
    }
    Ok(Some(frame))
}

#[cycle(types)]
#[tactic(auto, using(crate::proofs::TypingRules::part_rule))]
fn part_shape(
    alloc: Global,
    f: &FromItem,
    p: &Places<'_>,
    frame: &Items<Items<Ty>>,
) -> Result<Option<Items<Ty>>, NoMemory>
    ensures { IfOk result (λ s. s ≡ trees.shape_of_part f.now (places p.now) frame.now) }
{
    source_shape(alloc, &f.source, f.columns.as_slice(), p, frame)
}

#[cycle(types)]
#[tactic(auto, using(crate::proofs::TypingRules::source_rules))]
fn source_shape(
    alloc: Global,
    source: &Source,
    columns: &[Name],
    p: &Places<'_>,
    frame: &Items<Items<Ty>>,
) -> Result<Option<Items<Ty>>, NoMemory>
    ensures { IfOk result (λ s. s ≡ trees.shape_of_source source.now columns.now
        (places p.now) frame.now) }
{
    match source {
        Source::Table(_) => table_shape(alloc, p.tables, columns),
        Source::Sub(q, lateral) => {
            let shape = shape_beside(alloc, q.get(), *lateral, p, frame)?;
            Ok(listed(columns, shape))
        }
    }
}

/// Of a subquery in FROM.
#[cycle(types)]
fn shape_beside(
    alloc: Global,
    q: &Query,
    lateral: bool,
    p: &Places<'_>,
    frame: &Items<Items<Ty>>,
) -> Result<Option<Items<Ty>>, NoMemory>
    ensures { IfOk result (λ s. s
        ≡ trees.shape_of_query q.now (inside (spec.before lateral frame.now) (places p.now))) }
{
    let empty = Items::new(alloc);
    let frames = nested(alloc, before(lateral, frame, &empty), p.frames)?;
    let inner = Places {
        slots: p.slots,
        frames: frames.as_slice(),
        tables: p.tables,
    };
    query_shape(alloc, q, &inner)
}
