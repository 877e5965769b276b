//! Expressions with others in place of their slots: columns of the row, or what names stand for.

ghost use Rattle.std.specs.Prelude.{◌≡◌, map, IfOk};
ghost use Rattle.call_forms.specs.Scopes.{paired};
ghost use Rattle.sql_meaning.specs.Reads as reads;
ghost use Rattle.turn_template.specs.TurnTemplate.{no_ref, placed_ref};
ghost use Rattle.turn_terms.specs.Placing as spec;
ghost use Rattle.turn_terms.specs.References.{on_row, scope_of};

use crate::leaves::{Leaves, leaf_of, literal_of};
use crate::references::Reference;
use away_trees::{Expr, FromItem, Item, Key, Query, Recursive, Select, Source};
use away_values::{ChainOp, Name, NoMemory, Ty, literal_type};
use cte_parts::{after, null};
use sqlite_items::{Boxed, Items};
use std::alloc::Global;
use tree_events::slots_of;

fn copied_names(alloc: Global, names: &[Name]) -> Result<Items<Name>, NoMemory>
    ensures { IfOk result (λ list. list ≡ names.now) }
{
    let mut list = Items::new(alloc);
    for i in 0..names.len() {
        list.push(names[i].copy(alloc)?)?;
    }
    Ok(list)
}

fn copied_name(alloc: Global, name: &Option<Name>) -> Result<Option<Name>, NoMemory>
    ensures { IfOk result (λ n. n ≡ name.now) }
{
    match name {
        None => Ok(None),
        Some(name) => Ok(Some(name.copy(alloc)?)),
    }
}

#[cycle(placing)]
#[tactic(auto, using(crate::proofs::PlacingRules::placing_rules))]
fn place_expr(value: &Expr, alloc: Global, leaves: &Leaves<'_>, d: usize) -> Result<Expr, NoMemory>
    ensures { IfOk result (λ e. e ≡ spec.expr_in leaves.now d value.now) }
{
    match value {
        Expr::Int(n) => literal_of(leaves, alloc, Expr::Int(*n), literal_type(*n)),
        Expr::Str(text) => literal_of(leaves, alloc, Expr::Str(text.copy(alloc)?), Ty::Text),
        Expr::Bool(b) => literal_of(leaves, alloc, Expr::Bool(*b), Ty::Boolean),
        Expr::Null => Ok(Expr::Null),
        Expr::Named(name) => Ok(Expr::Named(name.copy(alloc)?)),
        Expr::Dotted(a, c) => Ok(Expr::Dotted(a.copy(alloc)?, c.copy(alloc)?)),
        Expr::Slot(slot) => leaf_of(leaves, alloc, d, *slot),
        Expr::Column(col) => Ok(Expr::Column(*col)),
        Expr::Param(n, ty) => Ok(Expr::Param(*n, *ty)),
        Expr::Neg(a) => Ok(Expr::Neg(place_box(a, alloc, leaves, d)?)),
        Expr::NegSmall(a) => Ok(Expr::NegSmall(place_box(a, alloc, leaves, d)?)),
        Expr::Not(a) => Ok(Expr::Not(place_box(a, alloc, leaves, d)?)),
        Expr::Is(a, test, not) => Ok(Expr::Is(place_box(a, alloc, leaves, d)?, *test, *not)),
        Expr::Chain(a, links) => {
            let first = place_box(a, alloc, leaves, d)?;
            let links = place_links(links.as_slice(), alloc, leaves, d)?;
            Ok(Expr::Chain(first, links))
        }
        Expr::Compare(op, a, b) => {
            let left = place_box(a, alloc, leaves, d)?;
            Ok(Expr::Compare(*op, left, place_box(b, alloc, leaves, d)?))
        }
        Expr::Between(not, a, low, high) => {
            let first = place_box(a, alloc, leaves, d)?;
            let low = place_box(low, alloc, leaves, d)?;
            Ok(Expr::Between(*not, first, low, place_box(high, alloc, leaves, d)?))
        }
        Expr::OneOf(not, a, list) => {
            let first = place_box(a, alloc, leaves, d)?;
            Ok(Expr::OneOf(*not, first, place_exprs(list.as_slice(), alloc, leaves, d)?))
        }
        Expr::Cast(a, ty) => Ok(Expr::Cast(place_box(a, alloc, leaves, d)?, *ty)),
        Expr::Cases(arms, other) => {
            let arms = place_arms(arms.as_slice(), alloc, leaves, d)?;
            Ok(Expr::Cases(arms, place_other(other, alloc, leaves, d)?))
        }
        Expr::Call(name, args) => {
            let args = place_exprs(args.as_slice(), alloc, leaves, d)?;
            Ok(Expr::Call(name.copy(alloc)?, args))
        }
        Expr::CountRows => Ok(Expr::CountRows),
        Expr::Scalar(query) => Ok(Expr::Scalar(place_subquery(query, alloc, leaves, d)?)),
        Expr::Exists(query) => Ok(Expr::Exists(place_subquery(query, alloc, leaves, d)?)),
    }
}

#[cycle(placing)]
#[tactic(auto, using(crate::proofs::PlacingRules::placing_rules))]
fn place_box(
    value: &Boxed<Expr>,
    alloc: Global,
    leaves: &Leaves<'_>,
    d: usize,
) -> Result<Boxed<Expr>, NoMemory>
    ensures { IfOk result (λ e. e ≡ spec.expr_in leaves.now d value.now) }
{
    Ok(Boxed::new(alloc, place_expr(value.get(), alloc, leaves, d)?)?)
}

#[cycle(placing)]
#[tactic(auto, using(crate::proofs::PlacingRules::placing_rules))]
fn place_subquery(
    value: &Boxed<Query>,
    alloc: Global,
    leaves: &Leaves<'_>,
    d: usize,
) -> Result<Boxed<Query>, NoMemory>
    ensures { IfOk result (λ q. q ≡ spec.query_in leaves.now d value.now) }
{
    Ok(Boxed::new(alloc, place_query(value.get(), alloc, leaves, d)?)?)
}

#[cycle(placing)]
#[tactic(auto, using(crate::proofs::PlacingRules::placing_rules))]
fn place_other(
    value: &Option<Boxed<Expr>>,
    alloc: Global,
    leaves: &Leaves<'_>,
    d: usize,
) -> Result<Option<Boxed<Expr>>, NoMemory>
    ensures { IfOk result (λ e. e ≡ spec.maybe_in leaves.now d value.now) }
{
    match value {
        None => Ok(None),
        Some(x) => Ok(Some(Boxed::new(alloc, place_expr(x.get(), alloc, leaves, d)?)?)),
    }
}

#[cycle(placing)]
#[tactic(auto, using(crate::proofs::PlacingRules::placing_rules))]
fn place_filter(
    value: &Option<Expr>,
    alloc: Global,
    leaves: &Leaves<'_>,
    d: usize,
) -> Result<Option<Expr>, NoMemory>
    ensures { IfOk result (λ e. e ≡ spec.maybe_in leaves.now d value.now) }
{
    match value {
        None => Ok(None),
        Some(x) => Ok(Some(place_expr(x, alloc, leaves, d)?)),
    }
}

#[cycle(placing)]
#[tactic(auto, using(crate::proofs::PlacingRules::placing_rules))]
fn place_exprs(
    list: &[Expr],
    alloc: Global,
    leaves: &Leaves<'_>,
    d: usize,
) -> Result<Items<Expr>, NoMemory>
    ensures { IfOk result (λ all. all ≡ map (spec.expr_in leaves.now d) list.now) }
{
    let mut all = Items::new(alloc);
    for i in 0..list.len() {
        all.push(place_expr(&list[i], alloc, leaves, d)?)?;
    }
    Ok(all)
}

#[cycle(placing)]
#[tactic(auto, using(crate::proofs::PlacingRules::placing_rules))]
fn place_links(
    list: &[(ChainOp, Expr)],
    alloc: Global,
    leaves: &Leaves<'_>,
    d: usize,
) -> Result<Items<(ChainOp, Expr)>, NoMemory>
    ensures { IfOk result (λ all. all ≡ map (spec.link_in leaves.now d) list.now) }
{
    let mut all = Items::new(alloc);
    for i in 0..list.len() {
        all.push((list[i].0, place_expr(&list[i].1, alloc, leaves, d)?))?;
    }
    Ok(all)
}

#[cycle(placing)]
#[tactic(auto, using(crate::proofs::PlacingRules::placing_rules))]
fn place_arms(
    list: &[(Expr, Expr)],
    alloc: Global,
    leaves: &Leaves<'_>,
    d: usize,
) -> Result<Items<(Expr, Expr)>, NoMemory>
    ensures { IfOk result (λ all. all ≡ map (spec.arm_in leaves.now d) list.now) }
{
    let mut all = Items::new(alloc);
    for i in 0..list.len() {
        let test = place_expr(&list[i].0, alloc, leaves, d)?;
        all.push((test, place_expr(&list[i].1, alloc, leaves, d)?))?;
    }
    Ok(all)
}

#[cycle(placing)]
#[tactic(auto, using(crate::proofs::PlacingRules::placing_rules))]
fn place_source(
    value: &Source,
    alloc: Global,
    leaves: &Leaves<'_>,
    d: usize,
) -> Result<Source, NoMemory>
    ensures { IfOk result (λ s. s ≡ spec.source_in leaves.now d value.now) }
{
    match value {
        Source::Table(name) => Ok(Source::Table(name.copy(alloc)?)),
        Source::Sub(query, lateral) => Ok(Source::Sub(
            place_subquery(query, alloc, leaves, d)?,
            *lateral,
        )),
    }
}

#[cycle(placing)]
#[tactic(auto, using(crate::proofs::PlacingRules::placing_rules))]
fn place_items(
    list: &[Item],
    alloc: Global,
    leaves: &Leaves<'_>,
    d: usize,
) -> Result<Items<Item>, NoMemory>
    ensures { IfOk result (λ all. all ≡ map (spec.item_in leaves.now d) list.now) }
{
    let mut all = Items::new(alloc);
    for i in 0..list.len() {
        all.push(Item {
            expr: place_expr(&list[i].expr, alloc, leaves, d)?,
            alias: copied_name(alloc, &list[i].alias)?,
        })?;
    }
    Ok(all)
}

#[cycle(placing)]
#[tactic(auto, using(crate::proofs::PlacingRules::placing_rules))]
fn place_from(
    list: &[FromItem],
    alloc: Global,
    leaves: &Leaves<'_>,
    d: usize,
) -> Result<Items<FromItem>, NoMemory>
    ensures { IfOk result (λ all. all ≡ map (spec.from_in leaves.now d) list.now) }
{
    let mut all = Items::new(alloc);
    for i in 0..list.len() {
        all.push(FromItem {
            source: place_source(&list[i].source, alloc, leaves, d)?,
            alias: list[i].alias.copy(alloc)?,
            columns: copied_names(alloc, list[i].columns.as_slice())?,
        })?;
    }
    Ok(all)
}

#[cycle(placing)]
#[tactic(auto, using(crate::proofs::PlacingRules::placing_rules))]
fn place_keys(
    list: &[Key],
    alloc: Global,
    leaves: &Leaves<'_>,
    d: usize,
) -> Result<Items<Key>, NoMemory>
    ensures { IfOk result (λ all. all ≡ map (spec.key_in leaves.now d) list.now) }
{
    let mut all = Items::new(alloc);
    for i in 0..list.len() {
        all.push(Key {
            expr: place_expr(&list[i].expr, alloc, leaves, d)?,
            descending: list[i].descending,
        })?;
    }
    Ok(all)
}

/// Its parts stand one select further in.
#[cycle(placing)]
#[tactic(auto, using(crate::proofs::PlacingRules::placing_rules))]
fn place_select(
    value: &Select,
    alloc: Global,
    leaves: &Leaves<'_>,
    d: usize,
) -> Result<Select, NoMemory>
    ensures { IfOk result (λ s. s ≡ spec.select_in leaves.now d value.now) }
{
    let inside = after(d)?;
    let list = place_items(value.list.as_slice(), alloc, leaves, inside)?;
    let from = place_from(value.from.as_slice(), alloc, leaves, inside)?;
    let filter = place_filter(&value.filter, alloc, leaves, inside)?;
    let order = place_keys(value.order.as_slice(), alloc, leaves, inside)?;
    let limit = place_filter(&value.limit, alloc, leaves, inside)?;
    Ok(Select {
        list,
        from,
        filter,
        order,
        limit,
    })
}

#[cycle(placing)]
#[tactic(auto, using(crate::proofs::PlacingRules::placing_rules))]
fn place_selects(
    list: &[Select],
    alloc: Global,
    leaves: &Leaves<'_>,
    d: usize,
) -> Result<Items<Select>, NoMemory>
    ensures { IfOk result (λ all. all
        ≡ map (spec.select_in leaves.now d) list.now) }
{
    let mut all = Items::new(alloc);
    for i in 0..list.len() {
        all.push(place_select(&list[i], alloc, leaves, d)?)?;
    }
    Ok(all)
}

#[cycle(placing)]
#[tactic(auto, using(crate::proofs::PlacingRules::placing_rules))]
fn place_recursive(
    value: &Option<Recursive>,
    alloc: Global,
    leaves: &Leaves<'_>,
    d: usize,
) -> Result<Option<Recursive>, NoMemory>
    ensures { IfOk result (λ r. r
        ≡ spec.maybe_recursive_in leaves.now d value.now) }
{
    match value {
        None => Ok(None),
        Some(x) => Ok(Some(Recursive {
            name: x.name.copy(alloc)?,
            columns: copied_names(alloc, x.columns.as_slice())?,
            first: place_selects(x.first.as_slice(), alloc, leaves, d)?,
            second: place_select(&x.second, alloc, leaves, d)?,
        })),
    }
}

#[cycle(placing)]
#[tactic(auto, using(crate::proofs::PlacingRules::placing_rules))]
fn place_query(
    value: &Query,
    alloc: Global,
    leaves: &Leaves<'_>,
    d: usize,
) -> Result<Query, NoMemory>
    ensures { IfOk result (λ q. q ≡ spec.query_in leaves.now d value.now) }
{
    let recursive = place_recursive(&value.recursive, alloc, leaves, d)?;
    Ok(Query {
        recursive,
        selects: place_selects(value.selects.as_slice(), alloc, leaves, d)?,
    })
}

/// An expression over the row as it stands in the select above it.
#[tactic(auto, using(crate::proofs::PlacedOverRows::written_is))]
pub fn written(alloc: Global, value: &Expr) -> Result<Expr, NoMemory>
    ensures { IfOk result (λ x. x ≡ on_row value.now 0) }
{
    place_expr(value, alloc, &Leaves::Columns, 0)
}

/// An expression of the function over the row: its slots, in the order in which it reads them, are what these names stand for. A cast is round each
/// literal; a lone NULL is under one to the type that the place asks for.
pub(crate) fn placed(
    alloc: Global,
    ty: Ty,
    e: &Expr,
    names: &[u32],
    refs: &[Reference],
) -> Result<Expr, NoMemory>
    ensures { IfOk result (λ x. on_row x
        ≡ placed_ref ty (paired (scope_of refs.now) no_ref (reads.slots_of e.now) names.now) e.now) }
{
    if matches!(e, Expr::Null) {
        return null(alloc, ty);
    }
    let slots = slots_of(alloc, e)?;
    let leaves = Leaves::Names(slots.as_slice(), names, refs);
    place_expr(e, alloc, &leaves, 0)
}
