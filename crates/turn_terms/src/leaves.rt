//! What stands for the slots of an expression, and for its literals.

ghost use Rattle.std.specs.Prelude.{◌≡◌, IfOk};
ghost use Rattle.turn_terms.specs.Placing as spec;

use crate::references::{Reference, looked_up};
use away_trees::Expr;
use away_values::{NoMemory, Ty};
use cte_parts::{col, small};
use sqlite_items::Boxed;
use std::alloc::Global;

/// Columns of the row by their numbers; or what names stand for, each name beside its slot, and then a cast is round each literal.
#[derive(Clone, Copy)]
pub(crate) enum Leaves<'a> {
    Columns,
    Names(&'a [u32], &'a [u32], &'a [Reference]),
}

/// The name beside the first slot that is this one.
#[tactic(auto, using(crate::proofs::LeafRules::beside_rules))]
fn beside(slots: &[u32], names: &[u32], slot: u32) -> Option<u32>
    ensures { result ≡ spec.beside slots.now names.now slot }
{
    for i in 0..slots.len() {
        if i >= names.len() {
            return None;
        }
        if slots[i] == slot {
            return Some(names[i]);
        }
    }
    None
}

/// What the name beside a slot stands for.
#[tactic(auto, using(crate::proofs::LeafRules::name_rules))]
fn named_leaf(
    alloc: Global,
    slots: &[u32],
    names: &[u32],
    refs: &[Reference],
    slot: u32,
) -> Result<Expr, NoMemory>
    ensures { IfOk result (λ x. x ≡ spec.named_leaf slots.now names.now refs.now slot) }
{
    match beside(slots, names, slot) {
        None => Ok(Expr::Null),
        Some(name) => looked_up(alloc, refs, name),
    }
}

/// What stands for a slot, inside so many selects of the expression.
#[tactic(auto, using(crate::proofs::LeafRules::leaf_rules))]
pub(crate) fn leaf_of(
    leaves: &Leaves<'_>,
    alloc: Global,
    d: usize,
    slot: u32,
) -> Result<Expr, NoMemory>
    ensures { IfOk result (λ x. x ≡ spec.leaf_at leaves.now d slot) }
{
    match leaves {
        Leaves::Columns => col(small(d)?, 0, slot as usize),
        Leaves::Names(slots, names, refs) => named_leaf(alloc, slots, names, refs, slot),
    }
}

/// What stands for a literal.
#[tactic(auto, using(crate::proofs::LeafRules::literal_rules))]
pub(crate) fn literal_of(
    leaves: &Leaves<'_>,
    alloc: Global,
    literal: Expr,
    ty: Ty,
) -> Result<Expr, NoMemory>
    ensures { IfOk result (λ x. x ≡ spec.literal_at leaves.now ty literal) }
{
    match leaves {
        Leaves::Columns => Ok(literal),
        Leaves::Names(_, _, _) => Ok(Expr::Cast(Boxed::new(alloc, literal)?, ty)),
    }
}
