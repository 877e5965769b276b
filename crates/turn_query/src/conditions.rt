//! Conditions, and what they choose.

ghost use Rattle.std.specs.Prelude.{◌≡◌, ◌∷◌, [], IfOk};
ghost use Rattle.call_forms.specs.References.{is_not_true};
ghost use Rattle.turn_template.specs.TurnTemplate as turn;

use away_core::Copied;
use away_trees::Expr;
use away_values::{ChainOp, NoMemory};
use cte_parts::not_true;
use sqlite_items::{Boxed, Items};
use std::alloc::Global;

fn one_arm(alloc: Global, test: &Expr, value: Boxed<Expr>) -> Result<Items<(Expr, Expr)>, NoMemory>
    ensures { IfOk result (λ list. list ≡ (test.now, value) ∷ []) }
{
    let test = Boxed::new(alloc, test.copy(alloc)?)?;
    let mut arms = Items::new(alloc);
    arms.push((test.into_inner(), value.into_inner()))?;
    Ok(arms)
}

/// CASE WHEN guard THEN value END
pub(crate) fn gated(alloc: Global, guard: &Expr, value: Expr) -> Result<Expr, NoMemory>
    ensures { IfOk result (λ e. e ≡ turn.gated guard.now value) }
{
    let value = Boxed::new(alloc, value)?;
    let arms = one_arm(alloc, guard, value)?;
    Ok(Expr::Cases(arms, None))
}

/// CASE WHEN condition THEN yes ELSE no END
pub(crate) fn either(
    alloc: Global,
    condition: &Expr,
    yes: Boxed<Expr>,
    no: Boxed<Expr>,
) -> Result<Expr, NoMemory>
    ensures { IfOk result (λ e. e ≡ turn.either condition.now yes no) }
{
    let arms = one_arm(alloc, condition, yes)?;
    Ok(Expr::Cases(arms, Some(no)))
}

/// guard AND condition
pub(crate) fn both(alloc: Global, guard: &Expr, condition: Expr) -> Result<Expr, NoMemory>
    ensures { IfOk result (λ e. e ≡ turn.both guard.now condition) }
{
    let mut links = Items::new(alloc);
    links.push((ChainOp::And, condition))?;
    let first = Boxed::new(alloc, guard.copy(alloc)?)?;
    Ok(Expr::Chain(first, links))
}

/// guard AND condition, of a condition that is read again
pub(crate) fn and_yes(alloc: Global, guard: &Expr, condition: &Expr) -> Result<Expr, NoMemory>
    ensures { IfOk result (λ e. e ≡ turn.both guard.now condition.now) }
{
    both(alloc, guard, condition.copy(alloc)?)
}

/// guard AND condition IS NOT TRUE
pub(crate) fn and_no(alloc: Global, guard: &Expr, condition: &Expr) -> Result<Expr, NoMemory>
    ensures { IfOk result (λ e. e ≡ turn.both guard.now (is_not_true condition.now)) }
{
    let no = not_true(alloc, condition.copy(alloc)?)?;
    both(alloc, guard, no)
}
