//! Functions that call others, as they are judged.

ghost use Rattle.std.specs.Prelude.{◌≡◌, IfOk, map};
ghost use Rattle.call_expand.specs.Judging as spec;

use crate::strict::one;
use away_core::Copied;
use away_trees::{Expr, Function};
use away_values::{IsTest, Name, NoMemory, Ty, name};
use sqlite_items::{Boxed, Items};
use std::alloc::Global;

/// NULL of a type.
fn null_of(alloc: Global, ty: Ty) -> Result<Expr, NoMemory>
    ensures { IfOk result (λ e. e ≡ spec.null_of ty) }
{
    Ok(Expr::Cast(Boxed::new(alloc, Expr::Null)?, ty))
}

fn is_null(alloc: Global, e: Expr) -> Result<Expr, NoMemory>
    ensures { IfOk result (λ x. x ≡ spec.is_null_of e) }
{
    Ok(Expr::Is(Boxed::new(alloc, e)?, IsTest::Null, false))
}

/// A condition that an expression has a type.
fn asks_type(alloc: Global, ty: Ty, a: &Expr) -> Result<Expr, NoMemory>
    ensures { IfOk result (λ x. x ≡ spec.asks_type ty a.now) }
{
    let Some(function) = name(alloc, "coalesce")? else {
        return Err(NoMemory);
    };
    let mut choices = one(alloc, a.copy(alloc)?)?;
    choices.push(null_of(alloc, ty)?)?;
    is_null(alloc, Expr::Call(function, choices))
}

/// The conditions that the arguments have the types of the parameters, each with the value behind it.
fn asked_types(
    alloc: Global,
    answer: Ty,
    params: &[(Name, Ty)],
    args: &[Expr],
) -> Result<Items<(Expr, Expr)>, NoMemory>
    ensures { IfOk result (λ xs. xs
        ≡ map (spec.asked answer) (spec.asks_types params.now args.now)) }
{
    let mut all = Items::new(alloc);
    let mut ps = params;
    for a in args {
        match ps {
            [] => all.push((is_null(alloc, a.copy(alloc)?)?, null_of(alloc, answer)?))?,
            [p, more @ ..] => {
                all.push((asks_type(alloc, p.1, a)?, null_of(alloc, answer)?))?;
                ps = more;
            }
        }
    }
    Ok(all)
}

/// What is judged in the place of a call.
pub(crate) fn judged_call(alloc: Global, g: &Function, args: &[Expr]) -> Result<Expr, NoMemory>
    ensures { IfOk result (λ x. x ≡ spec.judged_call g.now args.now) }
{
    let mut arms = asked_types(alloc, g.result, g.params.as_slice(), args)?;
    if args.len() != g.params.len() {
        arms.push((Expr::Int(0), null_of(alloc, g.result)?))?;
    }
    if arms.is_empty() {
        null_of(alloc, g.result)
    } else {
        Ok(Expr::Cases(arms, None))
    }
}
