//! The parts of the block that a call becomes: variables by places, and the test of a STRICT function.

ghost use Rattle.std.specs.Prelude.{◌≡◌, ◌∷◌, [], IfOk};
ghost use Rattle.call_expand.specs.Expanding as spec;

use crate::seeing::{further, next};
use away_trees::{Arm, Decl, Expr, Raised, Stmt};
use away_values::{ChainOp, IsTest, Name, NoMemory, Ty, word};
use moved_names::sight::name_at;
use sqlite_items::{Boxed, Items};
use std::alloc::Global;

/// The variable that has the name at a place.
pub(crate) fn variable(alloc: Global, names: &[Name], k: usize) -> Result<Expr, NoMemory>
    ensures { IfOk result (λ e. e ≡ spec.variable names.now k) }
{
    Ok(Expr::Named(name_at(alloc, names, k)?))
}

pub(crate) fn one<T: Drop>(alloc: Global, only: T) -> Result<Items<T>, NoMemory>
    ensures { IfOk result (λ all. all ≡ only ∷ []) }
{
    let mut all = Items::new(alloc);
    all.push(only)?;
    Ok(all)
}

pub(crate) fn two<T: Drop>(alloc: Global, first: T, second: T) -> Result<Items<T>, NoMemory>
    ensures { IfOk result (λ all. all ≡ first ∷ second ∷ []) }
{
    let mut all = one(alloc, first)?;
    all.push(second)?;
    Ok(all)
}

/// RAISE EXCEPTION SQLSTATE '2F005'.
fn falls_off(alloc: Global) -> Result<Stmt, NoMemory>
    ensures { IfOk result (λ s. s ≡ spec.falls_off) }
{
    match word(alloc, "2F005")? {
        None => Err(NoMemory),
        Some(state) => Ok(Stmt::Raise(Raised::State(state))),
    }
}

/// A body, and the fault where it ends without a RETURN.
pub(crate) fn or_falls_off(alloc: Global, body: Stmt) -> Result<Items<Stmt>, NoMemory>
    ensures { IfOk result (λ xs. xs ≡ body ∷ spec.falls_off ∷ []) }
{
    let mut all = one(alloc, body)?;
    all.push(falls_off(alloc)?)?;
    Ok(all)
}

fn is_null(alloc: Global, names: &[Name], k: usize) -> Result<Expr, NoMemory>
    ensures { IfOk result (λ e. e ≡ spec.is_null names.now k) }
{
    let x = Boxed::new(alloc, variable(alloc, names, k)?)?;
    Ok(Expr::Is(x, IsTest::Null, false))
}

fn further_nulls(
    alloc: Global,
    names: &[Name],
    n: usize,
    k: usize,
) -> Result<Items<(ChainOp, Expr)>, NoMemory>
    ensures { IfOk result (λ xs. xs ≡ spec.further_nulls names.now n k) }
{
    let mut all = Items::new(alloc);
    let mut at = k;
    for i in 0..n {
        all.push((ChainOp::Or, is_null(alloc, names, at)?))?;
        at = further(k, i + 1)?;
    }
    Ok(all)
}

/// One of the variables from a place on is NULL, of which there is one more than so many.
fn null_among(alloc: Global, names: &[Name], more: usize, k: usize) -> Result<Expr, NoMemory>
    ensures { IfOk result (λ e. e ≡ spec.null_among names.now more k) }
{
    let first = is_null(alloc, names, k)?;
    if more == 0 {
        return Ok(first);
    }
    let links = further_nulls(alloc, names, more, next(k)?)?;
    Ok(Expr::Chain(Boxed::new(alloc, first)?, links))
}

/// The test of a STRICT function: where one of its parameters is NULL, it ends so.
pub(crate) fn strict_test(
    alloc: Global,
    names: &[Name],
    strict: bool,
    n: usize,
    k: usize,
    end: Stmt,
) -> Result<Items<Stmt>, NoMemory>
    ensures { IfOk result (λ xs. xs ≡ spec.strict_test names.now strict n k end) }
{
    if !strict || n == 0 {
        return Ok(Items::new(alloc));
    }
    let test = null_among(alloc, names, n - 1, k)?;
    let body = one(alloc, end)?;
    let arms = one(alloc, Arm { test, body })?;
    one(alloc, Stmt::If(arms, None))
}

pub(crate) fn plain_decl(
    alloc: Global,
    names: &[Name],
    k: usize,
    ty: Ty,
    default: Option<Expr>,
) -> Result<Decl, NoMemory>
    ensures { IfOk result (λ d. d ≡ spec.plain_decl names.now k ty default) }
{
    Ok(Decl {
        name: name_at(alloc, names, k)?,
        ty,
        constant: false,
        not_null: false,
        default,
    })
}
