//! What a RETURN becomes where self calls are turns of a loop, and the block that a self call becomes.

ghost use Rattle.std.specs.Prelude.{◌≡◌, IfOk};
ghost use Rattle.call_expand.specs.Untailing as spec;

use crate::made::{Made, Seen};
use crate::places::self_call;
use crate::seeing::{further, next};
use crate::strict::{plain_decl, strict_test, variable};
use away_names::scope::Variable;
use away_trees::{Decl, Expr, Function, Stmt};
use away_values::{Name, NoMemory, Ty};
use moved_names::renaming::renamed_expr;
use moved_names::sight::{Sight, name_at};
use sqlite_items::Items;
use std::alloc::Global;

/// Each argument is set to a variable of its own.
fn sets(
    alloc: Global,
    names: &[Name],
    seen: &[Variable],
    k: usize,
    args: &[Expr],
) -> Result<Items<Stmt>, NoMemory>
    ensures { IfOk result (λ xs. xs ≡ spec.sets names.now seen.now k args.now) }
{
    let sight = Sight { names, seen };
    let mut all = Items::new(alloc);
    let mut at = k;
    for a in args {
        let value = renamed_expr(alloc, a, &sight)?;
        all.push(Stmt::Assign(name_at(alloc, names, at)?, None, value))?;
        at = next(at)?;
    }
    Ok(all)
}

/// So many variables from j on become those from i on.
fn moves(
    alloc: Global,
    names: &[Name],
    n: usize,
    i: usize,
    j: usize,
) -> Result<Items<Stmt>, NoMemory>
    ensures { IfOk result (λ xs. xs ≡ spec.moves names.now n i j) }
{
    let mut all = Items::new(alloc);
    let mut to = i;
    let mut from = j;
    for t in 0..n {
        let value = variable(alloc, names, from)?;
        all.push(Stmt::Assign(name_at(alloc, names, to)?, None, value))?;
        to = further(i, t + 1)?;
        from = further(j, t + 1)?;
    }
    Ok(all)
}

/// As many variables as parameters.
pub(crate) fn declared(
    alloc: Global,
    names: &[Name],
    k: usize,
    params: &[(Name, Ty)],
) -> Result<Items<Decl>, NoMemory>
    ensures { IfOk result (λ xs. xs ≡ spec.declared names.now k params.now) }
{
    let mut all = Items::new(alloc);
    let mut at = k;
    for p in params {
        all.push(plain_decl(alloc, names, at, p.1, None)?)?;
        at = next(at)?;
    }
    Ok(all)
}

pub(crate) fn label(f: &Function) -> Result<usize, NoMemory>
    ensures { IfOk result (λ k. k ≡ spec.label f.now) }
{
    further(f.params.len(), f.params.len())
}

/// The block that a self call with these arguments becomes.
pub(crate) fn next_turn(
    alloc: Global,
    names: &[Name],
    f: &Function,
    seen: &[Variable],
    args: &[Expr],
) -> Result<Stmt, NoMemory>
    ensures { IfOk result (λ s. s ≡ spec.next_turn names.now f.now seen.now args.now) }
{
    let n = f.params.len();
    let mut body = sets(alloc, names, seen, n, args)?;
    body.append(moves(alloc, names, n, 0, n)?)?;
    body.append(strict_test(alloc, names, f.strict, n, 0, Stmt::Return(Expr::Null))?)?;
    let target = Some(name_at(alloc, names, label(f)?)?);
    body.push(Stmt::Continue(target, None))?;
    Ok(Stmt::Block {
        label: None,
        decls: Items::new(alloc),
        body,
        closing: None,
    })
}

/// What a RETURN of a function becomes whose calls of itself are turns.
pub(crate) fn turned(
    alloc: Global,
    names: &[Name],
    f: &Function,
    e: &Expr,
    seen: &Seen,
    k: usize,
) -> Result<Made<Stmt>, NoMemory>
    ensures { IfOk result (λ x. x ≡ spec.returned names.now f.now e.now seen.now k) }
{
    let sight = Sight {
        names,
        seen: seen.variables.as_slice(),
    };
    match self_call(f, e) {
        Some(c) => Ok(Made {
            it: next_turn(alloc, names, f, sight.seen, c.args)?,
            next: k,
        }),
        None => Ok(Made {
            it: Stmt::Return(renamed_expr(alloc, e, &sight)?),
            next: k,
        }),
    }
}
