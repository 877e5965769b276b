//! Assignments and RETURNs where calls are expanded, and the block that a call becomes around the body of the called function.

ghost use Rattle.std.specs.Prelude.{◌≡◌, ◌∷◌, ◌++◌, [], None, suc, IfOk, IfSome};
ghost use Rattle.call_expand.specs.CallPlaces.{called};
ghost use Rattle.call_expand.specs.Expanding as expanding;
ghost use Rattle.call_expand.specs.Plans as spec;

use crate::made::{Back, Made, Seen};
use crate::places::Place;
use crate::seeing::next;
use crate::strict::{one, or_falls_off, plain_decl, strict_test, two, variable};
use away_names::scope::Variable;
use away_trees::{Decl, Expr, Function, Stmt};
use away_values::{Name, NoMemory, Ty};
use moved_names::renaming::renamed_expr;
use moved_names::sight::{Sight, moved, name_at};
use sqlite_items::Items;
use std::alloc::Global;

/// The function with a number.
pub(crate) fn function_at(fs: &[Function], i: usize) -> Option<&Function>
    ensures { IfSome result (λ g. g.now ≡ expanding.function_at fs.now i) }
{
    if i < fs.len() { Some(&fs[i]) } else { None }
}

/// An assignment of what calls nothing.
pub(crate) fn plain_assignment(
    alloc: Global,
    names: &[Name],
    name: &Name,
    e: &Expr,
    seen: &Seen,
    k: usize,
) -> Result<Made<Stmt>, NoMemory>
    ensures { IfOk result (λ x. x ≡ spec.plain_assignment names.now name.now e.now seen.now k) }
{
    let sight = Sight {
        names,
        seen: seen.variables.as_slice(),
    };
    let target = moved(alloc, name, &sight)?;
    Ok(Made {
        it: Stmt::Assign(target, None, renamed_expr(alloc, e, &sight)?),
        next: k,
    })
}

/// How a body is left that is left so, with a value.
fn returned_by(alloc: Global, names: &[Name], back: Back, e: Expr) -> Result<Stmt, NoMemory>
    ensures { IfOk result (λ s. s ≡ expanding.returned_by names.now back e) }
{
    match back {
        Back::Whole => Ok(Stmt::Return(e)),
        Back::Into(r, l) => {
            let mut body = one(alloc, Stmt::Assign(name_at(alloc, names, r)?, None, e))?;
            body.push(Stmt::Exit(Some(name_at(alloc, names, l)?), None))?;
            Ok(Stmt::Block {
                label: None,
                decls: Items::new(alloc),
                body,
                closing: None,
            })
        }
    }
}

/// A RETURN of what calls nothing, in a body that is left so.
pub(crate) fn plain_return(
    alloc: Global,
    names: &[Name],
    back: Back,
    e: &Expr,
    seen: &Seen,
    k: usize,
) -> Result<Made<Stmt>, NoMemory>
    ensures { IfOk result (λ x. x ≡ spec.plain_return names.now back e.now seen.now k) }
{
    let sight = Sight {
        names,
        seen: seen.variables.as_slice(),
    };
    let value = renamed_expr(alloc, e, &sight)?;
    Ok(Made {
        it: returned_by(alloc, names, back, value)?,
        next: k,
    })
}

/// The parameters of a called function, with its arguments as defaults.
fn arguments(
    alloc: Global,
    names: &[Name],
    seen: &[Variable],
    k: usize,
    params: &[(Name, Ty)],
    args: &[Expr],
) -> Result<Items<Decl>, NoMemory>
    ensures { IfOk result (λ xs. xs
        ≡ expanding.arguments names.now seen.now k params.now args.now) }
{
    let sight = Sight { names, seen };
    let mut all = Items::new(alloc);
    let mut rest = args;
    let mut at = k;
    for p in params {
        let [a, more @ ..] = rest else {
            return Ok(all);
        };
        let default = Some(renamed_expr(alloc, a, &sight)?);
        all.push(plain_decl(alloc, names, at, p.1, default)?)?;
        at = next(at)?;
        rest = more;
    }
    Ok(all)
}

/// The parameters of what a call calls, whose label has the name at a place.
fn called_params(
    alloc: Global,
    names: &[Name],
    g: &Function,
    c: Place<'_>,
    seen: &Seen,
    l: usize,
) -> Result<Items<Decl>, NoMemory>
    ensures { IfOk result (λ xs. xs
        ≡ expanding.arguments names.now seen.now.variables (suc l) g.now.params c.entry.args.now) }
{
    arguments(
        alloc,
        names,
        seen.variables.as_slice(),
        next(l)?,
        g.params.as_slice(),
        c.args,
    )
}

/// The test of a called function, if it is STRICT.
fn called_test(
    alloc: Global,
    names: &[Name],
    g: &Function,
    l: usize,
) -> Result<Items<Stmt>, NoMemory>
    ensures { IfOk result (λ xs. xs ≡ spec.called_test names.now g.now l) }
{
    let first = next(l)?;
    let end = Stmt::Exit(Some(name_at(alloc, names, l)?), None);
    strict_test(alloc, names, g.strict, g.params.len(), first, end)
}

/// The statements in the block of a called function.
fn called_statements(
    alloc: Global,
    names: &[Name],
    g: &Function,
    l: usize,
    body: Stmt,
) -> Result<Items<Stmt>, NoMemory>
    ensures { IfOk result (λ xs. xs
        ≡ spec.called_test names.now g.now l ++ (body ∷ expanding.falls_off ∷ [])) }
{
    let behind = or_falls_off(alloc, body)?;
    let mut all = called_test(alloc, names, g, l)?;
    all.append(behind)?;
    Ok(all)
}

/// The block of a called function, whose label has the name at a place, and whose parameters have those behind it.
fn called_block(
    alloc: Global,
    names: &[Name],
    g: &Function,
    params: Items<Decl>,
    l: usize,
    body: Stmt,
) -> Result<Stmt, NoMemory>
    ensures { IfOk result (λ x. x ≡ spec.called_block names.now g.now params l body) }
{
    let statements = called_statements(alloc, names, g, l, body)?;
    Ok(Stmt::Block {
        label: Some(name_at(alloc, names, l)?),
        decls: params,
        body: statements,
        closing: None,
    })
}

/// The block of the function that a call calls, around its body.
fn callee_block(
    alloc: Global,
    names: &[Name],
    fs: &[Function],
    c: Place<'_>,
    seen: &Seen,
    k: usize,
    body: Made<Stmt>,
) -> Result<Made<Stmt>, NoMemory>
    ensures { IfOk result (λ x. x
        ≡ spec.callee_block names.now fs.now (called c.entry) seen.now k body) }
{
    let Some(g) = function_at(fs, c.part) else {
        return Err(NoMemory);
    };
    let l = next(k)?;
    let params = called_params(alloc, names, g, c, seen, l)?;
    let behind = body.next;
    Ok(Made {
        it: called_block(alloc, names, g, params, l, body.it)?,
        next: behind,
    })
}

/// The declaration of a call's result.
fn result_decl(alloc: Global, names: &[Name], ty: Ty, k: usize) -> Result<Items<Decl>, NoMemory>
    ensures { IfOk result (λ xs. xs ≡ expanding.plain_decl names.now k ty None ∷ []) }
{
    one(alloc, plain_decl(alloc, names, k, ty, None)?)
}

/// The block that a call becomes: it declares the result, and goes on with it behind the called function's block.
fn with_result(
    alloc: Global,
    names: &[Name],
    ty: Ty,
    k: usize,
    callee: Made<Stmt>,
    tail: Stmt,
) -> Result<Made<Stmt>, NoMemory>
    ensures { IfOk result (λ x. x ≡ spec.with_result names.now ty k callee tail) }
{
    let behind = callee.next;
    let body = two(alloc, callee.it, tail)?;
    Ok(Made {
        it: Stmt::Block {
            label: None,
            decls: result_decl(alloc, names, ty, k)?,
            body,
            closing: None,
        },
        next: behind,
    })
}

/// What a call becomes, with what goes on with its value, around the body of the called function.
fn call_block(
    alloc: Global,
    names: &[Name],
    fs: &[Function],
    c: Place<'_>,
    seen: &Seen,
    k: usize,
    body: Made<Stmt>,
    tail: Stmt,
) -> Result<Made<Stmt>, NoMemory>
    ensures { IfOk result (λ x. x
        ≡ spec.call_block names.now fs.now (called c.entry) seen.now k body tail) }
{
    let Some(g) = function_at(fs, c.part) else {
        return Err(NoMemory);
    };
    let callee = callee_block(alloc, names, fs, c, seen, k, body)?;
    with_result(alloc, names, g.result, k, callee, tail)
}

/// An assignment of a call, around the body of the called function.
pub(crate) fn call_assigned(
    alloc: Global,
    names: &[Name],
    fs: &[Function],
    c: Place<'_>,
    name: &Name,
    seen: &Seen,
    k: usize,
    body: Made<Stmt>,
) -> Result<Made<Stmt>, NoMemory>
    ensures { IfOk result (λ x. x
        ≡ spec.call_assigned names.now fs.now (called c.entry) name.now seen.now k body) }
{
    let sight = Sight {
        names,
        seen: seen.variables.as_slice(),
    };
    let target = moved(alloc, name, &sight)?;
    let tail = Stmt::Assign(target, None, variable(alloc, names, k)?);
    call_block(alloc, names, fs, c, seen, k, body, tail)
}

/// A RETURN of a call, in a body that is left so, around the body of the called function.
pub(crate) fn call_returned(
    alloc: Global,
    names: &[Name],
    fs: &[Function],
    c: Place<'_>,
    back: Back,
    seen: &Seen,
    k: usize,
    body: Made<Stmt>,
) -> Result<Made<Stmt>, NoMemory>
    ensures { IfOk result (λ x. x
        ≡ spec.call_returned names.now fs.now (called c.entry) back seen.now k body) }
{
    let value = variable(alloc, names, k)?;
    let tail = returned_by(alloc, names, back, value)?;
    call_block(alloc, names, fs, c, seen, k, body, tail)
}
