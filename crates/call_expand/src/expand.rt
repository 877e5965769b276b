//! The function in which calls are expanded, and the one in which self calls are turns of a loop.

ghost use Rattle.std.specs.Prelude.{◌≡◌, IfOk};
ghost use Rattle.call_expand.specs.Expanding.{IsExpansion};
ghost use Rattle.call_expand.specs.Untailing as spec;

use crate::calls::function_at;
use crate::heads::moved_params;
use crate::made::{Back, Expansion, Made, Plan, Work};
use crate::seeing::{next, seeing_params};
use crate::strict::{one, or_falls_off};
use crate::turns::{declared, label};
use crate::walk::{expanded_body, moved_stmt};
use away_core::Copied;
use away_trees::{Function, LoopKind, Schema, Stmt};
use away_values::{Name, NoMemory};
use moved_names::fresh_names;
use moved_names::sight::name_at;
use std::alloc::Global;
use std::slice::from_ref;

/// More names than a function has that is made of one within the limits: one for each of 128 variables, 64 FOR loops and 501
/// labels at most.
const MOST_NAMES: u32 = 704;

/// More statements than nest in a function within the limits.
const MOST_NESTED: usize = 128;

/// The function in which the calls of the first function are expanded. Where none of them reaches itself, calls nest less deep
/// than there are functions. One that exceeds the limits by much wants memory.
pub fn expanded(alloc: Global, s: &Schema, fs: &[Function]) -> Result<Function, NoMemory>
    ensures { IfOk result (λ f. IsExpansion s.now fs.now f) }
{
    let Some(f) = function_at(fs, 0) else {
        return Err(NoMemory);
    };
    let names = fresh_names(alloc, s, fs, MOST_NAMES)?;
    let x = Expansion {
        fs,
        depth: fs.len(),
        back: Back::Whole,
    };
    let Made {
        it: body,
        next: used,
    } = expanded_body(
        alloc,
        names.as_slice(),
        x,
        MOST_NESTED,
        0,
        0,
        f.params.len(),
    )?;
    if used > names.len() {
        return Err(NoMemory);
    }
    Ok(Function {
        name: f.name.copy(alloc)?,
        strict: f.strict,
        params: moved_params(alloc, names.as_slice(), f.params.as_slice())?,
        result: f.result,
        body,
    })
}

/// The loop whose turns are runs of a body.
fn turning_loop(alloc: Global, names: &[Name], f: &Function, old: Stmt) -> Result<Stmt, NoMemory>
    ensures { IfOk result (λ x. x ≡ spec.turning_loop names.now f.now old) }
{
    let name = name_at(alloc, names, label(f)?)?;
    let turn = or_falls_off(alloc, old)?;
    Ok(Stmt::Loop {
        label: Some(name),
        kind: LoopKind::Plain,
        body: turn,
        closing: None,
    })
}

fn turning(alloc: Global, names: &[Name], f: &Function, old: Stmt) -> Result<Stmt, NoMemory>
    ensures { IfOk result (λ x. x ≡ spec.turning_body names.now f.now old) }
{
    let whole = turning_loop(alloc, names, f, old)?;
    let body = one(alloc, whole)?;
    Ok(Stmt::Block {
        label: None,
        decls: declared(alloc, names, f.params.len(), f.params.as_slice())?,
        body,
        closing: None,
    })
}

/// The function in which self calls are turns of a loop.
#[tactic(auto, using(crate::proofs::UntailingRules::old_body_is, crate::proofs::UntailingRules::is_untailing))]
pub fn untailed(alloc: Global, s: &Schema, f: &Function) -> Result<Function, NoMemory>
    ensures { IfOk result (λ g. spec.IsUntailing s.now f.now g) }
{
    let names = fresh_names(alloc, s, from_ref(f), MOST_NAMES)?;
    let seen = seeing_params(alloc, 0, f.params.as_slice())?;
    let w = Work {
        names: names.as_slice(),
        plan: Plan::Untail(f),
    };
    let Made {
        it: old,
        next: used,
    } = moved_stmt(alloc, w, MOST_NESTED, &f.body, &seen, next(label(f)?)?)?;
    if used > names.len() {
        return Err(NoMemory);
    }
    Ok(Function {
        name: f.name.copy(alloc)?,
        strict: f.strict,
        params: moved_params(alloc, names.as_slice(), f.params.as_slice())?,
        result: f.result,
        body: turning(alloc, names.as_slice(), f, old)?,
    })
}
