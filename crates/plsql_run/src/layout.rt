//! How many slots statements take, counted once.

ghost use Rattle.std.specs.Prelude.{◌≡◌, ◌+◌, ◌<◌, ◌^◌, IfOk, sum_by};
ghost use Rattle.plsql_run.specs.Layouts.{laid, slots};
ghost use Rattle.plsql_run.specs.Layouts as spec;
ghost use Rattle.plsql_meaning.specs.Statements.{kind_vars};

use away_trees::{Arm, LoopKind, Stmt};
use away_values::NoMemory;
use sqlite_items::Items;
use std::alloc::Global;

/// The slots that a statement, or an arm with its statements, takes. What stands in it follows: the statements of a body, or the arms; and the
/// statements behind ELSE.
#[cycle(layout)]
#[derive(Drop)]
pub struct Layout {
    pub(crate) slots: usize,
    pub(crate) inside: Items<Layout>,
    pub(crate) other: Items<Layout>,
}

pub(crate) fn plus(a: usize, b: usize) -> Result<usize, NoMemory>
    ensures value { IfOk result (λ n. n ≡ a + b) }
    ensures fits { IfOk result (λ n. n < 2 ^ 64) }
{
    match a.checked_add(b) {
        Some(n) => Ok(n),
        None => Err(NoMemory),
    }
}

/// The slots of statements by their layouts.
fn total(layouts: &[Layout]) -> Result<usize, NoMemory>
    ensures { IfOk result (λ n. n ≡ sum_by slots layouts.now) }
{
    let mut sum = 0;
    for i in 0..layouts.len() {
        sum = plus(sum, layouts[i].slots)?;
    }
    Ok(sum)
}

/// A statement that holds others, with slots of its own.
fn around(own: usize, inside: Items<Layout>, other: Items<Layout>) -> Result<Layout, NoMemory>
    ensures { IfOk result (λ l. l ≡ laid own inside other) }
{
    let parts = plus(total(inside.as_slice())?, total(other.as_slice())?)?;
    Ok(Layout {
        slots: plus(own, parts)?,
        inside,
        other,
    })
}

#[cycle(laying)]
#[tactic(auto, using(crate::proofs::Layouts::layout_rules))]
pub(crate) fn layout_of(alloc: Global, s: &Stmt) -> Result<Layout, NoMemory>
    ensures { IfOk result (λ l. l ≡ spec.layout_of s.now) }
{
    match s {
        Stmt::Block { decls, body, .. } => {
            let inside = layouts_of(alloc, body.as_slice())?;
            around(decls.len(), inside, Items::new(alloc))
        }
        Stmt::If(arms, other) | Stmt::Cases(arms, other) => {
            let inside = arm_layouts(alloc, arms.as_slice())?;
            let other = match other {
                None => Items::new(alloc),
                Some(body) => layouts_of(alloc, body.as_slice())?,
            };
            around(0, inside, other)
        }
        Stmt::Loop { kind, body, .. } => {
            let inside = layouts_of(alloc, body.as_slice())?;
            around(variables(kind), inside, Items::new(alloc))
        }
        Stmt::Into { .. }
        | Stmt::Assign(_, _, _)
        | Stmt::Exit(_, _)
        | Stmt::Continue(_, _)
        | Stmt::Return(_)
        | Stmt::Raise(_)
        | Stmt::Nothing => around(0, Items::new(alloc), Items::new(alloc)),
    }
}

/// The variables that a loop has itself.
fn variables(kind: &LoopKind) -> usize
    ensures { result ≡ kind_vars kind.now }
{
    match kind {
        LoopKind::Plain => 0,
        LoopKind::While(_) => 0,
        LoopKind::Count { .. } => 1,
    }
}

#[cycle(laying)]
#[tactic(auto, using(crate::proofs::Layouts::layout_rules))]
fn layouts_of(alloc: Global, list: &[Stmt]) -> Result<Items<Layout>, NoMemory>
    ensures { IfOk result (λ l. l ≡ spec.layouts_of list.now) }
{
    let mut all = Items::new(alloc);
    for s in list {
        let one = layout_of(alloc, s)?;
        all.push(one)?;
    }
    Ok(all)
}

#[cycle(laying)]
#[tactic(auto, using(crate::proofs::Layouts::layout_rules))]
fn arm_layout(alloc: Global, arm: &Arm) -> Result<Layout, NoMemory>
    ensures { IfOk result (λ l. l ≡ spec.arm_layout arm.now) }
{
    let inside = layouts_of(alloc, arm.body.as_slice())?;
    around(0, inside, Items::new(alloc))
}

#[cycle(laying)]
#[tactic(auto, using(crate::proofs::Layouts::layout_rules))]
fn arm_layouts(alloc: Global, arms: &[Arm]) -> Result<Items<Layout>, NoMemory>
    ensures { IfOk result (λ l. l ≡ spec.arm_layouts arms.now) }
{
    let mut all = Items::new(alloc);
    for arm in arms {
        let one = arm_layout(alloc, arm)?;
        all.push(one)?;
    }
    Ok(all)
}
