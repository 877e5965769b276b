//! Sums of counts.

ghost use Rattle.std.specs.Prelude.{◌≡◌, ◌+◌, IfOk};
ghost use Rattle.block_forms.specs.Laid as spec;

use away_values::NoMemory;
use block_forms::Position;

/// The sum, where it fits: no form that memory holds has more.
pub(crate) fn sum(a: u32, b: u32) -> Result<u32, NoMemory>
    ensures { IfOk result (λ c. c ≡ a + b) }
{
    match a.checked_add(b) {
        Some(c) => Ok(c),
        None => Err(NoMemory),
    }
}

pub(crate) fn place(node: u32, expr: u32, slot: u32, fors: u32, targets: u32) -> Position
    ensures { result ≡ spec.place node expr slot fors targets }
{
    Position {
        node,
        expr,
        slot,
        fors,
        targets,
    }
}

/// What stands before, and what stands in it, together.
pub(crate) fn after(p: Position, q: Position) -> Result<Position, NoMemory>
    ensures { IfOk result (λ r. r ≡ spec.after p q) }
{
    Ok(Position {
        node: sum(p.node, q.node)?,
        expr: sum(p.expr, q.expr)?,
        slot: sum(p.slot, q.slot)?,
        fors: sum(p.fors, q.fors)?,
        targets: sum(p.targets, q.targets)?,
    })
}
