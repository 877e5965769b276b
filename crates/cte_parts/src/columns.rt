//! The columns that stand for slots.

ghost use Rattle.std.specs.Prelude.{◌≡◌, IfOk};
ghost use Rattle.sql_meaning.specs.Placed.{further};
ghost use Rattle.cte_parts.specs.Columns.{column_beside};
ghost use Rattle.cte_parts.specs.Placing as spec;

use crate::numbers::{small, sum};
use away_trees::Col;
use away_values::NoMemory;

/// What stands for slots: each column beside its slot, and one more for what has none.
#[derive(Clone, Copy)]
pub(crate) struct Leaves<'a> {
    pub(crate) slots: &'a [u32],
    pub(crate) columns: &'a [Col],
    pub(crate) other: Col,
}

/// The column beside the first slot that is this one.
#[tactic(auto, using(crate::proofs::ColumnRules::beside_rules))]
fn beside(slots: &[u32], columns: &[Col], other: Col, slot: u32) -> Col
    ensures { result ≡ column_beside slots.now columns.now other slot }
{
    for i in 0..slots.len() {
        if i >= columns.len() {
            return other;
        }
        if slots[i] == slot {
            return columns[i];
        }
    }
    other
}

/// The column of a slot, inside so many selects of the expression.
#[tactic(auto, using(crate::proofs::PlacingRules::column_is))]
pub(crate) fn column_of(leaves: &Leaves<'_>, inside: usize, slot: u32) -> Result<Col, NoMemory>
    ensures { IfOk result (λ c. c ≡ further inside (spec.column_at leaves.now slot)) }
{
    let column = beside(leaves.slots, leaves.columns, leaves.other, slot);
    let level = small(sum(column.level as usize, inside)?)?;
    Ok(Col { level, ..column })
}
