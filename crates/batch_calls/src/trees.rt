//! The tree of a batch.

ghost use Rattle.std.specs.Prelude.{◌≡◌, IfOk, length};
ghost use Rattle.batch_law.specs.Batches.{Batched};
ghost use Rattle.block_forms.specs.Lowered.{Lowered};
ghost use Rattle.block_forms.specs.Named.{Named};
ghost use Rattle.call_forms.specs.Called.{Called};
ghost use Rattle.call_forms.specs.Columned.{Columned};
ghost use Rattle.call_forms.specs.Merged.{Merged};

use away_trees::{Query, TableSchema};
use away_types::{CheckedFunction, CheckedSchema};
use away_values::{NoMemory, Ty};
use block_forms::expr_table;
use call_forms::Forms;
use cte_parts::alone;
use cte_template::{calls_of_rows, carry, ended_calls};
use std::alloc::Global;

/// The tree with its names: each row of the table at this place of the schema is a call, whose first column is carried.
pub(crate) fn batch_tree(
    alloc: Global,
    s: &CheckedSchema,
    f: &CheckedFunction,
    forms: &Forms,
    place: usize,
    table: &TableSchema,
) -> Result<Query, NoMemory>
    requires lowered { Lowered f.now.function f.now.slots forms.now.goto }
    requires named { Named (length f.now.slots) (length f.now.function.params)
        forms.now.goto forms.now.ssa }
    requires called { Called forms.now.goto forms.now.ssa forms.now.anf }
    requires merged { Merged forms.now.goto forms.now.anf forms.now.tail }
    requires columned { Columned f.now.slots forms.now.ssa forms.now.anf forms.now.tail }
    ensures { IfOk result (Batched f.now.function f.now.slots (length s.now.schema.tables)
        forms.now.goto forms.now.ssa forms.now.anf forms.now.tail place) }
{
    let tables = s.schema.tables.len();
    let Forms {
        goto,
        ssa,
        anf,
        tail,
    } = forms;
    let calls = calls_of_rows(alloc, f, goto, anf, tail, place, table)?;
    let first = alone(alloc, calls)?;
    let entries = expr_table(alloc, f)?;
    let carried = [Ty::Bigint];
    let recursive = carry(
        alloc, f, goto, ssa, anf, tail, &entries, tables, first, &carried,
    )?;
    let ended = ended_calls(alloc, tables, tail.columns.len())?;
    Ok(Query {
        recursive: Some(recursive),
        selects: alone(alloc, ended)?,
    })
}
