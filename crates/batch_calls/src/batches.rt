//! The query of a batch.

ghost use Rattle.std.specs.Prelude.{◌≡◌, IfErr, IfOk, length, string_bytes};
ghost use Rattle.away_trees.specs.declared.statements.Function.{Function};
ghost use Rattle.away_types.specs.CheckedFunctions.{IsChecked};
ghost use Rattle.away_types.specs.CheckedQueries.{resolved_query};
ghost use Rattle.batch_calls.specs.Batches.{AnswersAsCalls, IsBatch};
ghost use Rattle.batch_calls.specs.CallTables.{IsCallTable};
ghost use Rattle.batch_law.specs.Batches.{Batched};
ghost use Rattle.block_forms.specs.Lowered.{Lowered};
ghost use Rattle.block_forms.specs.Named.{Named};
ghost use Rattle.call_forms.specs.Called.{Called};
ghost use Rattle.call_forms.specs.Columned.{Columned};
ghost use Rattle.call_forms.specs.Merged.{Merged};

use crate::tables::call_table;
use crate::trees::batch_tree;
use crate::written::{Batch, written};
use away_trees::TableSchema;
use away_types::{CheckedFunction, CheckedSchema};
use away_values::NoMemory;
use batch_law::batches_answer_as_functions;
use call_forms::Forms;
use equivalence::accepted_forms_are_equivalent;
use sqlite_items::Boxed;
use std::alloc::Global;

/// Why there is no batch.
#[derive(Clone, Copy, Debug, PartialEq, Eq)]
pub enum BatchRefusal {
    /// The table's columns aren't a bigint and then the types of the function's parameters.
    Shape,
    NoMemory,
}

/// The query over the table at this place, whose rows are calls of the function.
fn of_table(
    alloc: Global,
    s: &CheckedSchema,
    f: &CheckedFunction,
    forms: &Forms,
    place: u32,
    table: &TableSchema,
) -> Result<Batch, NoMemory>
    requires lowered { Lowered f.now.function f.now.slots forms.now.goto }
    requires named { Named (length f.now.slots) (length f.now.function.params)
        forms.now.goto forms.now.ssa }
    requires called { Called forms.now.goto forms.now.ssa forms.now.anf }
    requires merged { Merged forms.now.goto forms.now.anf forms.now.tail }
    requires columned { Columned f.now.slots forms.now.ssa forms.now.anf forms.now.tail }
    requires table { IsCallTable s.now.schema place f.now.function }
    ensures batch { IfOk result (λ b. IsBatch s.now.schema f.now.function place b.query
        (string_bytes b.text)) }
    ensures batched { IfOk result (λ b. Batched f.now.function f.now.slots
        (length s.now.schema.tables) forms.now.goto forms.now.ssa forms.now.anf forms.now.tail place
        (resolved_query s.now.schema b.query)) }
{
    let tree = Boxed::new(
        alloc,
        batch_tree(alloc, s, f, forms, place as usize, table)?,
    )?;
    written(alloc, s, tree.get())
}

/// The query that calls a function for each row of the table at this place of the schema: the first column tells the calls apart, the others are
/// the arguments. Its rows are the first column, the call's value and, where the call faults, the SQLSTATE, in the order of the first column
/// with NULL last. The function was checked under the schema, and the forms are its own.
pub fn batch(
    alloc: Global,
    s: &CheckedSchema,
    f: &CheckedFunction,
    forms: &Forms,
    table: u32,
) -> Result<Batch, BatchRefusal>
    requires lowered { Lowered f.now.function f.now.slots forms.now.goto }
    requires named { Named (length f.now.slots) (length f.now.function.params)
        forms.now.goto forms.now.ssa }
    requires called { Called forms.now.goto forms.now.ssa forms.now.anf }
    requires merged { Merged forms.now.goto forms.now.anf forms.now.tail }
    requires columned { Columned f.now.slots forms.now.ssa forms.now.anf forms.now.tail }
    ensures batch { IfOk result (λ b. IsBatch s.now.schema f.now.function table b.query
        (string_bytes b.text)) }
    // With its names resolved the query carries the table's first column through the working tables of these forms.
    ensures batched { IfOk result (λ b. Batched f.now.function f.now.slots
        (length s.now.schema.tables) forms.now.goto forms.now.ssa forms.now.anf forms.now.tail table
        (resolved_query s.now.schema b.query)) }
    // So it answers as the calls of its rows do, each alone.
    ensures answers { IfOk result
        (λ b. (written : Function) → IsChecked s.now.schema written f.now.function f.now.slots
        → AnswersAsCalls s.now.schema f.now.function f.now.slots table
        (resolved_query s.now.schema b.query)) }
    // The shape is refused where it isn't that of a table of calls, and nowhere else.
    ensures shape { IfErr result (λ e. e ≡ BatchRefusal.Shape
        → IsCallTable s.now.schema table f.now.function → ⊥) }
{
    accepted_forms_are_equivalent(f);
    batches_answer_as_functions();
    let _count = s.schema.tables.len();
    match call_table(&s.schema, &f.function, table) {
        None => Err(BatchRefusal::Shape),
        Some(calls) => match of_table(alloc, s, f, forms, table, calls) {
            Ok(batch) => Ok(batch),
            Err(_) => Err(BatchRefusal::NoMemory),
        },
    }
}
