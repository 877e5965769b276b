//! The query over one recursive table.

ghost use Rattle.std.specs.Prelude.{◌≡◌, IfOk, length};
ghost use Rattle.block_forms.specs.Lowered.{Lowered};
ghost use Rattle.block_forms.specs.Named.{Named};
ghost use Rattle.call_forms.specs.Called.{Called};
ghost use Rattle.call_forms.specs.Columned.{Columned};
ghost use Rattle.call_forms.specs.Merged.{Merged};
ghost use Rattle.inline_calls.specs.Seen.{seen};
ghost use Rattle.inline_calls.specs.Tree as spec;
ghost use Rattle.cte_parts.specs.Trees.{working_carrying as working};
ghost use Rattle.inline_law.specs.Written as tree;

use crate::forms::{PartedSelect, with_list};
use crate::judged::types_of;
use crate::leaves::{CallPlaces, Moves};
use crate::moving::moved_all;
use crate::moving_queries::moved_items;
use crate::starts::{Starting, starts_of_calls};
use away_trees::{Expr, FromItem, Query, Recursive, Select};
use away_types::CheckedFunction;
use away_values::{NoMemory, Ty};
use block_forms::expr_table;
use call_forms::Forms;
use cte_parts::{alone, working_carrying};
use cte_template::carry;
use sqlite_items::Items;
use std::alloc::Global;

/// The arguments of the calls one select further in.
fn inner_calls(alloc: Global, calls: &[Items<Expr>]) -> Result<Items<Items<Expr>>, NoMemory>
    ensures { IfOk result (λ all. all ≡ tree.inner_calls calls.now) }
{
    let mut all = Items::new(alloc);
    for es in calls {
        all.push(moved_all(alloc, es.as_slice(), &Moves::Outward, 0)?)?;
    }
    Ok(all)
}

/// The select with a subquery over the table in the place of each call.
fn filled_over(
    alloc: Global,
    table: &FromItem,
    columns: usize,
    c: &PartedSelect,
) -> Result<Select, NoMemory>
    ensures { IfOk result (λ s. s ≡ tree.filled_select table.now columns (seen c.now)) }
{
    let calls = inner_calls(alloc, c.calls.as_slice())?;
    let places = CallPlaces {
        calls: calls.as_slice(),
        table,
        columns,
    };
    let list = moved_items(alloc, c.select.list.as_slice(), &Moves::Calls(&places), 0)?;
    with_list(alloc, &c.select, list)
}

/// The select with the subqueries of its calls.
fn filled_select(
    alloc: Global,
    tables: usize,
    carried: usize,
    columns: usize,
    c: &PartedSelect,
) -> Result<Select, NoMemory>
    ensures { IfOk result (λ s. s ≡ tree.filled_select
        (working tables carried columns) columns (seen c.now)) }
{
    let items = working_carrying(alloc, tables, carried, columns)?;
    let [table] = items.as_slice() else {
        return Err(NoMemory);
    };
    filled_over(alloc, table, columns, c)
}

/// The types of what each row carries: the number of its call, and the arguments.
fn carried_types(alloc: Global, params: &[Ty]) -> Result<Items<Ty>, NoMemory>
    ensures { IfOk result (λ ts. ts ≡ tree.carried_types params.now) }
{
    let mut types = Items::new(alloc);
    types.push(Ty::Bigint)?;
    for t in params {
        types.push(*t)?;
    }
    Ok(types)
}

/// The recursive table: its first rows are those of the calls.
fn recursive_part(
    alloc: Global,
    f: &CheckedFunction,
    forms: &Forms,
    tables: usize,
    params: &[Ty],
    carried: &[Ty],
    c: &PartedSelect,
) -> Result<Recursive, NoMemory>
    requires lowered { Lowered f.now.function f.now.slots forms.now.goto }
    requires named { Named (length f.now.slots) (length f.now.function.params)
        forms.now.goto forms.now.ssa }
    requires called { Called forms.now.goto forms.now.ssa forms.now.anf }
    requires merged { Merged forms.now.goto forms.now.anf forms.now.tail }
    requires columned { Columned f.now.slots forms.now.ssa forms.now.anf forms.now.tail }
    ensures { IfOk result (λ r. r ≡ spec.recursive_part f.now.function f.now.slots tables
        forms.now.goto forms.now.ssa forms.now.anf forms.now.tail params.now carried.now
        (seen c.now)) }
{
    let w = Starting {
        anf: &forms.anf,
        tail: &forms.tail,
        entry: forms.goto.entry,
        result: f.function.result,
        params,
    };
    let first = starts_of_calls(alloc, &w, c)?;
    let entries = expr_table(alloc, f)?;
    carry(
        alloc,
        f,
        &forms.goto,
        &forms.ssa,
        &forms.anf,
        &forms.tail,
        &entries,
        tables,
        first,
        carried,
    )
}

/// The tree of a select with its calls, over so many tables: each call is a subquery over one recursive table, whose first rows are those of the
/// calls at each row of the select.
pub(crate) fn tree_of(
    alloc: Global,
    f: &CheckedFunction,
    forms: &Forms,
    tables: usize,
    c: &PartedSelect,
) -> Result<Query, NoMemory>
    requires lowered { Lowered f.now.function f.now.slots forms.now.goto }
    requires named { Named (length f.now.slots) (length f.now.function.params)
        forms.now.goto forms.now.ssa }
    requires called { Called forms.now.goto forms.now.ssa forms.now.anf }
    requires merged { Merged forms.now.goto forms.now.anf forms.now.tail }
    requires columned { Columned f.now.slots forms.now.ssa forms.now.anf forms.now.tail }
    ensures { IfOk result (λ q. q ≡ spec.tree_of f.now.function f.now.slots tables
        forms.now.goto forms.now.ssa forms.now.anf forms.now.tail (seen c.now)) }
{
    let params = types_of(alloc, f.function.params.as_slice())?;
    let carried = carried_types(alloc, params.as_slice())?;
    let part = recursive_part(
        alloc,
        f,
        forms,
        tables,
        params.as_slice(),
        carried.as_slice(),
        c,
    )?;
    let columns = forms.tail.columns.len();
    let select = filled_select(alloc, tables, carried.len(), columns, c)?;
    Ok(Query {
        recursive: Some(part),
        selects: alone(alloc, select)?,
    })
}
