//! The whole query.

ghost use Rattle.std.specs.Prelude.{◌≡◌, ◌<◌, ◌^◌, ◌∷◌, [], List, IfOk, length};
ghost use Rattle.block_forms.specs.Expressions.{expressions};
ghost use Rattle.block_forms.specs.Lowered.{Lowered};
ghost use Rattle.block_forms.specs.Named.{Named};
ghost use Rattle.block_forms.specs.Places.{Each, EachAt};
ghost use Rattle.away_trees.specs.declared.queries.Expr.TheViews.{roll-Recursive};
ghost use Rattle.away_trees.specs.declared.queries.Select.{Select as TheSelect};
ghost use Rattle.call_forms.specs.Called.{Called};
ghost use Rattle.call_forms.specs.Carried.{Carried};
ghost use Rattle.call_forms.specs.Carrying.{with_part};
ghost use Rattle.cte_parts.specs.Names.{table_name};
ghost use Rattle.call_forms.specs.Columned.{Columned};
ghost use Rattle.call_forms.specs.Merged.{Merged};
ghost use Rattle.call_forms.specs.Templated.{Templated};
ghost use Rattle.cte_template.specs.Making.{making, making_of};
ghost use Rattle.cte_template.specs.CarriedNumbers as numbers;
ghost use Rattle.cte_template.specs.CarriedTree as carrying;
ghost use Rattle.cte_template.specs.Numbers.{NumbersFit};
ghost use Rattle.call_law.specs.Terms.{FailsByClass};
ghost use Rattle.cte_template.specs.Tree as spec;

use crate::body::body_of;
use crate::draft::behind;
use crate::places::on_row;
use crate::rows::{add_arguments, all_columns};
use crate::writer::{Writer, label_of, params_of, places_at};
use away_trees::{Expr, FromItem, Query, Recursive, Select, Source};
use away_types::CheckedFunction;
use away_values::{NoMemory, Ty};
use block_forms::{ExprTable, Goto, Ssa};
use call_forms::{Anf, Tail};
use cte_parts::{
    Known, add, after, alone, col, equal, names_carrying, not, null, number, only, select,
    subquery, sum, truth, working, working_carrying,
};
use sqlite_items::Items;
use std::alloc::Global;

/// Whether the row is at the label with this number.
fn at_label(alloc: Global, w: &Writer<'_>, label: usize) -> Result<Expr, NoMemory>
    ensures { IfOk result (λ e. e ≡ carrying.at_label (making w.now) label) }
{
    equal(alloc, col(2, 0, 1)?, number(alloc, label)?)
}

/// A number of the machine fits a word.
fn fits_word(number: usize)
    ensures { number < 2 ^ 64 }
{}

/// The branch of a label, counted from 0.
fn branch(alloc: Global, w: &Writer<'_>, label: usize, block: u32) -> Result<Select, NoMemory>
    requires classes { Each FailsByClass w.now.anf.now.blocks }
    ensures is { IfOk result
        (λ s. s ≡ carrying.branch (making w.now) w.now.carried.now label block) }
    ensures fits { IfOk result
        (λ s. numbers.AliasesFit (making w.now) w.now.carried.now label block) }
{
    let mut draft = behind(alloc, 1, at_label(alloc, w, after(label)?)?)?;
    let params = params_of(w, block as usize);
    let pairs = on_row(alloc, w.carried, params, places_at(w, label))?;
    let most = w.anf.blocks.len();
    let list = body_of(alloc, w, most, 1, block, pairs, &mut draft)?;
    fits_word(draft.next);
    Ok(select(alloc, list, draft.items, None))
}

/// The branches of all labels.
fn branches(alloc: Global, w: &Writer<'_>) -> Result<Items<Select>, NoMemory>
    requires classes { Each FailsByClass w.now.anf.now.blocks }
    ensures is { IfOk result (λ list. list
        ≡ carrying.branches (making w.now) w.now.carried.now 0 w.now.tail.now.labels) }
    ensures fits { IfOk result (λ list. EachAt
        (numbers.AliasesFit (making w.now) w.now.carried.now) w.now.tail.now.labels) }
{
    let mut list = Items::new(alloc);
    let labels = w.tail.labels.as_slice();
    for i in 0..labels.len() {
        list.push(branch(alloc, w, i, labels[i])?)?;
    }
    Ok(list)
}

/// The first row: the call goes on, at the entry's label, with the arguments, and without a result.
fn start(alloc: Global, w: &Writer<'_>, entry: u32) -> Result<Select, NoMemory>
    ensures { IfOk result (λ s. s ≡ spec.start (making w.now) entry) }
{
    let label = match label_of(w, entry) {
        Some(label) => label,
        None => w.tail.labels.len(),
    };
    let mut list = only(alloc, truth(alloc, true)?)?;
    add(&mut list, number(alloc, after(label)?)?)?;
    let params = params_of(w, entry as usize);
    add_arguments(alloc, w, &mut list, places_at(w, label), params)?;
    add(&mut list, null(alloc, w.result)?)?;
    add(&mut list, null(alloc, Ty::Text)?)?;
    Ok(select(alloc, list, Items::new(alloc), None))
}

/// The rows of the labels.
fn labels(alloc: Global, w: &Writer<'_>) -> Result<FromItem, NoMemory>
    requires classes { Each FailsByClass w.now.anf.now.blocks }
    ensures is { IfOk result (λ i. i ≡ carrying.label_rows (making w.now) w.now.carried.now) }
    ensures fits { IfOk result (λ i. numbers.NumbersFit (making w.now) w.now.carried.now) }
{
    fits_word(w.carried.len());
    fits_word(w.tail.columns.len());
    let query = subquery(alloc, branches(alloc, w)?)?;
    Ok(FromItem {
        source: Source::Sub(query, true),
        alias: Known::Step.name(alloc)?,
        columns: names_carrying(alloc, w.carried.len(), w.tail.columns.len())?,
    })
}

/// The step from a row to the next: the columns of a label's row, while the call goes on.
fn step(alloc: Global, w: &Writer<'_>, tables: usize) -> Result<Select, NoMemory>
    requires classes { Each FailsByClass w.now.anf.now.blocks }
    ensures is { IfOk result
        (λ s. s ≡ carrying.step (making w.now) w.now.carried.now tables) }
    ensures fits { IfOk result (λ s. numbers.NumbersFit (making w.now) w.now.carried.now) }
{
    let columns = w.tail.columns.len();
    let mut from = working_carrying(alloc, tables, w.carried.len(), columns)?;
    from.push(labels(alloc, w)?)?;
    let list = all_columns(alloc, w, 1)?;
    let goes_on = col(0, 0, 0)?;
    Ok(select(alloc, list, from, Some(goes_on)))
}

/// The result and the fault of the finished row.
fn last(alloc: Global, w: &Writer<'_>, tables: usize) -> Result<Select, NoMemory>
    ensures { IfOk result (λ s. s ≡ spec.last (making w.now) tables) }
{
    let columns = w.tail.columns.len();
    let from = working(alloc, tables, columns)?;
    let mut list = only(alloc, col(0, 0, sum(columns, 2)?)?)?;
    add(&mut list, col(0, 0, sum(columns, 3)?)?)?;
    let over = not(alloc, col(0, 0, 0)?)?;
    Ok(select(alloc, list, from, Some(over)))
}

/// The recursive table: its name, those of its columns, and its rows.
fn named(
    alloc: Global,
    w: &Writer<'_>,
    first: Items<Select>,
    second: Select,
) -> Result<Recursive, NoMemory>
    ensures { IfOk result (λ r. r ≡ roll-Recursive (record {
      name = table_name;
      columns = carrying.column_names (making w.now) w.now.carried.now;
      first = first;
      second = second;
    })) }
{
    let name = Known::Table.name(alloc)?;
    let columns = names_carrying(alloc, w.carried.len(), w.tail.columns.len())?;
    Ok(Recursive {
        name,
        columns,
        first,
        second,
    })
}

/// The recursive table of these first rows, each of which carries further values.
pub(crate) fn carried_table(
    alloc: Global,
    w: &Writer<'_>,
    first: Items<Select>,
    tables: usize,
) -> Result<Recursive, NoMemory>
    requires classes { Each FailsByClass w.now.anf.now.blocks }
    ensures is { IfOk result
        (λ r. r ≡ carrying.carried_table (making w.now) w.now.carried.now first tables) }
    ensures fits { IfOk result (λ r. numbers.NumbersFit (making w.now) w.now.carried.now) }
{
    let second = step(alloc, w, tables)?;
    named(alloc, w, first, second)
}

/// The tree with its names, of one call: its rows carry nothing.
pub(crate) fn tree(
    alloc: Global,
    w: &Writer<'_>,
    entry: u32,
    tables: usize,
) -> Result<Query, NoMemory>
    requires classes { Each FailsByClass w.now.anf.now.blocks }
    requires one { w.now.carried.now ≡ [] }
    ensures is { IfOk result (λ q. q ≡ spec.tree (making w.now) entry tables) }
    ensures fits { IfOk result (λ q. NumbersFit (making w.now)) }
{
    let first = alone(alloc, start(alloc, w, entry)?)?;
    let recursive = carried_table(alloc, w, first, tables)?;
    let selects = alone(alloc, last(alloc, w, tables)?)?;
    Ok(Query {
        recursive: Some(recursive),
        selects,
    })
}

/// The query of a tail form over so many tables, as the check of its text gives it: names of aliases and columns stand in it, and each column stands
/// by its place.
pub fn template_tree(
    alloc: Global,
    f: &CheckedFunction,
    goto: &Goto,
    ssa: &Ssa,
    anf: &Anf,
    tail: &Tail,
    table: &ExprTable,
    tables: usize,
) -> Result<Query, NoMemory>
    requires lowered { Lowered f.now.function f.now.slots goto.now }
    requires named { Named (length f.now.slots) (length f.now.function.params) goto.now ssa.now }
    requires called { Called goto.now ssa.now anf.now }
    requires merged { Merged goto.now anf.now tail.now }
    requires columned { Columned f.now.slots ssa.now anf.now tail.now }
    requires entries { table.now.list ≡ expressions f.now.function }
    ensures templated { IfOk result
        (λ q. Templated f.now.function f.now.slots tables goto.now ssa.now anf.now tail.now q) }
    ensures is { IfOk result (λ q. q ≡ spec.tree
        (making_of f.now.function f.now.slots ssa.now anf.now tail.now) goto.now.entry tables) }
    ensures fits { IfOk result
        (λ q. NumbersFit (making_of f.now.function f.now.slots ssa.now anf.now tail.now)) }
{
    let w = Writer {
        table: table.list.as_slice(),
        slots: f.slots.as_slice(),
        names: ssa.names.as_slice(),
        result: f.function.result,
        anf,
        tail,
        carried: &[],
    };
    tree(alloc, &w, goto.entry, tables)
}

/// The recursive table of a query over many calls of a function: these first rows, and what follows from each row of the table.
/// Each row carries values of these types in columns behind the flag and the label, and what follows from it carries the same.
pub fn carry(
    alloc: Global,
    f: &CheckedFunction,
    goto: &Goto,
    ssa: &Ssa,
    anf: &Anf,
    tail: &Tail,
    table: &ExprTable,
    tables: usize,
    first: Items<Select>,
    carried: &[Ty],
) -> Result<Recursive, NoMemory>
    requires lowered { Lowered f.now.function f.now.slots goto.now }
    requires named { Named (length f.now.slots) (length f.now.function.params) goto.now ssa.now }
    requires called { Called goto.now ssa.now anf.now }
    requires merged { Merged goto.now anf.now tail.now }
    requires columned { Columned f.now.slots ssa.now anf.now tail.now }
    requires entries { table.now.list ≡ expressions f.now.function }
    ensures carried { IfOk result (λ r. (selects : List TheSelect)
        → Carried f.now.function f.now.slots tables goto.now ssa.now anf.now tail.now
        carried.now first selects (with_part r selects)) }
    ensures is { IfOk result (λ r. r ≡ carrying.carried_table
        (making_of f.now.function f.now.slots ssa.now anf.now tail.now) carried.now first tables) }
    ensures fits { IfOk result (λ r. numbers.NumbersFit
        (making_of f.now.function f.now.slots ssa.now anf.now tail.now) carried.now) }
{
    let w = Writer {
        table: table.list.as_slice(),
        slots: f.slots.as_slice(),
        names: ssa.names.as_slice(),
        result: f.function.result,
        anf,
        tail,
        carried,
    };
    carried_table(alloc, &w, first, tables)
}
