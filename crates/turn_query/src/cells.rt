//! The cells of rows.

ghost use Rattle.std.specs.Prelude.{◌≡◌, ◌∷◌, ◌++◌, [], false, IfOk};
ghost use Rattle.sql_meaning.specs.Trees.{truth as truth_of};
ghost use Rattle.turn_template.specs.TurnTemplate as turn;
ghost use Rattle.turn_query.specs.Filled as spec;
ghost use Rattle.turn_terms.specs.References.{scope_of};
ghost use Rattle.turn_terms.specs.Sameness.{same as same_as};

use crate::classes::is_class;
use crate::conditions::either;
use away_core::Copied;
use away_trees::Expr;
use away_values::{Class, NoMemory, Ty};
use cte_parts::{after, class_text, col, null, number, small, sum, truth};
use sqlite_items::{Boxed, Items};
use std::alloc::Global;
use turn_terms::{Reference, Writer, same, value_of};

/// How many columns a row has.
pub(crate) fn width(w: &Writer<'_>) -> Result<usize, NoMemory>
    ensures { IfOk result (λ n. n ≡ spec.width w.now) }
{
    let many = sum(w.columns.len(), 4)?;
    Ok(many)
}

/// The first columns of a row as they are.
#[tactic(auto, using(crate::proofs::CellRules::one_more_column))]
pub(crate) fn all_cells(alloc: Global, many: usize) -> Result<Items<Expr>, NoMemory>
    ensures { IfOk result (λ list. list ≡ turn.all_cells many) }
{
    let mut list = Items::new(alloc);
    for i in 0..many {
        list.push(col(0, 0, i)?)?;
    }
    Ok(list)
}

/// So many columns of the row as they are, from its third on.
#[tactic(auto, using(crate::proofs::CellRules::one_more_kept))]
fn kept_columns(alloc: Global, many: usize) -> Result<Items<Expr>, NoMemory>
    ensures { IfOk result (λ list. list ≡ spec.kept many) }
{
    let mut list = Items::new(alloc);
    for i in 0..many {
        list.push(col(0, 0, sum(i, 2)?)?)?;
    }
    Ok(list)
}

/// The result that the row has: NULL, while it goes on.
fn kept_result(w: &Writer<'_>) -> Result<Expr, NoMemory>
    ensures { IfOk result (λ e. e ≡ spec.kept_result w.now) }
{
    col(0, 0, sum(w.columns.len(), 2)?)
}

/// The class that the row has: NULL, while it goes on.
fn kept_class(w: &Writer<'_>) -> Result<Expr, NoMemory>
    ensures { IfOk result (λ e. e ≡ spec.kept_class w.now) }
{
    col(0, 0, sum(w.columns.len(), 3)?)
}

/// The number of a label. One that is called alone isn't told: the row keeps the number that it has.
fn label_cell(alloc: Global, w: &Writer<'_>, label: usize) -> Result<Expr, NoMemory>
    ensures { IfOk result (λ e. e ≡ spec.numbered_cell w.now label) }
{
    if w.alone {
        return col(0, 0, 1);
    }
    number(alloc, label)
}

/// Whether the row goes on, and its label.
fn first_cells(
    alloc: Global,
    w: &Writer<'_>,
    going: bool,
    label: usize,
) -> Result<Items<Expr>, NoMemory>
    ensures { IfOk result (λ list. list ≡ truth_of going ∷ spec.numbered_cell w.now label ∷ []) }
{
    let mut list = Items::new(alloc);
    list.push(truth(alloc, going)?)?;
    list.push(label_cell(alloc, w, label)?)?;
    Ok(list)
}

/// The first cells of a finished row.
fn finished(alloc: Global, w: &Writer<'_>) -> Result<Items<Expr>, NoMemory>
    ensures { IfOk result (λ list. list
        ≡ truth_of false ∷ spec.numbered_cell w.now 0 ∷ spec.kept_columns w.now) }
{
    let mut list = first_cells(alloc, w, false, 0)?;
    list.append(kept_columns(alloc, w.columns.len())?)?;
    Ok(list)
}

/// The cells of a finished row, behind which its outcome stands.
fn ended(alloc: Global, w: &Writer<'_>, outcome: Items<Expr>) -> Result<Items<Expr>, NoMemory>
    ensures { IfOk result (λ list. list
        ≡ truth_of false ∷ spec.numbered_cell w.now 0 ∷ (spec.kept_columns w.now ++ outcome)) }
{
    let mut list = finished(alloc, w)?;
    list.append(outcome)?;
    Ok(list)
}

/// The cells of a value that is returned: FALSE, no label, the columns as they are, the value, and no class.
pub(crate) fn value_cells(
    alloc: Global,
    w: &Writer<'_>,
    value: Expr,
) -> Result<Items<Expr>, NoMemory>
    ensures { IfOk result (λ list. list ≡ spec.end_cells w.now value (spec.kept_class w.now)) }
{
    let mut outcome = Items::new(alloc);
    outcome.push(value)?;
    outcome.push(kept_class(w)?)?;
    let list = ended(alloc, w, outcome)?;
    Ok(list)
}

/// A class as a value of type text. There is no memory for one that is no class.
fn class_cell(alloc: Global, w: &Writer<'_>, class: Class) -> Result<Expr, NoMemory>
    ensures { IfOk result (λ e. e ≡ spec.text_of w.now class) }
{
    if is_class(&class.code) {
        class_text(alloc, class)
    } else {
        Err(NoMemory)
    }
}

/// The cells of a fault: FALSE, no label, the columns as they are, no result, and the class. There is no memory for one that is no class.
pub(crate) fn fault_cells(
    alloc: Global,
    w: &Writer<'_>,
    class: Class,
) -> Result<Items<Expr>, NoMemory>
    ensures { IfOk result (λ list. list
        ≡ spec.end_cells w.now (spec.kept_result w.now) (spec.text_of w.now class)) }
{
    let mut outcome = Items::new(alloc);
    outcome.push(kept_result(w)?)?;
    outcome.push(class_cell(alloc, w, class)?)?;
    let list = ended(alloc, w, outcome)?;
    Ok(list)
}

/// The cells where a body has no end.
pub(crate) fn endless_cells(alloc: Global, w: &Writer<'_>) -> Result<Items<Expr>, NoMemory>
    ensures { IfOk result (λ list. list
        ≡ spec.end_cells w.now (spec.kept_result w.now) (spec.kept_class w.now)) }
{
    let value = kept_result(w)?;
    value_cells(alloc, w, value)
}

/// What stands beside the first key that is the number.
#[tactic(auto, using(crate::proofs::PassedRules::passed_rules))]
pub(crate) fn passed(keys: &[u32], names: &[u32], number: u32) -> Option<u32>
    ensures { result ≡ turn.passed keys.now names.now number }
{
    for i in 0..keys.len() {
        if i >= names.len() {
            return None;
        }
        if keys[i] == number {
            return Some(names[i]);
        }
    }
    None
}

/// The cell of the name that is passed, or NULL of the column's type.
fn cell(alloc: Global, refs: &[Reference], passed: Option<u32>, ty: Ty) -> Result<Expr, NoMemory>
    ensures { IfOk result (λ e. e ≡ spec.cell_of (scope_of refs.now) ty passed) }
{
    match passed {
        None => null(alloc, ty),
        Some(name) => value_of(alloc, refs, name),
    }
}

/// A cell for each column.
fn row_cells(
    alloc: Global,
    w: &Writer<'_>,
    refs: &[Reference],
    places: &[u32],
    args: &[u32],
) -> Result<Items<Expr>, NoMemory>
    ensures { IfOk result (λ list. list ≡ spec.row_cells w.now 0 (scope_of refs.now) places.now
        args.now w.now.columns.now) }
{
    let mut list = Items::new(alloc);
    for i in 0..w.columns.len() {
        let passed = passed(places, args, small(i)?);
        list.push(cell(alloc, refs, passed, w.columns[i])?)?;
    }
    Ok(list)
}

/// The cells of a call: TRUE, the label, its row, and no result.
pub(crate) fn call_cells(
    alloc: Global,
    w: &Writer<'_>,
    refs: &[Reference],
    label: usize,
    places: &[u32],
    args: &[u32],
) -> Result<Items<Expr>, NoMemory>
    ensures { IfOk result (λ list. list ≡ spec.call_cells w.now label
        (spec.row_cells w.now 0 (scope_of refs.now) places.now args.now w.now.columns.now)) }
{
    let mut list = first_cells(alloc, w, true, after(label)?)?;
    list.append(row_cells(alloc, w, refs, places, args)?)?;
    list.push(kept_result(w)?)?;
    list.push(kept_class(w)?)?;
    Ok(list)
}

/// The cell of both where they are the same.
fn one_cell(alloc: Global, condition: &Expr, yes: &Expr, no: &Expr) -> Result<Expr, NoMemory>
    ensures { IfOk result (λ e. e
        ≡ turn.one_cell (same_as yes.now no.now) condition.now yes.now no.now) }
{
    if same(yes, no) {
        return yes.copy(alloc);
    }
    let first = Boxed::new(alloc, yes.copy(alloc)?)?;
    let second = Boxed::new(alloc, no.copy(alloc)?)?;
    either(alloc, condition, first, second)
}

/// Cell by cell what the condition chooses.
pub(crate) fn choices(
    alloc: Global,
    condition: &Expr,
    yes: &[Expr],
    no: &[Expr],
) -> Result<Items<Expr>, NoMemory>
    ensures { IfOk result (λ list. list ≡ turn.choices same_as condition.now yes.now no.now) }
{
    let mut list = Items::new(alloc);
    for i in 0..yes.len() {
        if i >= no.len() {
            return Ok(list);
        }
        list.push(one_cell(alloc, condition, &yes[i], &no[i])?)?;
    }
    Ok(list)
}
