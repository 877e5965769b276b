//! Which functions of a program reach which by calls.

ghost use Rattle.std.specs.Prelude.{◌<◌, ◌≡◌, IfOk, false, get_or, length, set, true};
ghost use Rattle.program_check.specs.Firsts.{Firstly};
ghost use Rattle.program_check.specs.Reaching as spec;

use away_trees::Function;
use moved_names::sought::Sought;
use moved_names::words::{Looking, Places, in_stmt};
use sqlite_items::Items;
use std::alloc::{AllocError, Global};
use std::slice::from_ref;

/// A call of one function stands in another.
fn calls(f: &Function, g: &Function) -> bool
    ensures { result ≡ spec.calls f.now g.now }
{
    let l = Looking {
        sought: Sought::Calls(from_ref(&g.name)),
        places: Places::Nowhere,
    };
    in_stmt(l, &f.body)
}

/// Whom a function calls, as marks.
fn call_row(alloc: Global, fs: &[Function], f: &Function) -> Result<Vec<bool>, AllocError>
    ensures { IfOk result (λ row. row.items ≡ spec.call_row fs.now f.now) }
{
    let mut row = Vec::new(alloc);
    for g in fs {
        row.push(calls(f, g))?;
    }
    Ok(row)
}

/// Whom each function calls.
fn call_table(alloc: Global, fs: &[Function]) -> Result<Items<Items<bool>>, AllocError>
    ensures { IfOk result (λ table. table ≡ spec.call_table fs.now) }
{
    let mut table = Items::new(alloc);
    for f in fs {
        let row = Items::from_vec(call_row(alloc, fs, f)?);
        table.push(row)?;
    }
    Ok(table)
}

fn is_marked(marks: &[bool], g: usize) -> bool
    ensures { result ≡ get_or marks.now g false }
{
    if g < marks.len() { marks[g] } else { false }
}

/// One of the marked functions calls the function.
fn is_called(table: &[Items<bool>], marks: &[bool], g: usize) -> bool
    ensures { result ≡ spec.is_called table.now marks.now g }
{
    let mut rows = table;
    let mut rest = marks;
    while let [row, more_rows @ ..] = rows {
        let [mark, more @ ..] = rest else {
            return false;
        };
        if *mark && is_marked(row.as_slice(), g) {
            return true;
        }
        rows = more_rows;
        rest = more;
    }
    false
}

/// A function isn't marked, though a marked one calls it.
fn is_due(table: &[Items<bool>], marks: &[bool], g: usize) -> bool
    ensures { result ≡ spec.is_due table.now marks.now g }
{
    !is_marked(marks, g) && is_called(table, marks, g)
}

/// The first function that isn't marked, though a marked one calls it.
fn first_due(table: &[Items<bool>], marks: &[bool]) -> Option<usize>
    ensures { Firstly (spec.Due table.now marks.now) (length marks.now) result }
{
    for g in 0..marks.len() {
        if is_due(table, marks, g) {
            return Some(g);
        }
    }
    None
}

fn mark(marks: &mut [bool], g: usize)
    requires { g < length marks.old }
    ensures { marks.new ≡ set marks.old g true }
{
    marks[g] = true;
}

/// Marks what the marked functions call, until none is due.
fn spread(table: &[Items<bool>], marks: &mut [bool])
    ensures { spec.IsSpread table.now marks.old marks.new }
{
    while let Some(g) = first_due(table, marks) {
        mark(marks, g);
    }
}

/// Whether a function reaches itself: those that it calls are marked, and then those that a marked one calls.
fn reaches_itself(
    alloc: Global,
    fs: &[Function],
    table: &[Items<bool>],
    k: usize,
) -> Result<bool, AllocError>
    requires table { table.now ≡ spec.call_table fs.now }
    requires inside { k < length fs.now }
    ensures { IfOk result (spec.TellsRecursion fs.now k) }
{
    let mut marks = call_row(alloc, fs, &fs[k])?;
    spread(table, &mut marks);
    Ok(is_marked(&marks, k))
}

/// The first function that reaches itself.
pub(crate) fn first_recursive(alloc: Global, fs: &[Function]) -> Result<Option<usize>, AllocError>
    ensures { IfOk result (Firstly (spec.Recurs fs.now) (length fs.now)) }
{
    let table = call_table(alloc, fs)?;
    for k in 0..fs.len() {
        let recurs = reaches_itself(alloc, fs, table.as_slice(), k)?;
        if recurs {
            return Ok(Some(k));
        }
    }
    Ok(None)
}
