//! The names of the query's tables and columns.

ghost use Rattle.std.specs.Prelude.{◌≡◌, ◌∷◌, [], IfOk, decimal};
ghost use Rattle.away_values.specs.Words.{IsName};
ghost use Rattle.cte_parts.specs.Known.{text_of};
ghost use Rattle.cte_parts.specs.Names as spec;

use away_values::{Name, NoMemory, name};
use itoa::Buffer;
use sqlite_items::Items;
use std::alloc::Global;

/// The query's names, but for those that have a number.
#[derive(Clone, Copy, Debug, PartialEq, Eq)]
pub enum Known {
    /// The working table.
    Table,
    /// The rows of the labels.
    Step,
    /// The one column of a gate or a value.
    Only,
    /// Whether the call goes on.
    Go,
    /// The label at which the call is.
    Label,
    Result,
    Fault,
}

impl Known {
    fn text(self) -> &'static str
        ensures is { result.now ≡ text_of self }
        ensures name { IsName result.now }
    {
        match self {
            Known::Table => "away_r",
            Known::Step => "away_s",
            Known::Only => "away_v",
            Known::Go => "away_go",
            Known::Label => "away_fn",
            Known::Result => "away_res",
            Known::Fault => "away_err",
        }
    }

    pub fn name(self, alloc: Global) -> Result<Name, NoMemory>
        ensures { IfOk result (λ n. n ≡ text_of self) }
    {
        name_that_is(alloc, self.text())
    }

    /// A list of this name alone.
    pub fn alone(self, alloc: Global) -> Result<Items<Name>, NoMemory>
        ensures { IfOk result (λ list. list ≡ text_of self ∷ []) }
    {
        let mut list = Items::new(alloc);
        list.push(self.name(alloc)?)?;
        Ok(list)
    }
}

/// The columns of a row, of which so many hold values.
pub fn row_names(alloc: Global, columns: usize) -> Result<Items<Name>, NoMemory>
    ensures { IfOk result (λ all. all ≡ spec.row_names columns) }
{
    names_carrying(alloc, 0, columns)
}

/// The columns of a row, of which so many are carried from row to row, and so many hold values.
pub fn names_carrying(
    alloc: Global,
    carried: usize,
    columns: usize,
) -> Result<Items<Name>, NoMemory>
    ensures { IfOk result (λ all. all ≡ spec.names_carrying carried columns) }
{
    let mut all = Known::Go.alone(alloc)?;
    all.push(Known::Label.name(alloc)?)?;
    all.append(carried_names(alloc, carried)?)?;
    all.append(value_names(alloc, columns)?)?;
    all.append(outcomes(alloc)?)?;
    Ok(all)
}

#[tactic(auto, using(crate::proofs::Lists::one_more_carried))]
fn carried_names(alloc: Global, carried: usize) -> Result<Items<Name>, NoMemory>
    ensures { IfOk result (λ all. all ≡ spec.carried_names carried) }
{
    let mut all = Items::new(alloc);
    for place in 0..carried {
        all.push(carried_name(alloc, place)?)?;
    }
    Ok(all)
}

#[tactic(auto, using(crate::proofs::Lists::one_more_column))]
fn value_names(alloc: Global, columns: usize) -> Result<Items<Name>, NoMemory>
    ensures { IfOk result (λ all. all ≡ spec.value_names columns) }
{
    let mut all = Items::new(alloc);
    for place in 0..columns {
        all.push(column_name(alloc, place)?)?;
    }
    Ok(all)
}

/// The columns of the result and of the fault.
fn outcomes(alloc: Global) -> Result<Items<Name>, NoMemory>
    ensures { IfOk result (λ all. all ≡ spec.result_name ∷ spec.fault_name ∷ []) }
{
    let mut all = Known::Result.alone(alloc)?;
    all.push(Known::Fault.name(alloc)?)?;
    Ok(all)
}

/// A column that holds a value, by its place from 0.
fn column_name(alloc: Global, place: usize) -> Result<Name, NoMemory>
    ensures { IfOk result (λ n. n ≡ spec.column_name place) }
{
    let mut text = String::from_str(alloc, "away_c")?;
    let mut buffer = Buffer::new();
    text.push_str(buffer.format(place))?;
    name_that_is(alloc, &text)
}

/// A column that is carried, by its place from 0.
fn carried_name(alloc: Global, place: usize) -> Result<Name, NoMemory>
    ensures { IfOk result (λ n. n ≡ spec.carried_name place) }
{
    let mut text = String::from_str(alloc, "away_x")?;
    let mut buffer = Buffer::new();
    text.push_str(buffer.format(place))?;
    name_that_is(alloc, &text)
}

/// An item of a branch, by its number.
pub fn alias_name(alloc: Global, number: usize) -> Result<Name, NoMemory>
    ensures { IfOk result (λ n. n ≡ spec.alias_name number) }
{
    let mut text = String::from_str(alloc, "away_k")?;
    let mut buffer = Buffer::new();
    text.push_str(buffer.format(number))?;
    name_that_is(alloc, &text)
}

/// The digits of a table's place.
pub fn digits(alloc: Global, place: usize) -> Result<Name, NoMemory>
    ensures { IfOk result (λ n. n ≡ decimal place) }
{
    let mut buffer = Buffer::new();
    name_that_is(alloc, buffer.format(place))
}

/// The name that a text is.
fn name_that_is(alloc: Global, text: &str) -> Result<Name, NoMemory>
    requires { IsName text.now }
    ensures { IfOk result (λ n. n ≡ text.now) }
{
    match name(alloc, text)? {
        Some(name) => Ok(name),
        None => unreachable!(),
    }
}
