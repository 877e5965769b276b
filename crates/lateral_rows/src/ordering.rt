//! Rows in the order of their keys.

ghost use Rattle.std.specs.Prelude.{◌≡◌, IfOk, OnOk, drop, zip};
ghost use Rattle.std.specs.Option.{option_copied};
ghost use Rattle.std.specs.Ordering.{is_lt};
ghost use Rattle.sql_meaning.specs.Context.{at};
ghost use Rattle.sql_meaning.specs.KeyOrder.{directed, keys_cmp};
ghost use Rattle.sql_meaning.specs.Selected.{ordered_by, second_of};
ghost use Rattle.sql_meaning.specs.Selects.{sorted};
ghost use Rattle.lateral_rows.specs.RowParts.{or_null};

use crate::rows::{Rows, copy_row};
use crate::value_order::compare_held;
use away_values::{NoMemory, Value};
use sqlite_items::{Items, at as item_at};
use std::alloc::{AllocError, Global};
use std::cmp::Ordering;
use std::marker::Model;

/// A row, lent.
#[derive(Drop)]
struct Lent<'a> {
    values: &'a [Value],
}

impl<'a> Model for Lent<'a> {
    ghost use Rattle.std.specs.Prelude.{List};
    ghost use Rattle.away_values.specs.declared.values.Value.{Value as SqlValue};

    ghost Value = { List SqlValue };

    ghost view = { λ r. r.values.now };
}

impl<'a> Lent<'a> {
    fn new(values: &'a [Value]) -> Lent<'a>
        ensures { result ≡ values.now }
    {
        Lent { values }
    }

    fn values(&self) -> &'a [Value]
        ensures { result.now ≡ self.now }
    {
        self.values
    }
}

/// The rows in the order of their keys, which stand for each row in a list of its own. NULL comes last where a key rises and first where it falls,
/// and rows with equal keys keep their order. A row without keys falls away, a key that is missing in a list is NULL.
/// The manual: 7.5, Sorting Rows. That rows with equal keys keep their order is our own choice.
pub fn order(
    alloc: Global,
    rows: &Rows,
    keys: &[Items<Value>],
    descending: &[bool],
) -> Result<Rows, NoMemory>
    ensures { IfOk result (λ r. r.list ≡ ordered_by descending.now keys.now rows.now.list) }
{
    let list = ordered_rows(alloc, rows.list.as_slice(), keys, descending)?;
    Ok(Rows { list })
}

/// The same of rows that are lent.
#[tactic(auto, using(sql_meaning::proofs::SelectRules::order_rules))]
pub fn ordered_rows(
    alloc: Global,
    rows: &[Items<Value>],
    keys: &[Items<Value>],
    descending: &[bool],
) -> Result<Items<Items<Value>>, NoMemory>
    ensures { IfOk result (λ r. r ≡ ordered_by descending.now keys.now rows.now) }
{
    let mut all = pairs(alloc, keys, rows)?;
    sort_keyed(&mut all, descending)?;
    copy_second(alloc, all.as_slice())
}

#[tactic(auto, using(sql_meaning::proofs::SelectRules::zip_rules))]
fn pairs<'a>(
    alloc: Global,
    keys: &'a [Items<Value>],
    rows: &'a [Items<Value>],
) -> Result<Vec<(Lent<'a>, Lent<'a>)>, NoMemory>
    ensures { IfOk result (λ v. v.items ≡ zip keys.now rows.now) }
{
    let mut all = Vec::new(alloc);
    for i in 0..keys.len() {
        if i >= rows.len() {
            return Ok(all);
        }
        let pair = (Lent::new(keys[i].as_slice()), Lent::new(rows[i].as_slice()));
        all.push(pair).map_err(AllocError::from)?;
    }
    Ok(all)
}

fn sort_keyed(rows: &mut Vec<(Lent<'_>, Lent<'_>)>, descending: &[bool]) -> Result<(), AllocError>
    ensures { OnOk result (rows.new.items
        ≡ sorted (λ a b. is_lt (keys_cmp descending.now a b)) rows.old.items) }
{
    rows.sort_by(|a, b| compare_keys(descending, a.0.values(), b.0.values()))
}

fn compare_keys(descending: &[bool], a: &[Value], b: &[Value]) -> Ordering
    ensures { result ≡ keys_cmp descending.now a.now b.now }
{
    match descending {
        [] => Ordering::Equal,
        [falls, more @ ..] => match compare_directed(*falls, first(a), first(b)) {
            Ordering::Equal => compare_keys(more, rest(a), rest(b)),
            order => order,
        },
    }
}

#[tactic(auto, using(crate::proofs::PlaceRules::place_rules))]
fn first(values: &[Value]) -> Option<&Value>
    ensures { or_null (option_copied result) ≡ at values.now 0 }
{
    item_at(values, 0)
}

fn rest(values: &[Value]) -> &[Value]
    ensures { result.now ≡ drop 1 values.now }
{
    match values {
        [] => &[],
        [_, more @ ..] => more,
    }
}

fn compare_directed(falls: bool, a: Option<&Value>, b: Option<&Value>) -> Ordering
    ensures { result ≡ directed falls (or_null (option_copied a.entry))
        (or_null (option_copied b.entry)) }
{
    if falls {
        compare_held(b, a)
    } else {
        compare_held(a, b)
    }
}

#[tactic(auto, using(sql_meaning::proofs::SelectRules::zip_rules))]
fn copy_second(alloc: Global, all: &[(Lent<'_>, Lent<'_>)]) -> Result<Items<Items<Value>>, NoMemory>
    ensures { IfOk result (λ r. r ≡ second_of all.now) }
{
    let mut rows = Items::new(alloc);
    for pair in all {
        rows.push(copy_row(alloc, pair.1.values())?)?;
    }
    Ok(rows)
}
