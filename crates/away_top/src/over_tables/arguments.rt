//! The words of a run over tables: its bound, and the values of its arguments.

ghost use Rattle.std.specs.Prelude.{◌≡◌, ◌==◌, IfOk, length, map, nat_le, slice_index, string_bytes};
ghost use Rattle.std.specs.List.{list_all};
ghost use Rattle.away_top.specs.Arguments.{values_for as values_by_place, are_enough as are_enough_for, argument_of, bound_of as bound_by, type_of as type_by, values_from, values_of as values_by};

use away_values::{Name, NoMemory, Ty, Value};
use csv_tables::read_value;
use sqlite_items::Items;
use std::alloc::Global;

/// The most arguments.
const MOST_ARGUMENTS: usize = 64;

/// The bound that a word of digits is, where it has 64 bits.
#[tactic(auto, using(crate::proofs::Bounds::bounds))]
pub fn bound_of(word: &str) -> Option<u64>
    ensures { result ≡ bound_by word.now }
{
    if has_plus(word.as_bytes()) {
        None
    } else {
        u64::from_str_radix(word, 10).ok()
    }
}

fn has_plus(word: &[u8]) -> bool
    ensures { result ≡ (slice_index word.now 0 == 43) }
{
    !word.is_empty() && word[0] == b'+'
}

/// The arguments of a query with these parameters. None where a parameter has none, where there are more than 64, or where
/// a word is no spelling of its parameter's type. A word that no parameter asks for isn't judged.
pub fn values_of(
    alloc: Global,
    params: &[(u32, Ty)],
    words: &[String],
) -> Result<Option<Items<Value>>, NoMemory>
    ensures { IfOk result (λ values. values ≡ values_by params.now (map string_bytes words.now)) }
{
    if are_enough(params, words.len()) {
        spelled(alloc, params, words)
    } else {
        Ok(None)
    }
}

/// The arguments of a function with these parameters. None where there isn't exactly one word for each, or where a word is no
/// spelling of its parameter's type.
pub fn values_for(
    alloc: Global,
    params: &[(Name, Ty)],
    words: &[String],
) -> Result<Option<Items<Value>>, NoMemory>
    ensures { IfOk result (λ values. values
        ≡ values_by_place params.now (map string_bytes words.now)) }
{
    if params.len() == words.len() {
        spelled_in_order(alloc, params, words)
    } else {
        Ok(None)
    }
}

/// The values of as many words as there are parameters.
fn spelled_in_order(
    alloc: Global,
    params: &[(Name, Ty)],
    words: &[String],
) -> Result<Option<Items<Value>>, NoMemory>
    requires { length params.now ≡ length words.now }
    ensures { IfOk result (λ values. values
        ≡ values_by_place params.now (map string_bytes words.now)) }
{
    let mut values = Items::new(alloc);
    for i in 0..words.len() {
        let (_, ty) = &params[i];
        match read_value(alloc, *ty, words[i].as_str().as_bytes())? {
            Some(value) => values.push(value)?,
            None => return Ok(None),
        }
    }
    Ok(Some(values))
}

fn are_enough(params: &[(u32, Ty)], count: usize) -> bool
    ensures { result ≡ are_enough_for params.now count }
{
    count <= MOST_ARGUMENTS && have_arguments(params, count)
}

/// Whether no parameter has a number above the count.
fn have_arguments(params: &[(u32, Ty)], count: usize) -> bool
    ensures { result ≡ list_all (λ p. nat_le p.0 count) params.now }
{
    let mut rest = params;
    while let [(number, _), others @ ..] = rest {
        if *number as usize > count {
            return false;
        }
        rest = others;
    }
    true
}

/// The values of words whose numbers count from 1.
fn spelled(
    alloc: Global,
    params: &[(u32, Ty)],
    words: &[String],
) -> Result<Option<Items<Value>>, NoMemory>
    ensures { IfOk result (λ values. values
        ≡ values_from params.now 1 (map string_bytes words.now)) }
{
    let mut values = Items::new(alloc);
    for i in 0..words.len() {
        let asked = type_of(params, i as u64 + 1);
        match argument(alloc, asked, words[i].as_str())? {
            Some(value) => values.push(value)?,
            None => return Ok(None),
        }
    }
    Ok(Some(values))
}

/// The type of the parameter of this number, where there is one.
fn type_of(params: &[(u32, Ty)], number: u64) -> Option<Ty>
    ensures { result ≡ type_by params.now number }
{
    let mut rest = params;
    while let [(found, ty), others @ ..] = rest {
        if *found as u64 == number {
            return Some(*ty);
        }
        rest = others;
    }
    None
}

/// The value of the type that is asked, or NULL where none is.
fn argument(alloc: Global, asked: Option<Ty>, word: &str) -> Result<Option<Value>, NoMemory>
    ensures { IfOk result (λ value. value ≡ argument_of asked word.now) }
{
    match asked {
        Some(ty) => read_value(alloc, ty, word.as_bytes()),
        None => Ok(Some(Value::Null)),
    }
}
