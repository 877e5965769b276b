//! New names.

ghost use Rattle.std.specs.Prelude.{◌≡◌, IfOk, length};
ghost use Rattle.away_values.specs.Words.{IsName};
ghost use Rattle.moved_names.specs.Fresh as spec;

use crate::words::in_files;
use away_trees::{Function, Schema};
use away_values::{Name, NoMemory, name};
use itoa::Buffer;
use sqlite_items::Items;
use std::alloc::Global;

/// x and the digits of a number.
fn numbered(alloc: Global, k: usize) -> Result<Name, NoMemory>
    ensures { IfOk result (λ n. n ≡ spec.numbered k) }
{
    let mut text = String::from_str(alloc, "x")?;
    let mut buffer = Buffer::new();
    text.push_str(buffer.format(k))?;
    match name(alloc, &text)? {
        None => Err(NoMemory),
        Some(n) => Ok(n),
    }
}

/// The first so many of the names x1, x2 and so on that stand as a word neither in the schema nor in one of the functions.
pub fn fresh_names(
    alloc: Global,
    s: &Schema,
    list: &[Function],
    count: u32,
) -> Result<Items<Name>, NoMemory>
    ensures are { IfOk result (λ names. spec.AreFresh s.now list.now names) }
    ensures as_many { IfOk result (λ names. length names ≡ count) }
{
    let mut all = Items::new(alloc);
    let mut k: usize = 0;
    'numbers: while all.len() < count as usize {
        let Some(at) = k.checked_add(1) else {
            return Err(NoMemory);
        };
        let n = numbered(alloc, at)?;
        if !in_files(&n, s, list) {
            all.push(n)?;
        }
        k = at;
    }
    Ok(all)
}
