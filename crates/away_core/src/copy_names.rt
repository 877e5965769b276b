//! Copies of names, each equal to what it copies.

ghost use Rattle.std.specs.Prelude.{◌≡◌, IfOk};

use away_values::{Name, NoMemory};
use sqlite_items::Items;
use std::alloc::Global;

pub(crate) fn copy_name(value: &Option<Name>, alloc: Global) -> Result<Option<Name>, NoMemory>
    ensures { IfOk result (λ r. r ≡ value.now) }
{
    match value {
        None => Ok(None),
        Some(x) => Ok(Some(x.copy(alloc)?)),
    }
}

pub(crate) fn copy_names(list: &[Name], alloc: Global) -> Result<Items<Name>, NoMemory>
    ensures { IfOk result (λ r. r ≡ list.now) }
{
    let mut all = Items::new(alloc);
    for i in 0..list.len() {
        all.push(list[i].copy(alloc)?)?;
    }
    Ok(all)
}
