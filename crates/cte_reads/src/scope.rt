//! The columns that names stand for.

ghost use Rattle.std.specs.Prelude.{◌≡◌, IfOk};
ghost use Rattle.cte_reads.specs.References as spec;

use away_values::NoMemory;
use sqlite_items::Items;
use std::alloc::Global;

/// A column of an item. `from` is how many selects of the branch enclose the item, counted from 1; 0 where the item is that of the rows.
#[derive(Clone, Copy, Debug, PartialEq, Eq)]
pub struct Ref {
    pub from: usize,
    pub item: usize,
    pub column: usize,
}

/// The names of a block: the one that it assigns, and its parameters with a reference for each.
#[derive(Drop)]
pub struct Scope<'a> {
    pub set: Option<(u32, Ref)>,
    pub names: &'a [u32],
    pub refs: Items<Ref>,
}

/// The reference of a key.
pub fn lookup(keys: &[u32], refs: &[Ref], key: usize) -> Option<Ref>
    ensures { result ≡ spec.lookup keys.now refs.now key }
{
    for i in 0..keys.len() {
        if i >= refs.len() {
            return None;
        }
        if keys[i] as usize == key {
            return Some(refs[i]);
        }
    }
    None
}

/// What a name stands for; None where it is none of the block's.
pub fn find(scope: &Scope<'_>, n: u32) -> Option<Ref>
    ensures { result ≡ spec.found_in scope.now n }
{
    if let Some((name, here)) = scope.set {
        if name == n {
            return Some(here);
        }
    }
    lookup(scope.names, scope.refs.as_slice(), n as usize)
}

/// What each name of a list stands for; None where one stands for nothing.
pub fn find_all(
    alloc: Global,
    scope: &Scope<'_>,
    names: &[u32],
) -> Result<Option<Items<Ref>>, NoMemory>
    ensures { IfOk result (λ found. found ≡ spec.founds scope.now names.now) }
{
    let mut refs = Items::new(alloc);
    for n in names {
        match find(scope, *n) {
            None => return Ok(None),
            Some(found) => refs.push(found)?,
        }
    }
    Ok(Some(refs))
}
