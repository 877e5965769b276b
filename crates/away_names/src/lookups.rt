//! What a name at a place stands for.

ghost use Rattle.std.specs.Prelude.{◌≡◌, IfOk};
ghost use Rattle.std.specs.List.{list_any};
ghost use Rattle.std.specs.Option.{option_copied};
ghost use Rattle.away_names.specs.Lookups as spec;
ghost use Rattle.away_names.specs.Places.{scope, tables};

use crate::scope::{Hit, Listed, Scope, Seen, Tables, Variable};
use away_trees::Col;
use away_values::{Name, NoMemory};

/// A place in a list. A place of 2^32 or more would need a list as long, for which there is no memory.
pub fn narrow(i: usize) -> Result<u32, NoMemory>
    ensures { IfOk result (λ n. n ≡ i) }
{
    if i < 4294967296 {
        Ok(i as u32)
    } else {
        Err(NoMemory)
    }
}

pub fn is_named(n: &Name, column: &Option<Name>) -> bool
    ensures { result ≡ spec.is_named n.now column.now }
{
    match column {
        None => false,
        Some(m) => m.text() == n.text(),
    }
}

#[tactic(auto, unfolding(crate::specs::Lookups::place_of))]
fn place_of(n: &Name, columns: &[Option<Name>]) -> Option<usize>
    ensures { result ≡ spec.place_of n.now columns.now }
{
    let mut i = 0;
    for column in columns {
        if is_named(n, column) {
            return Some(i);
        }
        i += 1;
    }
    None
}

#[tactic(auto, unfolding(crate::specs::Lookups::offers))]
fn offers(n: &Name, seen: &Seen) -> bool
    ensures { result ≡ spec.offers n.now seen.now }
{
    for column in seen.columns.as_slice() {
        if is_named(n, column) {
            return true;
        }
    }
    false
}

fn any_offers(n: &Name, level: &[Seen]) -> bool
    ensures { result ≡ list_any (spec.offers n.now) level.now }
{
    for seen in level {
        if offers(n, seen) {
            return true;
        }
    }
    false
}

fn in_level(n: &Name, depth: u32, level: &[Seen]) -> Result<Option<Hit>, NoMemory>
    ensures { IfOk result (λ h. h ≡ spec.in_level n.now depth 0 level.now) }
{
    let mut rest = level;
    let mut i = 0;
    while let [seen, more @ ..] = rest {
        if let Some(c) = place_of(n, seen.columns.as_slice()) {
            let column = Col {
                level: depth,
                item: narrow(i)?,
                column: narrow(c)?,
            };
            return Ok(Some(Hit {
                column,
                many: any_offers(n, more),
            }));
        }
        rest = more;
        i += 1;
    }
    Ok(None)
}

/// The manual: 4.2.1, Column References. The nearest select that has a column of the name decides.
#[tactic(auto, unfolding(crate::specs::Lookups::column_named))]
pub fn column_named(n: &Name, s: &Scope<'_>) -> Result<Option<Hit>, NoMemory>
    ensures { IfOk result (λ h. h ≡ spec.column_named n.now (scope s.now).levels) }
{
    let mut levels = s.levels;
    let mut depth = 0;
    while let [level, outer @ ..] = levels {
        if let Some(hit) = in_level(n, narrow(depth)?, level.as_slice())? {
            return Ok(Some(hit));
        }
        levels = outer;
        depth += 1;
    }
    Ok(None)
}

fn in_item(a: &Name, n: &Name, depth: u32, level: &[Seen]) -> Result<Option<Hit>, NoMemory>
    ensures { IfOk result (λ h. h ≡ spec.in_item a.now n.now depth 0 level.now) }
{
    let mut rest = level;
    let mut i = 0;
    while let [seen, more @ ..] = rest {
        if seen.alias.text() == a.text() {
            if let Some(c) = place_of(n, seen.columns.as_slice()) {
                let column = Col {
                    level: depth,
                    item: narrow(i)?,
                    column: narrow(c)?,
                };
                return Ok(Some(Hit {
                    column,
                    many: false,
                }));
            }
        }
        rest = more;
        i += 1;
    }
    Ok(None)
}

/// The manual: 4.2.1, Column References. The nearest select that has such an alias with such a column decides.
#[tactic(auto, unfolding(crate::specs::Lookups::column_qualified))]
pub fn column_qualified(a: &Name, n: &Name, s: &Scope<'_>) -> Result<Option<Hit>, NoMemory>
    ensures { IfOk result (λ h. h ≡ spec.column_qualified a.now n.now (scope s.now).levels) }
{
    let mut levels = s.levels;
    let mut depth = 0;
    while let [level, outer @ ..] = levels {
        if let Some(hit) = in_item(a, n, narrow(depth)?, level.as_slice())? {
            return Ok(Some(hit));
        }
        levels = outer;
        depth += 1;
    }
    Ok(None)
}

/// The innermost variable of the name decides. The manual: 43.2, Structure of PL/pgSQL.
#[tactic(auto, unfolding(crate::specs::Lookups::variable_named))]
pub fn variable_named<'a>(n: &Name, variables: &'a [Variable]) -> Option<&'a Variable>
    ensures { option_copied result ≡ spec.variable_named n.now variables.now }
{
    let mut found = None;
    for v in variables {
        if v.name.text() == n.text() {
            found = Some(v);
        }
    }
    found
}

/// The table of the name. The recursive table hides one of the schema. The manual: SELECT, FROM Clause.
#[tactic(auto, unfolding(crate::specs::Places::tables))]
pub fn table_named<'a>(n: &Name, t: Tables<'a>) -> Option<&'a Listed>
    ensures { option_copied result ≡ tables t.entry n.now }
{
    if let Some(w) = t.working {
        if n.text() == w.name.text() {
            return Some(&w.table);
        }
    }
    t.schema.get(n.text())
}

fn is_among(n: &Name, names: &[Name]) -> bool
    ensures { result ≡ spec.is_among n.now names.now }
{
    for m in names {
        if m.text() == n.text() {
            return true;
        }
    }
    false
}

#[tactic(auto, unfolding(crate::specs::Lookups::has_double))]
pub fn has_double(names: &[Name]) -> bool
    ensures { result ≡ spec.has_double names.now }
{
    let mut rest = names;
    while let [n, more @ ..] = rest {
        if is_among(n, more) {
            return true;
        }
        rest = more;
    }
    false
}

/// Whether a name is kept for the query's own. These are the names that begin with `away_`, which is our own choice.
#[tactic(auto, unfolding(crate::specs::Lookups::is_kept))]
pub fn is_kept(n: &Name) -> bool
    ensures { result ≡ spec.is_kept n.now }
{
    n.text().starts_with("away_")
}
