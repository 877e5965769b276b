//! Whole queries with what their names stand for.

ghost use Rattle.std.specs.Prelude.{◌≡◌, ◌∷◌, ◌++◌, [], IfOk, decimal, false, true};
ghost use Rattle.away_trees.specs.declared.queries.Recursive.{out-Recursive};
ghost use Rattle.std.specs.Option.{option_copied};
ghost use Rattle.indexmap.specs.IndexMap.{get_by_text};
ghost use Rattle.away_names.specs.Lookups.{table_before};
ghost use Rattle.away_names.specs.Files as spec;
ghost use Rattle.away_names.specs.Places.{scope};

use crate::lookups::has_double;
use crate::naming_queries::{named_select, named_selects};
use crate::note::{File, Noted, Shown, Terms, breaks, clean, joined};
use crate::origins::copy_names;
use crate::rule::Rule;
use crate::scope::{Listed, Scope, Tables, Working};
use crate::tables::{digits, tables_of};
use away_trees::{Query, Recursive, Schema, Select};
use away_values::{Name, NoMemory};
use indexmap::IndexMap;
use sqlite_items::Items;
use std::alloc::Global;

/// A whole query, with the least rule that its names break under a schema.
#[tactic(auto, unfolding(crate::specs::Files::file))]
pub fn named_file(alloc: Global, s: &Schema, q: &Query) -> Result<File, NoMemory>
    ensures { IfOk result (λ f. f ≡ spec.file s.now q.now) }
{
    let tables = tables_of(alloc, s)?;
    match &q.recursive {
        None => file_alone(alloc, &outermost(&tables, None), q.selects.as_slice()),
        Some(r) => {
            let table = working(alloc, s.tables.len(), r)?;
            file_behind(
                alloc,
                &outermost(&tables, Some(&table)),
                r,
                q.selects.as_slice(),
            )
        }
    }
}

/// A place in sight of tables alone.
#[tactic(auto, unfolding(crate::specs::Places::tables))]
fn outermost<'a>(schema: &'a IndexMap<String, Listed>, working: Option<&'a Working>) -> Scope<'a>
    ensures { scope result ≡ record {
      table = table_before (option_copied working.entry) (λ n. get_by_text schema.now n);
      levels = [];
      variables = [];
      in_function = false;
    } }
{
    Scope {
        tables: Tables { schema, working },
        levels: &[],
        variables: &[],
        in_function: false,
    }
}

fn with_names(alloc: Global, names: &[Name], before: Items<Name>) -> Result<Items<Name>, NoMemory>
    ensures { IfOk result (λ all. all ≡ before ++ names.now) }
{
    let mut all = before;
    for n in names {
        all.push(n.copy(alloc)?)?;
    }
    Ok(all)
}

fn working(alloc: Global, place: usize, r: &Recursive) -> Result<Working, NoMemory>
    ensures { IfOk result (λ w. w ≡ record {
      name = (out-Recursive r.now).name;
      table = record { written = decimal place ∷ (out-Recursive r.now).columns; recursive = true };
    }) }
{
    let mut written = Items::new(alloc);
    written.push(digits(alloc, place)?)?;
    let written = with_names(alloc, r.columns.as_slice(), written)?;
    Ok(Working {
        name: r.name.copy(alloc)?,
        table: Listed {
            written,
            recursive: true,
        },
    })
}

fn file_alone(alloc: Global, s: &Scope<'_>, selects: &[Select]) -> Result<File, NoMemory>
    ensures { IfOk result (λ f. f ≡ spec.file_alone (scope s.now) selects.now) }
{
    let Noted { it, note } = named_selects(alloc, selects, s)?;
    let Shown { it, names: _ } = it;
    Ok(File {
        query: Query {
            recursive: None,
            selects: it,
        },
        first: clean(),
        second: clean(),
        note,
    })
}

fn named_terms(alloc: Global, s: &Scope<'_>, r: &Recursive) -> Result<Terms, NoMemory>
    ensures { IfOk result (λ t. t ≡ spec.named_terms (scope s.now) r.now) }
{
    let name = r.name.copy(alloc)?;
    let columns = copy_names(alloc, r.columns.as_slice())?;
    let Noted {
        it: shown,
        note: first,
    } = named_selects(alloc, r.first.as_slice(), s)?;
    let Shown {
        it: selects,
        names: _,
    } = shown;
    let Noted {
        it: shown,
        note: second,
    } = named_select(alloc, &r.second, s)?;
    let Shown {
        it: select,
        names: _,
    } = shown;
    Ok(Terms {
        it: Recursive {
            name,
            columns,
            first: selects,
            second: select,
        },
        columns: breaks(Rule::Duplicates, has_double(r.columns.as_slice())),
        first,
        second,
    })
}

fn file_behind(
    alloc: Global,
    s: &Scope<'_>,
    r: &Recursive,
    selects: &[Select],
) -> Result<File, NoMemory>
    ensures { IfOk result (λ f. f ≡ spec.file_behind (scope s.now) r.now selects.now) }
{
    let Terms {
        it: terms,
        columns,
        first,
        second,
    } = named_terms(alloc, s, r)?;
    let Noted { it, note } = named_selects(alloc, selects, s)?;
    let Shown { it, names: _ } = it;
    Ok(File {
        query: Query {
            recursive: Some(terms),
            selects: it,
        },
        first,
        second,
        note: joined(joined(columns, joined(first, second)), note),
    })
}
