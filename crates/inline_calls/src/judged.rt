//! The rules of a query in whose list calls of a function stand.

ghost use Rattle.std.specs.Prelude.{◌≡◌, ◌++◌, IfOk, OnOk, map, flat_map};
ghost use Rattle.std.specs.List.{list_all};
ghost use Rattle.inline_calls.specs.Judged as spec;
ghost use Rattle.inline_calls.specs.Seen.{seen};
ghost use Rattle.away_types.specs.CheckedRows.{rows_judged};
ghost use Rattle.plsql_meaning.specs.Equivalent.{types_of as types_by};
ghost use Rattle.sql_meaning.specs.Trees.{item};

use crate::forms::{PartedSelect, with_list};
use crate::leaves::Moves;
use crate::moving_queries::moved_items;
use away_core::Copied;
use away_names::note::{Note, breaks, joined};
use away_names::rule::Rule;
use away_trees::{Expr, Function, Item, Query, Schema};
use away_types::resolved_file;
use away_typing::kind::same;
use away_typing::row_queries::{RowsVerdict, judged_rows};
use away_values::{Name, NoMemory, Ty, name};
use cte_parts::{add, alone, null};
use sqlite_items::{Boxed, Items};
use std::alloc::Global;

/// The types of the parameters.
pub(crate) fn types_of(alloc: Global, params: &[(Name, Ty)]) -> Result<Items<Ty>, NoMemory>
    ensures { IfOk result (λ ts. ts ≡ map (λ p. p.1) params.now) }
{
    let mut types = Items::new(alloc);
    for p in params {
        types.push(p.1)?;
    }
    Ok(types)
}

/// The list with a NULL of the type in the place of each call.
fn without_calls(alloc: Global, ty: Ty, c: &PartedSelect) -> Result<Items<Item>, NoMemory>
    ensures { IfOk result (λ list. list ≡ spec.without_calls ty (seen c.now)) }
{
    moved_items(alloc, c.select.list.as_slice(), &Moves::Nulls(ty), 0)
}

/// An expression beside a NULL of a type.
fn beside_null(alloc: Global, ty: Ty, e: &Expr) -> Result<Expr, NoMemory>
    ensures { IfOk result (λ x. x ≡ spec.beside_null ty e.now) }
{
    let Some(function) = name(alloc, "coalesce")? else {
        return Err(NoMemory);
    };
    let mut choices = Items::new(alloc);
    choices.push(e.copy(alloc)?)?;
    choices.push(null(alloc, ty)?)?;
    Ok(Expr::Call(function, choices))
}

/// Adds the arguments of a call, each beside a NULL of its parameter's type.
fn add_asked(
    alloc: Global,
    list: &mut Items<Item>,
    types: &[Ty],
    es: &[Expr],
) -> Result<(), NoMemory>
    ensures { OnOk result (list.new ≡ list.old ++ map item (spec.asked types.now es.now)) }
{
    let mut left = types;
    for e in es {
        match left {
            [] => add(list, e.copy(alloc)?)?,
            [ty, more @ ..] => {
                add(list, beside_null(alloc, *ty, e)?)?;
                left = more;
            }
        }
    }
    Ok(())
}

/// Adds the arguments of all calls.
fn add_all_asked(
    alloc: Global,
    list: &mut Items<Item>,
    types: &[Ty],
    calls: &[Items<Expr>],
) -> Result<(), NoMemory>
    ensures { OnOk result (list.new ≡ list.old ++ spec.asked_items types.now calls.now) }
{
    for es in calls {
        add_asked(alloc, list, types, es.as_slice())?;
    }
    Ok(())
}

/// The query that is judged.
fn judged_query(
    alloc: Global,
    f: &Function,
    types: &[Ty],
    c: &PartedSelect,
) -> Result<Boxed<Query>, NoMemory>
    requires { types.now ≡ types_by f.now }
    ensures { IfOk result (λ q. q ≡ spec.judged_query f.now (seen c.now)) }
{
    let mut list = without_calls(alloc, f.result, c)?;
    add_all_asked(alloc, &mut list, types, c.calls.as_slice())?;
    let select = with_list(alloc, &c.select, list)?;
    let query = Query {
        recursive: None,
        selects: alone(alloc, select)?,
    };
    Ok(Boxed::new(alloc, query)?)
}

/// Whether each call has as many arguments as there are parameters.
fn are_as_many(params: usize, calls: &[Items<Expr>]) -> bool
    ensures { result ≡ list_all (λ es. spec.has_many params es) calls.now }
{
    for es in calls {
        if es.len() != params {
            return false;
        }
    }
    true
}

/// Whether the types are these.
fn are_types(left: &[Ty], right: &[Ty]) -> bool
    ensures { result ≡ spec.are_types left.now right.now }
{
    let mut rest = right;
    for t in left {
        match rest {
            [] => return false,
            [u, more @ ..] => {
                if !same(*t, *u) {
                    return false;
                }
                rest = more;
            }
        }
    }
    rest.is_empty()
}

fn add_types(all: &mut Items<Ty>, types: &[Ty]) -> Result<(), NoMemory>
    ensures { OnOk result (all.new ≡ all.old ++ types.now) }
{
    for t in types {
        all.push(*t)?;
    }
    Ok(())
}

/// The types of the parameters, for each of so many calls.
fn repeated(alloc: Global, types: &[Ty], calls: &[Items<Expr>]) -> Result<Items<Ty>, NoMemory>
    ensures { IfOk result (λ all. all ≡ flat_map (λ es. types.now) calls.now) }
{
    let mut all = Items::new(alloc);
    for _call in calls {
        add_types(&mut all, types)?;
    }
    Ok(all)
}

/// Whether the arguments' items have the parameters' types.
fn have_types(
    alloc: Global,
    types: &[Ty],
    c: &PartedSelect,
    columns: &[Ty],
) -> Result<bool, NoMemory>
    ensures { IfOk result (λ b. b ≡ spec.have_these types.now (seen c.now) columns.now) }
{
    let wanted = repeated(alloc, types, c.calls.as_slice())?;
    let many = c.select.list.len();
    if many > columns.len() {
        return Ok(wanted.is_empty());
    }
    Ok(are_types(&columns[many..], wanted.as_slice()))
}

/// The least rule that a query with calls breaks.
fn note_by(
    alloc: Global,
    f: &Function,
    types: &[Ty],
    c: &PartedSelect,
    v: &RowsVerdict,
) -> Result<Note, NoMemory>
    requires { types.now ≡ types_by f.now }
    ensures { IfOk result (λ n. n ≡ spec.note_by f.now (seen c.now) v.now) }
{
    let many = are_as_many(f.params.len(), c.calls.as_slice());
    let typed = have_types(alloc, types, c, v.columns.as_slice())?;
    Ok(joined(v.note, breaks(Rule::Types, !(many && typed))))
}

fn verdict(alloc: Global, s: &Schema, q: &Query) -> Result<RowsVerdict, NoMemory>
    ensures { IfOk result (λ v. v ≡ rows_judged s.now q.now) }
{
    let file = resolved_file(alloc, s, q)?;
    judged_rows(alloc, s, &file)
}

/// The least rule that a query with calls breaks.
pub(crate) fn calls_note(
    alloc: Global,
    s: &Schema,
    f: &Function,
    c: &PartedSelect,
) -> Result<Note, NoMemory>
    ensures { IfOk result (λ n. n ≡ spec.calls_note s.now f.now (seen c.now)) }
{
    let types = types_of(alloc, f.params.as_slice())?;
    let query = judged_query(alloc, f, types.as_slice(), c)?;
    let judged = verdict(alloc, s, query.get())?;
    note_by(alloc, f, types.as_slice(), c, &judged)
}
