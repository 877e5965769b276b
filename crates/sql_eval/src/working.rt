//! The working tables of a recursive query, and a query at a bound.

ghost use Rattle.sql_meaning.specs.AtBound.{over_found, over_recursive, rows_of_tables, rows_within, table_of};
ghost use Rattle.away_trees.specs.declared.queries.Expr.TheViews.{out-Recursive};
ghost use Rattle.sql_meaning.specs.Context.{outermost};
ghost use Rattle.sql_meaning.specs.Working.{with_table};
ghost use Rattle.sql_eval.specs.Kept.{over_kept};
ghost use Rattle.sql_eval.specs.Scopes.{tables_of};
ghost use Rattle.sql_meaning.specs.Selected.{select_rows};
ghost use Rattle.sql_meaning.specs.Gives.{Gives, joined_of, query_rows};

use crate::kept_rows::{kept_rows, only_filter};
use crate::scope::Scope;
use crate::selects::{query, select, union};
use away_trees::{Expr, Query, Recursive};
use away_values::{OpError, Table, Tables, Value};
use sqlite_items::Items;
use std::alloc::Global;

#[tactic(auto, using(sql_meaning::proofs::GivesRules::gives_rules))]
pub(crate) fn first_term<'a>(
    alloc: Global,
    r: &Recursive,
    tables: &'a [Table],
    args: &'a [Value],
) -> Result<Items<Items<Value>>, OpError>
    ensures { Gives (joined_of (select_rows (outermost (rows_of_tables tables.now) args.now))
        (out-Recursive r.now).first) result }
{
    let scope = Scope::outermost(tables, None, args);
    union(alloc, r.first.as_slice(), &scope)
}

#[tactic(auto, using(sql_meaning::proofs::GivesRules::gives_rules))]
pub(crate) fn second_term<'a>(
    alloc: Global,
    r: &Recursive,
    tables: &'a [Table],
    now: &'a [Items<Value>],
    args: &'a [Value],
) -> Result<Items<Items<Value>>, OpError>
    ensures { Gives (select_rows
        (outermost (with_table (rows_of_tables tables.now) now.now) args.now)
        (out-Recursive r.now).second) result }
{
    let scope = Scope::outermost(tables, Some(now), args);
    select(alloc, &r.second, &scope)
}

/// The recursive table, or None where no working table up to the bound is empty.
#[tactic(auto, using(sql_meaning::proofs::BoundRules::table_rules))]
fn recursive_rows(
    alloc: Global,
    r: &Recursive,
    tables: &[Table],
    args: &[Value],
    bound: u64,
) -> Result<Option<Items<Items<Value>>>, OpError>
    ensures { Gives (table_of r.now (rows_of_tables tables.now) args.now bound) result }
{
    let mut done = Items::new(alloc);
    let mut now = first_term(alloc, r, tables, args)?;
    let mut left = bound;
    'terms: while !now.is_empty() {
        if left == 0 {
            return Ok(None);
        }
        let next = second_term(alloc, r, tables, now.as_slice(), args)?;
        done.append(now)?;
        now = next;
        left -= 1;
    }
    Ok(Some(done))
}

#[tactic(auto, using(sql_meaning::proofs::GivesRules::gives_rules))]
fn over_table<'a>(
    alloc: Global,
    q: &Query,
    tables: &'a [Table],
    table: Option<&'a [Items<Value>]>,
    args: &'a [Value],
) -> Result<Items<Items<Value>>, OpError>
    ensures { Gives (query_rows
        (outermost (tables_of tables.now table.entry) args.now) q.now) result }
{
    let scope = Scope::outermost(tables, table, args);
    query(alloc, q, &scope)
}

#[tactic(auto, using(sql_meaning::proofs::BoundRules::bound_rules))]
pub(crate) fn rows_at(
    alloc: Global,
    q: &Query,
    tables: &Tables,
    args: &[Value],
    bound: u64,
) -> Result<Option<Items<Items<Value>>>, OpError>
    ensures { Gives (rows_within q.now (rows_of_tables tables.now.list) args.now bound) result }
{
    let list = tables.list.as_slice();
    match &q.recursive {
        None => {
            let rows = over_table(alloc, q, list, None, args)?;
            Ok(Some(rows))
        }
        Some(r) => rows_over(alloc, q, r, list, args, bound),
    }
}

/// The rows of a query over its recursive table, of which only those are held that its condition keeps, where nothing else reads that table.
#[tactic(auto, using(crate::proofs::KeptRules::either_rules))]
fn rows_over(
    alloc: Global,
    q: &Query,
    r: &Recursive,
    tables: &[Table],
    args: &[Value],
    bound: u64,
) -> Result<Option<Items<Items<Value>>>, OpError>
    ensures { Gives (over_recursive q.now r.now (rows_of_tables tables.now) args.now bound) result }
{
    match only_filter(q, tables.len()) {
        Some(test) => rows_over_kept(alloc, q, r, test, tables, args, bound),
        None => rows_over_all(alloc, q, r, tables, args, bound),
    }
}

#[tactic(auto, using(crate::proofs::KeptRules::over_rules))]
fn rows_over_kept(
    alloc: Global,
    q: &Query,
    r: &Recursive,
    test: &Expr,
    tables: &[Table],
    args: &[Value],
    bound: u64,
) -> Result<Option<Items<Items<Value>>>, OpError>
    ensures { Gives (over_kept q.now test.now r.now
        (rows_of_tables tables.now) args.now bound) result }
{
    let found = kept_rows(alloc, r, test, tables, args, bound)?;
    rows_of_found(alloc, q, tables, found, args)
}

#[tactic(auto, using(sql_meaning::proofs::BoundRules::over_rules))]
fn rows_over_all(
    alloc: Global,
    q: &Query,
    r: &Recursive,
    tables: &[Table],
    args: &[Value],
    bound: u64,
) -> Result<Option<Items<Items<Value>>>, OpError>
    ensures { Gives (over_recursive q.now r.now (rows_of_tables tables.now) args.now bound) result }
{
    let found = recursive_rows(alloc, r, tables, args, bound)?;
    rows_of_found(alloc, q, tables, found, args)
}

#[tactic(auto, using(sql_meaning::proofs::BoundRules::over_rules))]
fn rows_of_found(
    alloc: Global,
    q: &Query,
    tables: &[Table],
    found: Option<Items<Items<Value>>>,
    args: &[Value],
) -> Result<Option<Items<Items<Value>>>, OpError>
    ensures { Gives (over_found q.now (rows_of_tables tables.now) args.now found) result }
{
    match found {
        None => Ok(None),
        Some(table) => {
            let rows = over_table(alloc, q, tables, Some(table.as_slice()), args)?;
            Ok(Some(rows))
        }
    }
}
