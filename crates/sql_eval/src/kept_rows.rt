//! The rows of a recursive table that the condition of a query's only select keeps, where nothing else in the query reads that table. The condition
//! is asked of each working table when it is made, so that only the rows kept and the last working table are held.

ghost use Rattle.std.specs.Prelude.{◌≡◌, IfOk, IfSome};
ghost use Rattle.sql_meaning.specs.AtBound.{rows_of_tables};
ghost use Rattle.sql_meaning.specs.Context.{outermost};
ghost use Rattle.sql_meaning.specs.Gives.{Gives, each_of};
ghost use Rattle.sql_meaning.specs.Selected.{value_at};
ghost use Rattle.sql_eval.specs.Kept.{IsFilter, held_or, kept_further, kept_table, row_test};

use crate::eval::eval;
use crate::frames::{beside_rows, lent_rows};
use crate::places::is_suited;
use crate::scope::{Frame, Scope};
use crate::shared_rows::SharedRow;
use crate::working::{first_term, second_term};
use away_trees::{Expr, Query, Recursive};
use away_values::{Class, NoMemory, OpError, Table, Value};
use lateral_rows::{Rows, keep_into};
use sqlite_items::Items;
use std::alloc::Global;

/// The condition of a query's only select, where its FROM is the table at the place alone and all else reads only tables before that one.
#[tactic(auto, using(crate::proofs::KeptRules::filter_rules))]
pub(crate) fn only_filter(q: &Query, place: usize) -> Option<&Expr>
    ensures { IfSome result (λ e. IsFilter q.now place e.now) }
{
    match q.selects.as_slice() {
        [s] => {
            if !is_suited(s, place) {
                return None;
            }
            match &s.filter {
                Some(test) => Some(test),
                None => None,
            }
        }
        _ => None,
    }
}

#[tactic(auto, using(crate::proofs::KeptRules::asked_rules))]
fn flags_at<'a>(
    alloc: Global,
    test: &Expr,
    frames: &'a [Items<SharedRow<'a>>],
    tables: &'a [Table],
    args: &'a [Value],
) -> Result<Items<Value>, OpError>
    ensures { Gives (each_of (value_at
        (outermost (rows_of_tables tables.now) args.now) test.now) frames.now) result }
{
    let scope = Scope::outermost(tables, None, args);
    let outside = scope.outside(&[]);
    let mut all = Items::new(alloc);
    for frame in frames {
        let inner = outside.inside(Frame::new(frame.as_slice()));
        let v = eval(alloc, test, &inner)?;
        all.push(v)?;
    }
    Ok(all)
}

#[tactic(auto, using(crate::proofs::KeptRules::asked_rules))]
fn flags_over<'a>(
    alloc: Global,
    test: &Expr,
    frames: Items<Items<SharedRow<'a>>>,
    tables: &'a [Table],
    args: &'a [Value],
) -> Result<Items<Value>, OpError>
    ensures { Gives (each_of (value_at
        (outermost (rows_of_tables tables.now) args.now) test.now) frames.entry) result }
{
    flags_at(alloc, test, frames.as_slice(), tables, args)
}

/// What the condition says of each row of a table.
#[tactic(auto, using(crate::proofs::KeptRules::flag_rules))]
fn flags_of<'a>(
    alloc: Global,
    test: &Expr,
    rows: &'a [Items<Value>],
    tables: &'a [Table],
    args: &'a [Value],
) -> Result<Items<Value>, OpError>
    ensures { Gives (each_of (row_test test.now
        (rows_of_tables tables.now) args.now) rows.now) result }
{
    let lent = lent_rows(alloc, rows)?;
    let frames = beside_rows(alloc, &[], lent.as_slice())?;
    flags_over(alloc, test, frames, tables, args)
}

/// Puts the rows of a working table that the condition keeps behind those kept so far. A class is held, and from then on no row is asked.
#[tactic(auto, using(crate::proofs::KeptRules::further_rules))]
fn keep_further(
    alloc: Global,
    test: &Expr,
    now: &Rows,
    tables: &[Table],
    args: &[Value],
    kept: &mut Rows,
    held: Option<Class>,
) -> Result<Option<Class>, NoMemory>
    ensures { IfOk result (λ h. held_or h kept.new.list
        ≡ kept_further test.now (rows_of_tables tables.now) args.now
        (held_or held kept.old.list) now.now.list) }
{
    if let Some(class) = held {
        return Ok(Some(class));
    }
    match flags_of(alloc, test, now.list.as_slice(), tables, args) {
        Ok(flags) => {
            keep_into(alloc, kept, now, flags.as_slice())?;
            Ok(None)
        }
        Err(OpError::Class(class)) => Ok(Some(class)),
        Err(OpError::NoMemory) => Err(NoMemory),
    }
}

/// The rows that the condition keeps of the recursive table, or None where no working table up to the bound is empty. A class of the condition is
/// told when the recursion has ended, so that a class of its own, or that the bound doesn't suffice, comes first.
#[tactic(auto, using(crate::proofs::KeptRules::table_rules))]
pub(crate) fn kept_rows(
    alloc: Global,
    r: &Recursive,
    test: &Expr,
    tables: &[Table],
    args: &[Value],
    bound: u64,
) -> Result<Option<Items<Items<Value>>>, OpError>
    ensures { Gives (kept_table test.now r.now (rows_of_tables tables.now) args.now bound) result }
{
    let mut kept = Rows {
        list: Items::new(alloc),
    };
    let mut held = None;
    let mut now = Rows {
        list: first_term(alloc, r, tables, args)?,
    };
    let mut left = bound;
    'terms: while !now.list.is_empty() {
        if left == 0 {
            return Ok(None);
        }
        let next = second_term(alloc, r, tables, now.list.as_slice(), args)?;
        held = keep_further(alloc, test, &now, tables, args, &mut kept, held)?;
        now = Rows { list: next };
        left -= 1;
    }
    match held {
        Some(class) => Err(OpError::Class(class)),
        None => Ok(Some(kept.list)),
    }
}
