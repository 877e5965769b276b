//! The least bound at which a query has an answer.

ghost use Rattle.std.specs.Prelude.{◌≡◌, IfOk};
ghost use Rattle.sql_meaning.specs.AtBound.{rows_of_tables};
ghost use Rattle.sql_eval.specs.Lengths.{IsLength, length_within};

use crate::working::{first_term, second_term};
use away_trees::{Query, Recursive};
use away_values::{NoMemory, OpError, Table, Tables, Value};
use std::alloc::Global;

/// The least bound at which the query doesn't need more, where that is at most `bound`. None comes exactly where it needs more at `bound`.
/// Bounds are in iterations of the recursive table.
#[tactic(auto, using(crate::proofs::LeastBounds::length_rules))]
pub fn query_length(
    alloc: Global,
    q: &Query,
    tables: &Tables,
    args: &[Value],
    bound: u64,
) -> Result<Option<u64>, NoMemory>
    ensures { IfOk result (λ k. IsLength q.now (rows_of_tables tables.now.list) args.now bound k) }
{
    match &q.recursive {
        None => Ok(Some(0)),
        Some(r) => recursive_length(alloc, r, tables.list.as_slice(), args, bound),
    }
}

#[tactic(auto, using(crate::proofs::LengthRules::step_rules))]
fn recursive_length(
    alloc: Global,
    r: &Recursive,
    tables: &[Table],
    args: &[Value],
    bound: u64,
) -> Result<Option<u64>, NoMemory>
    ensures { IfOk result (λ k. k
        ≡ length_within r.now (rows_of_tables tables.now) args.now bound) }
{
    let mut now = match first_term(alloc, r, tables, args) {
        Ok(rows) => rows,
        Err(OpError::Class(_)) => return Ok(Some(0)),
        Err(OpError::NoMemory) => return Err(NoMemory),
    };
    let mut used = 0;
    'terms: while !now.is_empty() {
        if used == bound {
            return Ok(None);
        }
        used += 1;
        match second_term(alloc, r, tables, now.as_slice(), args) {
            Ok(rows) => now = rows,
            Err(OpError::Class(_)) => return Ok(Some(used)),
            Err(OpError::NoMemory) => return Err(NoMemory),
        }
    }
    Ok(Some(used))
}
