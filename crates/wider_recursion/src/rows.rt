//! The tables whose rows a select takes.

ghost use Rattle.std.specs.Prelude.{◌≡◌};
ghost use Rattle.wider_recursion.specs.TakenRows as spec;

use away_trees::{FromItem, Query, Select, Source};
use away_values::Name;

/// Whether the select takes rows of the table, through FROM alone.
/// The manual: 7.8.2, Recursive Queries, and 7.2.1.3, Subqueries.
#[cycle(rows)]
#[tactic(auto, using(crate::proofs::RowRules::select_takes))]
pub fn takes_rows(name: &Name, select: &Select) -> bool
    ensures { result ≡ spec.takes_rows name.now select.now }
{
    any_takes(name, select.from.as_slice())
}

#[cycle(rows)]
fn any_takes(name: &Name, from: &[FromItem]) -> bool
    ensures { result ≡ spec.any_takes name.now from.now }
{
    for f in from {
        if source_takes(name, &f.source) {
            return true;
        }
    }
    false
}

#[cycle(rows)]
#[tactic(auto, using(crate::proofs::RowRules::source_rules))]
fn source_takes(name: &Name, source: &Source) -> bool
    ensures { result ≡ spec.source_takes name.now source.now }
{
    match source {
        Source::Table(n) => n.text() == name.text(),
        Source::Sub(q, _) => query_takes(name, q.get()),
    }
}

#[cycle(rows)]
#[tactic(auto, using(crate::proofs::RowRules::query_alone))]
fn query_takes(name: &Name, q: &Query) -> bool
    ensures { result ≡ spec.query_takes name.now q.now }
{
    let only = only_takes(name, q.selects.as_slice());
    !q.recursive.is_some() && only
}

#[cycle(rows)]
fn only_takes(name: &Name, selects: &[Select]) -> bool
    ensures { result ≡ spec.only_takes name.now selects.now }
{
    match selects {
        [select] => takes_rows(name, select),
        _ => false,
    }
}
