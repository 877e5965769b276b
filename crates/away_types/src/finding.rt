//! What the statements of a function break, and which of them.

ghost use Rattle.std.specs.Prelude.{◌≡◌, IfOk};
ghost use Rattle.away_types.specs.Findings as spec;

use away_names::lookups::narrow;
use away_names::note::{Note, clean};
use away_names::rule::Rule;
use away_values::NoMemory;

/// A rule that is broken, and the number of the statement that breaks it: its place among the nodes of the function, counted from 0
/// in the order of the text as `away_trees::nodes` counts them, parameters first. What the head of a function breaks has the number 0.
#[derive(Clone, Copy, Debug, PartialEq, Eq)]
pub struct Finding {
    pub rule: Rule,
    pub node: u32,
}

/// What was found in a statement or in several, by numbers that are counted from the first of their nodes, and how many nodes these are.
#[derive(Clone, Copy, Debug, PartialEq, Eq)]
pub struct Report {
    pub first: Option<Finding>,
    pub nodes: u32,
}

#[tactic(auto, unfolding(crate::specs::Findings::precedes))]
fn precedes(a: Finding, b: Finding) -> bool
    ensures { result ≡ spec.precedes a b }
{
    a.rule.number() < b.rule.number() || (a.rule.number() == b.rule.number() && a.node <= b.node)
}

#[tactic(auto, unfolding(crate::specs::Findings::first_of))]
fn first_of(a: Option<Finding>, b: Option<Finding>) -> Option<Finding>
    ensures { result ≡ spec.first_of a b }
{
    match a {
        None => b,
        Some(x) => match b {
            None => a,
            Some(y) => { if precedes(x, y) { a } else { b } }
        },
    }
}

fn added(a: u32, b: u32) -> Result<u32, NoMemory>
    ensures { IfOk result (λ n. n ≡ spec.added a b) }
{
    match a.checked_add(b) {
        Some(n) => Ok(n),
        None => Err(NoMemory),
    }
}

#[tactic(auto, unfolding(crate::specs::Findings::later))]
fn later(nodes: u32, first: Option<Finding>) -> Result<Option<Finding>, NoMemory>
    ensures { IfOk result (λ f. f ≡ spec.later nodes first) }
{
    match first {
        None => Ok(None),
        Some(f) => Ok(Some(Finding {
            rule: f.rule,
            node: added(nodes, f.node)?,
        })),
    }
}

#[tactic(auto, unfolding(crate::specs::Findings::at_first))]
fn at_first(rule: Option<Rule>) -> Option<Finding>
    ensures { result ≡ spec.at_first rule }
{
    match rule {
        None => None,
        Some(rule) => Some(Finding { rule, node: 0 }),
    }
}

/// A statement by its own nodes, of which it is the first, and what it breaks itself.
#[tactic(auto, unfolding(crate::specs::Findings::own))]
pub fn own(nodes: u32, note: Note) -> Report
    ensures { result ≡ spec.own nodes note }
{
    Report {
        first: at_first(note.least),
        nodes,
    }
}

/// No statement.
#[tactic(auto, unfolding(crate::specs::Findings::nothing))]
pub fn nothing() -> Report
    ensures { result ≡ spec.nothing }
{
    Report {
        first: None,
        nodes: 0,
    }
}

/// A statement with so many nodes of its own behind it, as the declarations of a block.
pub fn own_with(more: usize, note: Note) -> Result<Report, NoMemory>
    ensures { IfOk result (λ r. r ≡ spec.own_with more note) }
{
    Ok(own(added(1, narrow(more)?)?, note))
}

/// One behind the other.
#[tactic(auto, unfolding(crate::specs::Findings::followed))]
pub fn followed(a: Report, b: Report) -> Result<Report, NoMemory>
    ensures { IfOk result (λ r. r ≡ spec.followed a b) }
{
    let behind = later(a.nodes, b.first)?;
    Ok(Report {
        first: first_of(a.first, behind),
        nodes: added(a.nodes, b.nodes)?,
    })
}

/// Two of the same statements.
#[tactic(auto, unfolding(crate::specs::Findings::both))]
pub fn both(a: Report, b: Report) -> Report
    ensures { result ≡ spec.both a b }
{
    Report {
        first: first_of(a.first, b.first),
        nodes: a.nodes,
    }
}

/// IF or CASE, by its arms and what stands behind ELSE.
pub fn branched(arms: Report, other: Report) -> Result<Report, NoMemory>
    ensures { IfOk result (λ r. r ≡ spec.branched arms other) }
{
    followed(own(1, clean()), followed(arms, other)?)
}
