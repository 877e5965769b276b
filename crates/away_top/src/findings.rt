//! `explain` of a function that breaks a rule.

ghost use Rattle.std.specs.Prelude.{◌≡◌, ◌+◌, IfOk, IfSome, length, string_bytes};
ghost use Rattle.away_types.specs.FunctionChecks.{head_note};
ghost use Rattle.away_top.specs.Explanations as spec;
ghost use Rattle.away_top.specs.Explanations.{IsFindingPlace, IsFindingTold, IsFoundAt, IsOfName, IsOfPlace, IsWrittenAt};
ghost use Rattle.away_top.specs.Runs.{IsEnd};
ghost use Rattle.away_top.specs.Steps.{run_end};

use crate::Status;
use crate::ending::{Ending, Halt, rule_text};
use crate::explain::told;
use away_names::rule::Rule;
use away_trees::Function;
use away_types::{CheckedSchema, Finding, head_rule};
use away_values::NoMemory;
use broken_names::{Culprit, culprit_of, culprit_place, culprit_reason};
use function_places::{element_place, name_place};
use refusal_reasons::rule_reason;
use std::alloc::Global;

/// Where a finding is told, and for which reason.
#[derive(Drop)]
struct Found {
    offset: u64,
    reason: String,
}

/// What is told of a function that breaks a rule.
pub(crate) fn broken(
    alloc: Global,
    name: &str,
    tables: &CheckedSchema,
    bytes: &[u8],
    function: &Function,
    finding: Finding,
) -> Result<Ending, Halt>
    ensures { IsEnd (λ status output. IsFindingTold name.now tables.now.schema function.now
        bytes.now finding output × (status ≡ Status.Refused)) (run_end result) }
{
    let Some(found) = found_of(alloc, tables, bytes, function, finding)? else {
        return Err(Halt::NoMemory);
    };
    let rule = rule_text(alloc, finding.rule)?;
    told(alloc, name, bytes, found.offset, &rule, &found.reason)
}

/// The rules that a name breaks.
#[tactic(auto, unfolding(crate::specs::Explanations::is_of_name))]
fn is_of_name(rule: Rule) -> bool
    ensures { result ≡ spec.is_of_name rule }
{
    match rule {
        Rule::Names | Rule::Ambiguity | Rule::Tables | Rule::Constants => true,
        Rule::Duplicates
        | Rule::Labels
        | Rule::Defaults
        | Rule::Types
        | Rule::Reserved
        | Rule::Aggregates
        | Rule::Raises
        | Rule::Recursion
        | Rule::Answer => false,
    }
}

/// Where and why a finding is told.
fn found_of(
    alloc: Global,
    tables: &CheckedSchema,
    bytes: &[u8],
    function: &Function,
    finding: Finding,
) -> Result<Option<Found>, NoMemory>
    ensures { IfOk result (λ found. IfSome found (λ at. IsFoundAt tables.now.schema function.now
        bytes.now finding at.offset (string_bytes at.reason))) }
{
    if is_of_name(finding.rule) {
        of_name(alloc, tables, bytes, function, finding)
    } else {
        of_place(alloc, bytes, function, finding)
    }
}

// ---- by a name

/// The number of a node among those of the body.
fn node_of(function: &Function, finding: Finding) -> Option<u64>
    ensures { IfSome result (λ node. finding.node ≡ length function.now.params + node) }
{
    let node = finding.node as u64;
    let params = function.params.len() as u64;
    if node < params {
        None
    } else {
        Some(node - params)
    }
}

/// The same where a name breaks the rule.
fn of_name(
    alloc: Global,
    tables: &CheckedSchema,
    bytes: &[u8],
    function: &Function,
    finding: Finding,
) -> Result<Option<Found>, NoMemory>
    ensures { IfOk result (λ found. IfSome found (λ at. IsOfName tables.now.schema function.now
        bytes.now finding at.offset (string_bytes at.reason))) }
{
    let Some(node) = node_of(function, finding) else {
        return Ok(None);
    };
    let Some(culprit) = culprit_of(alloc, &tables.schema, function, finding.rule, node)? else {
        return Ok(None);
    };
    let Some(offset) = written_at(alloc, bytes, function, finding, &culprit)? else {
        return Ok(None);
    };
    let reason = culprit_reason(alloc, finding.rule, &culprit)?;
    Ok(Some(Found { offset, reason }))
}

/// Where the name is written behind the beginning of the node.
fn written_at(
    alloc: Global,
    bytes: &[u8],
    function: &Function,
    finding: Finding,
    culprit: &Culprit,
) -> Result<Option<u64>, NoMemory>
    ensures { IfOk result (λ found. IfSome found (λ offset. IsWrittenAt function.now
        bytes.now finding culprit.now offset)) }
{
    let params = function.params.len() as u64;
    match element_place(alloc, bytes, params, finding.node as u64)? {
        Some(start) => culprit_place(alloc, bytes, start, culprit),
        None => Ok(None),
    }
}

// ---- by a place alone

/// Whether the head breaks the rule.
fn is_of_head(head: Option<Rule>, rule: Rule) -> bool
    ensures { result ≡ spec.is_of_head head rule }
{
    match head {
        Some(broken) => broken.number() == rule.number(),
        None => false,
    }
}

/// Where a finding stands.
fn finding_place(
    alloc: Global,
    bytes: &[u8],
    function: &Function,
    finding: Finding,
) -> Result<Option<u64>, NoMemory>
    ensures { IfOk result (λ found. IfSome found (IsFindingPlace bytes.now
        (length function.now.params) (head_note function.now).least finding)) }
{
    if is_of_head(head_rule(function), finding.rule) {
        name_place(alloc, bytes)
    } else {
        element_place(
            alloc,
            bytes,
            function.params.len() as u64,
            finding.node as u64,
        )
    }
}

/// The same where the place alone is told.
fn of_place(
    alloc: Global,
    bytes: &[u8],
    function: &Function,
    finding: Finding,
) -> Result<Option<Found>, NoMemory>
    ensures { IfOk result (λ found. IfSome found (λ at. IsOfPlace function.now bytes.now finding
        at.offset (string_bytes at.reason))) }
{
    let Some(offset) = finding_place(alloc, bytes, function, finding)? else {
        return Ok(None);
    };
    let reason = String::from_str(alloc, rule_reason(finding.rule))?;
    Ok(Some(Found { offset, reason }))
}
