//! The first size of an expanded function that is too large.

ghost use Rattle.std.specs.Prelude.{◌≡◌, ◌≤◌, ◌<◌, ◌+◌, false, length, IfOk};
ghost use Rattle.away_lex.specs.declared.refusals.LimitKind.TheVariants as limit;
ghost use Rattle.expanded_sizes.specs.Sizes as sizes;
ghost use Rattle.expanded_sizes.specs.Told as spec;
ghost use Rattle.expanded_sizes.specs.Walking.{told};

use crate::depths::expanded_depth;
use crate::weights::{Weights, expanded_weight, of_loops, of_nodes, of_variables};
use away_lex::LimitKind;
use away_trees::Function;
use away_values::NoMemory;
use std::alloc::Global;

const MOST_NESTING: u64 = 64;

const MOST_NODES: u64 = 500;

const MOST_VARIABLES: u64 = 64;

const MOST_LOOPS: u64 = 64;

/// How many parameters the first function has.
#[tactic(auto, using(crate::proofs::WeighingRules::function_is))]
fn parameters(fs: &[Function]) -> Result<u64, NoMemory>
    ensures { IfOk result (λ n. n ≡ spec.parameters fs.now) }
{
    if fs.len() == 0 {
        return Err(NoMemory);
    }
    Ok(fs[0].params.len() as u64)
}

/// What is told of a count, with so many more.
fn told_weight(alloc: Global, w: Weights, more: u64, fs: &[Function]) -> Result<u64, NoMemory>
    ensures { IfOk result (λ n. n
        ≡ told (more + sizes.expanded_weight w fs.now (length fs.now) false 0)) }
{
    match expanded_weight(alloc, w, fs)? {
        None => Ok(u64::MAX),
        Some(n) => Ok(n.saturating_add(more)),
    }
}

fn nesting(alloc: Global, fs: &[Function]) -> Result<u64, NoMemory>
    ensures { IfOk result (λ n. n ≡ told (spec.size fs.now limit.Nesting)) }
{
    expanded_depth(alloc, fs)
}

fn nodes(alloc: Global, fs: &[Function]) -> Result<u64, NoMemory>
    ensures { IfOk result (λ n. n ≡ told (spec.size fs.now limit.Nodes)) }
{
    told_weight(alloc, of_nodes(), parameters(fs)?, fs)
}

fn variables(alloc: Global, fs: &[Function]) -> Result<u64, NoMemory>
    ensures { IfOk result (λ n. n ≡ told (spec.size fs.now limit.Variables)) }
{
    told_weight(alloc, of_variables(), parameters(fs)?, fs)
}

fn loops(alloc: Global, fs: &[Function]) -> Result<u64, NoMemory>
    ensures { IfOk result (λ n. n ≡ told (spec.size fs.now limit.Loops)) }
{
    told_weight(alloc, of_loops(), 0, fs)
}

/// The first of nesting, nodes, variables and FOR loops of which the function with its calls expanded would have too many, with
/// their number, or the greatest of 64 bits. Nothing is built.
pub fn size_told(alloc: Global, fs: &[Function]) -> Result<Option<(LimitKind, u64)>, NoMemory>
    ensures { IfOk result (λ found. spec.IsTold fs.now found) }
{
    let deep = nesting(alloc, fs)?;
    if deep > MOST_NESTING {
        return Ok(Some((LimitKind::Nesting, deep)));
    }
    let many = nodes(alloc, fs)?;
    if many > MOST_NODES {
        return Ok(Some((LimitKind::Nodes, many)));
    }
    let declared = variables(alloc, fs)?;
    if declared > MOST_VARIABLES {
        return Ok(Some((LimitKind::Variables, declared)));
    }
    let counters = loops(alloc, fs)?;
    if counters > MOST_LOOPS {
        return Ok(Some((LimitKind::Loops, counters)));
    }
    Ok(None)
}
