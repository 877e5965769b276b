//! Why a check refuses a tree.

use crate::finding::Finding;
use away_names::rule::Rule;
use thiserror::Error;

/// The least rule that the tree breaks, or want of memory.
#[derive(Clone, Copy, Debug, PartialEq, Eq, Error)]
pub enum RuleRefusal {
    #[error("rule X{} is broken", .0.number())]
    Broken(Rule),
    #[error("no memory was left")]
    NoMemory,
}

/// The first finding in a function, of the least rule that it breaks, or want of memory.
#[derive(Clone, Copy, Debug, PartialEq, Eq, Error)]
pub enum FunctionRefusal {
    #[error("rule X{} is broken at node {}", .0.rule.number(), .0.node)]
    Broken(Finding),
    #[error("no memory was left")]
    NoMemory,
}
