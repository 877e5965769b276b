//! How many nodes a function has.

ghost use Rattle.std.specs.Prelude.{◌≡◌, ◌≤◌, ◌<◌, ◌+◌, ◌^◌, sum_by, IfNone, IfSome};
ghost use Rattle.away_trees.specs.Count as spec;

use crate::statements::{Arm, Function, Stmt};

/// The count with the nodes of a statement and of what stands in it.
#[cycle(count)]
#[tactic(auto, using(crate::proofs::CountLemmas::node_rules))]
fn with_statement(before: u64, s: &Stmt) -> Option<u64>
    ensures some { IfSome result (λ n. n ≡ before + spec.nodes_of s.now) }
    ensures none { IfNone result (2 ^ 64 ≤ before + spec.nodes_of s.now) }
{
    match s {
        Stmt::Block { decls, body, .. } => {
            let count = before.checked_add(1)?.checked_add(decls.len() as u64)?;
            with_statements(count, body.as_slice())
        }
        Stmt::If(arms, other) | Stmt::Cases(arms, other) => {
            let count = with_arms(before.checked_add(1)?, arms.as_slice())?;
            match other {
                None => Some(count),
                Some(body) => with_statements(count.checked_add(1)?, body.as_slice()),
            }
        }
        Stmt::Loop { body, .. } => with_statements(before.checked_add(1)?, body.as_slice()),
        Stmt::Into { targets, .. } => before.checked_add(1)?.checked_add(targets.len() as u64),
        Stmt::Assign(_, _, _)
        | Stmt::Exit(_, _)
        | Stmt::Continue(_, _)
        | Stmt::Return(_)
        | Stmt::Raise(_)
        | Stmt::Nothing => before.checked_add(1),
    }
}

#[cycle(count)]
#[tactic(auto, using(crate::proofs::CountLemmas::node_rules))]
fn with_statements(before: u64, list: &[Stmt]) -> Option<u64>
    ensures some { IfSome result (λ n. n ≡ before + sum_by spec.nodes_of list.now) }
    ensures none { IfNone result (2 ^ 64 ≤ before + sum_by spec.nodes_of list.now) }
{
    let mut count = before;
    for i in 0..list.len() {
        count = with_statement(count, &list[i])?;
    }
    Some(count)
}

#[cycle(count)]
#[tactic(auto, using(crate::proofs::CountLemmas::node_rules))]
fn with_arms(before: u64, list: &[Arm]) -> Option<u64>
    ensures some { IfSome result (λ n. n ≡ before + sum_by spec.nodes_of_arm list.now) }
    ensures none { IfNone result (2 ^ 64 ≤ before + sum_by spec.nodes_of_arm list.now) }
{
    let mut count = before;
    for i in 0..list.len() {
        count = with_arm(count, &list[i])?;
    }
    Some(count)
}

#[cycle(count)]
#[tactic(auto, using(crate::proofs::CountLemmas::node_rules))]
fn with_arm(before: u64, arm: &Arm) -> Option<u64>
    ensures some { IfSome result (λ n. n ≡ before + spec.nodes_of_arm arm.now) }
    ensures none { IfNone result (2 ^ 64 ≤ before + spec.nodes_of_arm arm.now) }
{
    with_statements(before.checked_add(1)?, arm.body.as_slice())
}

/// How many nodes a statement has with what stands in it, where that fits into 64 bits.
pub fn nodes_of_statement(s: &Stmt) -> Option<u64>
    ensures some { IfSome result (λ n. n ≡ spec.nodes_of s.now) }
    ensures none { IfNone result (2 ^ 64 ≤ spec.nodes_of s.now) }
{
    with_statement(0, s)
}

/// How many nodes an arm has with its statements, where that fits into 64 bits.
pub fn nodes_of_arm(arm: &Arm) -> Option<u64>
    ensures some { IfSome result (λ n. n ≡ spec.nodes_of_arm arm.now) }
    ensures none { IfNone result (2 ^ 64 ≤ spec.nodes_of_arm arm.now) }
{
    with_arm(0, arm)
}

/// How many nodes a function has, where that fits into 64 bits: its statements, arms, declarations, parameters and targets of
/// INTO. Each condition of IF, ELSIF or CASE with its statements is an arm, and so is each ELSE.
#[tactic(auto, unfolding(crate::specs::Count::nodes))]
pub fn node_count(f: &Function) -> Option<u64>
    ensures some { IfSome result (λ n. n ≡ spec.nodes f.now) }
    ensures none { IfNone result (2 ^ 64 ≤ spec.nodes f.now) }
{
    with_statement(f.params.len() as u64, &f.body)
}

/// How many nodes a function has, of which there are fewer than 2^32.
pub fn nodes(f: &Function) -> u64
    requires { spec.nodes f.now < 2 ^ 32 }
    ensures { result ≡ spec.nodes f.now }
{
    node_count(f).unwrap()
}

/// Sixteen times one more than the nodes: at least the number of steps that a turn of the function may take in its lowered
/// forms.
#[tactic(auto, unfolding(crate::specs::Count::weight))]
pub fn weight(f: &Function) -> u64
    requires { spec.nodes f.now < 2 ^ 32 }
    ensures { result ≡ spec.weight f.now }
{
    16 * (nodes(f) + 1)
}
