//! How many variables and loops a function has.

ghost use Rattle.std.specs.Prelude.{◌≡◌, ◌≤◌, ◌+◌, ◌^◌, sum_by, IfNone, IfSome};
ghost use Rattle.away_trees.specs.Limits as spec;

use away_trees::{Arm, Function, LoopKind, Stmt};

/// Counts of a function or of a part of it.
#[derive(Clone, Copy)]
pub struct Counts {
    /// Parameters and declarations.
    pub variables: u64,
    /// FOR loops.
    pub loops: u64,
}

impl Counts {
    /// The counts with so many more of each, where each fits into 64 bits.
    fn plus(self, variables: u64, loops: u64) -> Option<Counts>
        ensures variables { IfSome result (λ sum. sum.variables ≡ self.variables + variables) }
        ensures loops { IfSome result (λ sum. sum.loops ≡ self.loops + loops) }
        ensures full { IfNone result
            (2 ^ 64 ≤ (self.variables + variables) + (self.loops + loops)) }
    {
        Some(Counts {
            variables: self.variables.checked_add(variables)?,
            loops: self.loops.checked_add(loops)?,
        })
    }
}

fn for_loops(kind: &LoopKind) -> u64
    ensures { result ≡ spec.for_loops kind.now }
{
    match kind {
        LoopKind::Count { .. } => 1,
        _ => 0,
    }
}

/// The counts with those of a statement and of what stands in it.
#[cycle(count)]
#[tactic(auto, using(crate::proofs::CountLemmas::count_rules))]
fn with_statement(before: Counts, s: &Stmt) -> Option<Counts>
    ensures variables { IfSome result
        (λ sum. sum.variables ≡ before.variables + spec.variables_of s.now) }
    ensures loops { IfSome result (λ sum. sum.loops ≡ before.loops + spec.loops_of s.now) }
    ensures full { IfNone result (2 ^ 64 ≤ (before.variables + spec.variables_of s.now)
        + (before.loops + spec.loops_of s.now)) }
{
    match s {
        Stmt::Block { decls, body, .. } => {
            let declared = decls.len() as u64;
            with_statements(before.plus(declared, 0)?, body.as_slice())
        }
        Stmt::If(arms, other) | Stmt::Cases(arms, other) => {
            let counts = with_arms(before, arms.as_slice())?;
            match other {
                None => Some(counts),
                Some(body) => with_statements(counts, body.as_slice()),
            }
        }
        Stmt::Loop { kind, body, .. } => {
            with_statements(before.plus(0, for_loops(kind))?, body.as_slice())
        }
        Stmt::Assign(_, _, _)
        | Stmt::Exit(_, _)
        | Stmt::Continue(_, _)
        | Stmt::Return(_)
        | Stmt::Raise(_)
        | Stmt::Into { .. }
        | Stmt::Nothing => Some(before),
    }
}

#[cycle(count)]
#[tactic(auto, using(crate::proofs::CountLemmas::count_rules))]
fn with_statements(before: Counts, list: &[Stmt]) -> Option<Counts>
    ensures variables { IfSome result
        (λ sum. sum.variables ≡ before.variables + sum_by spec.variables_of list.now) }
    ensures loops { IfSome result
        (λ sum. sum.loops ≡ before.loops + sum_by spec.loops_of list.now) }
    ensures full { IfNone result (2 ^ 64 ≤ (before.variables + sum_by spec.variables_of list.now)
        + (before.loops + sum_by spec.loops_of list.now)) }
{
    let mut counts = before;
    for i in 0..list.len() {
        counts = with_statement(counts, &list[i])?;
    }
    Some(counts)
}

#[cycle(count)]
#[tactic(auto, using(crate::proofs::CountLemmas::count_rules))]
fn with_arms(before: Counts, list: &[Arm]) -> Option<Counts>
    ensures variables { IfSome result
        (λ sum. sum.variables ≡ before.variables + sum_by spec.variables_of_arm list.now) }
    ensures loops { IfSome result
        (λ sum. sum.loops ≡ before.loops + sum_by spec.loops_of_arm list.now) }
    ensures full { IfNone result
        (2 ^ 64 ≤ (before.variables + sum_by spec.variables_of_arm list.now)
        + (before.loops + sum_by spec.loops_of_arm list.now)) }
{
    let mut counts = before;
    for i in 0..list.len() {
        counts = with_statements(counts, list[i].body.as_slice())?;
    }
    Some(counts)
}

/// The counts of a function, where each fits into 64 bits.
#[tactic(auto, unfolding(away_trees::specs::Limits::variables, away_trees::specs::Limits::loops))]
pub fn counts_of(f: &Function) -> Option<Counts>
    ensures variables { IfSome result (λ sum. sum.variables ≡ spec.variables f.now) }
    ensures loops { IfSome result (λ sum. sum.loops ≡ spec.loops f.now) }
    ensures full { IfNone result (2 ^ 64 ≤ spec.variables f.now + spec.loops f.now) }
{
    let before = Counts {
        variables: f.params.len() as u64,
        loops: 0,
    };
    with_statement(before, &f.body)
}
