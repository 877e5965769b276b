//! What breaks a rule of names at a node of a function's statements.

ghost use Rattle.std.specs.Prelude.{◌≡◌, ◌+◌, IfOk, IfSome, sum_by};
ghost use Rattle.away_trees.specs.Count as count;
ghost use Rattle.away_names.specs.Places.{scope};
ghost use Rattle.broken_names.specs.StatementCulprits as spec;
ghost use Rattle.broken_names.specs.StatementCulprits.{IsAt};

use crate::culprit::Culprit;
use crate::expressions::in_expr;
use crate::own_names::in_own;
use crate::variables::{with_counter, with_decls};
use away_names::rule::Rule;
use away_names::scope::{Scope, Variable};
use away_trees::{Arm, Decl, LoopKind, Stmt, nodes_of_arm, nodes_of_statement};
use away_values::NoMemory;
use std::alloc::Global;

fn nodes_of(x: &Stmt) -> Result<u64, NoMemory>
    ensures { IfOk result (λ nodes. nodes ≡ count.nodes_of x.now) }
{
    match nodes_of_statement(x) {
        Some(nodes) => Ok(nodes),
        None => Err(NoMemory),
    }
}

fn nodes_of_one(a: &Arm) -> Result<u64, NoMemory>
    ensures { IfOk result (λ nodes. nodes ≡ count.nodes_of_arm a.now) }
{
    match nodes_of_arm(a) {
        Some(nodes) => Ok(nodes),
        None => Err(NoMemory),
    }
}

fn added(a: u64, b: u64) -> Result<u64, NoMemory>
    ensures { IfOk result (λ n. n ≡ a + b) }
{
    match a.checked_add(b) {
        Some(n) => Ok(n),
        None => Err(NoMemory),
    }
}

fn nodes_of_arms(arms: &[Arm]) -> Result<u64, NoMemory>
    ensures { IfOk result (λ nodes. nodes ≡ sum_by (λ a. count.nodes_of_arm a) arms.now) }
{
    let mut nodes = 0;
    for a in arms {
        nodes = added(nodes, nodes_of_one(a)?)?;
    }
    Ok(nodes)
}

/// Where a node behind an IF or a CASE stands in the statements behind ELSE: counted from the first of these.
fn behind_else(arms: &[Arm], node: u64) -> Result<Option<u64>, NoMemory>
    ensures { IfOk result (λ found. IfSome found (spec.IsBehindArms arms.now node)) }
{
    let nodes = nodes_of_arms(arms)?;
    if nodes < node {
        Ok(Some(node - nodes - 1))
    } else {
        Ok(None)
    }
}

/// At a node of a statement.
#[cycle(nodes)]
pub(crate) fn in_statement(
    alloc: Global,
    broken: Rule,
    x: &Stmt,
    s: &Scope<'_>,
    node: u64,
) -> Result<Option<Culprit>, NoMemory>
    ensures { IfOk result (λ found. IfSome found
        (IsAt broken (scope s.now) (spec.of_statement x.now) node)) }
{
    if node == 0 {
        in_own(alloc, broken, x, s)
    } else {
        in_parts(alloc, broken, x, s, node - 1)
    }
}

/// At a node of a statement behind the statement itself.
#[cycle(nodes)]
fn in_parts(
    alloc: Global,
    broken: Rule,
    x: &Stmt,
    s: &Scope<'_>,
    node: u64,
) -> Result<Option<Culprit>, NoMemory>
    ensures { IfOk result (λ found. IfSome found
        (IsAt broken (scope s.now) (spec.of_statement x.now) (1 + node))) }
{
    match x {
        Stmt::Block { decls, body, .. } => {
            in_block(alloc, broken, body.as_slice(), decls.as_slice(), s, node)
        }
        Stmt::Loop { kind, body, .. } => in_turns(alloc, broken, body.as_slice(), kind, s, node),
        Stmt::If(arms, other) => match other {
            None => in_arms(alloc, broken, arms.as_slice(), s, node),
            Some(body) => match behind_else(arms.as_slice(), node)? {
                None => in_arms(alloc, broken, arms.as_slice(), s, node),
                Some(left) => in_statements(alloc, broken, body.as_slice(), s, left),
            },
        },
        Stmt::Cases(arms, other) => match other {
            None => in_arms(alloc, broken, arms.as_slice(), s, node),
            Some(body) => match behind_else(arms.as_slice(), node)? {
                None => in_arms(alloc, broken, arms.as_slice(), s, node),
                Some(left) => in_statements(alloc, broken, body.as_slice(), s, left),
            },
        },
        Stmt::Assign(_, _, _) | Stmt::Exit(_, _) | Stmt::Continue(_, _) => Ok(None),
        Stmt::Return(_) | Stmt::Raise(_) | Stmt::Into { .. } | Stmt::Nothing => Ok(None),
    }
}

/// At a node of a block behind the block itself: behind its declarations, in its statements.
#[cycle(nodes)]
fn in_block(
    alloc: Global,
    broken: Rule,
    body: &[Stmt],
    decls: &[Decl],
    s: &Scope<'_>,
    node: u64,
) -> Result<Option<Culprit>, NoMemory>
    ensures { IfOk result (λ found. IfSome found
        (spec.IsInBlock broken (scope s.now) decls.now body.now node)) }
{
    let many = decls.len() as u64;
    if node < many {
        return Ok(None);
    }
    let variables = with_decls(alloc, s.variables, decls)?;
    in_inside(alloc, broken, body, variables.as_slice(), s, node - many)
}

/// At a node of a loop behind the loop itself.
#[cycle(nodes)]
fn in_turns(
    alloc: Global,
    broken: Rule,
    body: &[Stmt],
    kind: &LoopKind,
    s: &Scope<'_>,
    node: u64,
) -> Result<Option<Culprit>, NoMemory>
    ensures { IfOk result (λ found. IfSome found
        (spec.IsInTurns broken (scope s.now) kind.now body.now node)) }
{
    let variables = with_counter(alloc, s.variables, kind)?;
    in_inside(alloc, broken, body, variables.as_slice(), s, node)
}

/// At a node of statements that see these variables.
#[cycle(nodes)]
fn in_inside(
    alloc: Global,
    broken: Rule,
    body: &[Stmt],
    variables: &[Variable],
    s: &Scope<'_>,
    node: u64,
) -> Result<Option<Culprit>, NoMemory>
    ensures { IfOk result (λ found. IfSome found
        (IsAt broken (spec.seeing variables.now (scope s.now)) (spec.of_statements body.now)
        node)) }
{
    let inner = Scope {
        tables: s.tables,
        levels: s.levels,
        variables,
        in_function: s.in_function,
    };
    in_statements(alloc, broken, body, &inner, node)
}

/// At a node of statements.
#[cycle(nodes)]
fn in_statements(
    alloc: Global,
    broken: Rule,
    list: &[Stmt],
    s: &Scope<'_>,
    node: u64,
) -> Result<Option<Culprit>, NoMemory>
    ensures { IfOk result (λ found. IfSome found
        (IsAt broken (scope s.now) (spec.of_statements list.now) node)) }
{
    let mut left = node;
    for x in list {
        let nodes = nodes_of(x)?;
        if left < nodes {
            return in_statement(alloc, broken, x, s, left);
        }
        left -= nodes;
    }
    Ok(None)
}

/// At a node of arms.
#[cycle(nodes)]
fn in_arms(
    alloc: Global,
    broken: Rule,
    list: &[Arm],
    s: &Scope<'_>,
    node: u64,
) -> Result<Option<Culprit>, NoMemory>
    ensures { IfOk result (λ found. IfSome found
        (IsAt broken (scope s.now) (spec.of_arms list.now) node)) }
{
    let mut left = node;
    for a in list {
        let nodes = nodes_of_one(a)?;
        if left < nodes {
            return in_arm(alloc, broken, a, s, left);
        }
        left -= nodes;
    }
    Ok(None)
}

/// At a node of an arm.
#[cycle(nodes)]
fn in_arm(
    alloc: Global,
    broken: Rule,
    a: &Arm,
    s: &Scope<'_>,
    node: u64,
) -> Result<Option<Culprit>, NoMemory>
    ensures { IfOk result (λ found. IfSome found
        (IsAt broken (scope s.now) (spec.of_arm a.now) node)) }
{
    if node == 0 {
        in_expr(alloc, broken, &a.test, s)
    } else {
        in_statements(alloc, broken, a.body.as_slice(), s, node - 1)
    }
}
