//! What breaks a rule of names in what is told by a statement's own node.

ghost use Rattle.std.specs.Prelude.{◌≡◌, IfOk, IfSome, Some};
ghost use Rattle.std.specs.Bool.{OnTrue};
ghost use Rattle.away_names.specs.Lookups as lookups;
ghost use Rattle.away_names.specs.Places.{scope};
ghost use Rattle.broken_names.specs.Holds.{Holds, of_maybe};
ghost use Rattle.broken_names.specs.StatementCulprits as spec;
ghost use Rattle.broken_names.specs.StatementCulprits.{IsOwn};

use crate::culprit::Culprit;
use crate::expressions::{in_expr, in_maybe};
use crate::queries::in_select;
use crate::variables::{copied, with_variable};
use away_names::lookups::variable_named;
use away_names::rule::Rule;
use away_names::scope::{Scope, Variable};
use away_trees::{Decl, Expr, LoopKind, Select, Stmt};
use away_values::{Name, NoMemory};
use std::alloc::Global;

/// In the default of a declaration, which sees these variables.
fn in_default(
    alloc: Global,
    broken: Rule,
    d: &Decl,
    variables: &[Variable],
    s: &Scope<'_>,
) -> Result<Option<Culprit>, NoMemory>
    ensures { IfOk result (λ found. IfSome found
        (Holds broken (spec.seeing variables.now (scope s.now)) (of_maybe (d.now).default))) }
{
    let here = Scope {
        tables: s.tables,
        levels: s.levels,
        variables,
        in_function: s.in_function,
    };
    in_maybe(alloc, broken, &d.default, &here)
}

/// In the defaults of declarations, each of which sees those before it.
fn in_defaults(
    alloc: Global,
    broken: Rule,
    decls: &[Decl],
    s: &Scope<'_>,
) -> Result<Option<Culprit>, NoMemory>
    ensures { IfOk result (λ found. IfSome found
        (IsOwn broken (scope s.now) (spec.defaults decls.now))) }
{
    let mut variables = copied(alloc, s.variables)?;
    for d in decls {
        let found = in_default(alloc, broken, d, variables.as_slice(), s)?;
        if found.is_some() {
            return Ok(found);
        }
        variables = with_variable(alloc, variables, &d.name, d.constant)?;
    }
    Ok(None)
}

/// Which rule is broken where the name is set.
fn broken_by_set(name: &Name, variables: &[Variable]) -> Option<Rule>
    ensures { result ≡ spec.broken_by_set (lookups.variable_named name.now variables.now) }
{
    match variable_named(name, variables) {
        None => Some(Rule::Names),
        Some(v) => {
            if v.constant {
                Some(Rule::Constants)
            } else {
                None
            }
        }
    }
}

/// Whether the rule that was found is the one that is sought.
fn is_sought(found: Option<Rule>, broken: Rule) -> bool
    ensures { OnTrue result (found ≡ Some broken) }
{
    match found {
        Some(rule) => rule == broken,
        None => false,
    }
}

/// The name itself, where it is set and mayn't be.
fn in_target(
    alloc: Global,
    broken: Rule,
    name: &Name,
    s: &Scope<'_>,
) -> Result<Option<Culprit>, NoMemory>
    ensures { IfOk result (λ found. IfSome found
        (IsOwn broken (scope s.now) (spec.target name.now))) }
{
    if is_sought(broken_by_set(name, s.variables), broken) {
        Ok(Some(Culprit::Name(name.copy(alloc)?)))
    } else {
        Ok(None)
    }
}

/// In the targets of INTO.
fn in_targets(
    alloc: Global,
    broken: Rule,
    targets: &[(Name, Option<u32>)],
    s: &Scope<'_>,
) -> Result<Option<Culprit>, NoMemory>
    ensures { IfOk result (λ found. IfSome found
        (IsOwn broken (scope s.now) (spec.targets targets.now))) }
{
    for t in targets {
        let found = in_target(alloc, broken, &t.0, s)?;
        if found.is_some() {
            return Ok(found);
        }
    }
    Ok(None)
}

/// In the head of a FOR.
fn in_range(
    alloc: Global,
    broken: Rule,
    first: &Expr,
    last: &Expr,
    step: &Option<Expr>,
    s: &Scope<'_>,
) -> Result<Option<Culprit>, NoMemory>
    ensures { IfOk result (λ found. IfSome found
        (spec.IsInRange broken (scope s.now) first.now last.now step.now)) }
{
    let found = in_expr(alloc, broken, first, s)?;
    if found.is_some() {
        return Ok(found);
    }
    let found = in_expr(alloc, broken, last, s)?;
    if found.is_some() {
        return Ok(found);
    }
    in_maybe(alloc, broken, step, s)
}

/// In the head of a loop.
fn in_head(
    alloc: Global,
    broken: Rule,
    kind: &LoopKind,
    s: &Scope<'_>,
) -> Result<Option<Culprit>, NoMemory>
    ensures { IfOk result (λ found. IfSome found
        (IsOwn broken (scope s.now) (spec.head kind.now))) }
{
    match kind {
        LoopKind::Plain => Ok(None),
        LoopKind::While(test) => in_expr(alloc, broken, test, s),
        LoopKind::Count {
            first,
            last,
            step,
            ..
        } => { in_range(alloc, broken, first, last, step, s) }
    }
}

/// In an assignment.
fn in_assignment(
    alloc: Global,
    broken: Rule,
    name: &Name,
    value: &Expr,
    s: &Scope<'_>,
) -> Result<Option<Culprit>, NoMemory>
    ensures { IfOk result (λ found. IfSome found
        (spec.IsInAssignment broken (scope s.now) name.now value.now)) }
{
    let found = in_target(alloc, broken, name, s)?;
    if found.is_some() {
        return Ok(found);
    }
    in_expr(alloc, broken, value, s)
}

/// In a SELECT INTO: in its targets, or in its query.
fn in_into(
    alloc: Global,
    broken: Rule,
    targets: &[(Name, Option<u32>)],
    query: &Select,
    s: &Scope<'_>,
) -> Result<Option<Culprit>, NoMemory>
    ensures { IfOk result (λ found. IfSome found
        (spec.IsInInto broken (scope s.now) targets.now query.now)) }
{
    let found = in_targets(alloc, broken, targets, s)?;
    if found.is_some() {
        return Ok(found);
    }
    in_select(alloc, broken, query, s)
}

/// In what is told by the statement's own node.
pub(crate) fn in_own(
    alloc: Global,
    broken: Rule,
    x: &Stmt,
    s: &Scope<'_>,
) -> Result<Option<Culprit>, NoMemory>
    ensures { IfOk result (λ found. IfSome found
        (IsOwn broken (scope s.now) (spec.statement x.now))) }
{
    match x {
        Stmt::Block { decls, .. } => in_defaults(alloc, broken, decls.as_slice(), s),
        Stmt::Assign(name, _, value) => in_assignment(alloc, broken, name, value, s),
        Stmt::Loop { kind, .. } => in_head(alloc, broken, kind, s),
        Stmt::Exit(_, when) => in_maybe(alloc, broken, when, s),
        Stmt::Continue(_, when) => in_maybe(alloc, broken, when, s),
        Stmt::Return(value) => in_expr(alloc, broken, value, s),
        Stmt::Into { targets, query, .. } => {
            in_into(alloc, broken, targets.as_slice(), query, s)
        }
        Stmt::If(_, _) => Ok(None),
        Stmt::Cases(_, _) => Ok(None),
        Stmt::Raise(_) => Ok(None),
        Stmt::Nothing => Ok(None),
    }
}
