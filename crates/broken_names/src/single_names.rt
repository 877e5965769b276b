//! Whether a name breaks a rule by itself.

ghost use Rattle.std.specs.Prelude.{◌≡◌, IfOk, IfSome, Some, true};
ghost use Rattle.std.specs.Bool.{OnTrue};
ghost use Rattle.away_trees.specs.declared.queries.Expr.TheVariants as e;
ghost use Rattle.away_names.specs.Naming as naming;
ghost use Rattle.away_names.specs.declared.rule.Rule.TheVariants as rule;
ghost use Rattle.away_names.specs.Places.{scope};
ghost use Rattle.away_trees.specs.declared.queries.Source.TheVariants as source;
ghost use Rattle.away_names.specs.Lookups.{Level};
ghost use Rattle.broken_names.specs.Holds.{Holds, aliases, of_expr, of_key, of_source};

use crate::culprit::Culprit;
use away_names::listings::is_alias;
use away_names::lookups::table_named;
use away_names::note::Note;
use away_names::references::{call_note, named, qualified};
use away_names::rule::Rule;
use away_names::scope::Scope;
use away_trees::{Expr, Item, Key};
use away_values::{Name, NoMemory};
use std::alloc::Global;

pub(crate) fn is_rule(rule: Rule, broken: Rule) -> bool
    ensures { OnTrue result (broken ≡ rule) }
{
    rule == broken
}

fn tells(note: Note, broken: Rule) -> bool
    ensures { OnTrue result (note.least ≡ Some broken) }
{
    match note.least {
        Some(rule) => rule == broken,
        None => false,
    }
}

fn note_of_name(alloc: Global, n: &Name, s: &Scope<'_>) -> Result<Note, NoMemory>
    ensures { IfOk result (λ note. note ≡ (naming.named n.now (scope s.now)).note) }
{
    let x = named(alloc, n, s)?;
    Ok(x.note)
}

fn note_of_column(alloc: Global, a: &Name, n: &Name, s: &Scope<'_>) -> Result<Note, NoMemory>
    ensures { IfOk result (λ note. note ≡ (naming.qualified a.now n.now (scope s.now)).note) }
{
    let x = qualified(alloc, a, n, s)?;
    Ok(x.note)
}

/// A name alone.
pub(crate) fn broken_name(
    alloc: Global,
    broken: Rule,
    n: &Name,
    s: &Scope<'_>,
) -> Result<Option<Culprit>, NoMemory>
    ensures { IfOk result (λ found. IfSome found
        (Holds broken (scope s.now) (of_expr (e.Named n.now)))) }
{
    let note = note_of_name(alloc, n, s)?;
    if tells(note, broken) {
        return Ok(Some(Culprit::Name(n.copy(alloc)?)));
    }
    Ok(None)
}

/// A column behind its item of FROM.
pub(crate) fn broken_column(
    alloc: Global,
    broken: Rule,
    a: &Name,
    n: &Name,
    s: &Scope<'_>,
) -> Result<Option<Culprit>, NoMemory>
    ensures { IfOk result (λ found. IfSome found
        (Holds broken (scope s.now) (of_expr (e.Dotted a.now n.now)))) }
{
    let note = note_of_column(alloc, a, n, s)?;
    if tells(note, broken) {
        let item = a.copy(alloc)?;
        return Ok(Some(Culprit::Column(item, n.copy(alloc)?)));
    }
    Ok(None)
}

/// The function of a call.
pub(crate) fn breaks_call(broken: Rule, n: &Name, s: &Scope<'_>) -> bool
    ensures { OnTrue result ((naming.called (scope s.now) n.now).least ≡ Some broken) }
{
    tells(call_note(s, n), broken)
}

/// Whether a parameter of a query breaks the rule.
pub(crate) fn breaks_parameter(broken: Rule, s: &Scope<'_>) -> bool
    ensures rule { OnTrue result (broken ≡ rule.Names) }
    ensures place { OnTrue result ((scope s.now).in_function ≡ true) }
{
    if !s.in_function {
        return false;
    }
    is_rule(Rule::Names, broken)
}

/// A key that is a name alone, which is an alias of the list too.
pub(crate) fn broken_key(
    alloc: Global,
    broken: Rule,
    key: &Key,
    list: &[Item],
    s: &Scope<'_>,
) -> Result<Option<Culprit>, NoMemory>
    ensures { IfOk result (λ found. IfSome found
        (Holds broken (scope s.now) (of_key (aliases list.now) key.now))) }
{
    if !is_rule(Rule::Ambiguity, broken) {
        return Ok(None);
    }
    if !is_alias(list, &key.expr) {
        return Ok(None);
    }
    match &key.expr {
        Expr::Named(n) => Ok(Some(Culprit::Name(n.copy(alloc)?))),
        _ => Ok(None),
    }
}

/// A table of FROM that isn't known, whatever items stand before it.
pub(crate) fn broken_table(
    alloc: Global,
    broken: Rule,
    n: &Name,
    s: &Scope<'_>,
) -> Result<Option<Culprit>, NoMemory>
    ensures { IfOk result (λ found. IfSome found
        (λ c. (level : Level) → Holds broken (scope s.now) (of_source level (source.Table n.now)) c)) }
{
    if !is_rule(Rule::Tables, broken) {
        return Ok(None);
    }
    match table_named(n, s.tables) {
        Some(_) => Ok(None),
        None => Ok(Some(Culprit::Table(n.copy(alloc)?))),
    }
}
