//! Labels, and the blocks and loops around a statement.

ghost use Rattle.std.specs.Prelude.{◌≡◌, IfOk, ◌∷◌, ◌++◌, [], false};
ghost use Rattle.std.specs.List.{list_any};
ghost use Rattle.away_names.specs.Places.{scope};
ghost use Rattle.away_types.specs.StatementRules as rules;
ghost use Rattle.away_types.specs.Statements as spec;

use crate::around::Around;
use away_names::listings::copy_alias;
use away_names::note::{Note, breaks, joined};
use away_names::references::maybe_written;
use away_names::rule::Rule;
use away_names::scope::Scope;
use away_values::{Name, NoMemory};
use sqlite_items::Items;
use std::alloc::Global;

fn has_label(l: &Name, a: &Around) -> bool
    ensures { result ≡ rules.has_label l.now a.now }
{
    match &a.label {
        None => false,
        Some(m) => m.text() == l.text(),
    }
}

fn is_in_loop(around: &[Around]) -> bool
    ensures { result ≡ rules.is_in_loop around.now }
{
    for a in around {
        if a.is_loop {
            return true;
        }
    }
    false
}

fn has_labelled(l: &Name, around: &[Around]) -> bool
    ensures { result ≡ list_any (rules.has_label l.now) around.now }
{
    for a in around {
        if has_label(l, a) {
            return true;
        }
    }
    false
}

fn labels_loop(l: &Name, around: &[Around]) -> bool
    ensures { result ≡ rules.labels_loop l.now false around.now }
{
    let mut found = false;
    for a in around {
        if has_label(l, a) {
            found = a.is_loop;
        }
    }
    found
}

/// Whether EXIT may stand there. The manual: 43.6.5.2, EXIT: a label may be a block's, and without one there is a loop around it.
#[tactic(auto, unfolding(crate::specs::StatementRules::may_exit))]
pub fn may_exit(label: &Option<Name>, around: &[Around]) -> bool
    ensures { result ≡ rules.may_exit label.now around.now }
{
    match label {
        None => is_in_loop(around),
        Some(l) => has_labelled(l, around),
    }
}

/// Whether CONTINUE may stand there. The manual: 43.6.5.3, CONTINUE: the label is a loop's.
#[tactic(auto, unfolding(crate::specs::StatementRules::may_continue))]
pub fn may_continue(label: &Option<Name>, around: &[Around]) -> bool
    ensures { result ≡ rules.may_continue label.now around.now }
{
    match label {
        None => is_in_loop(around),
        Some(l) => labels_loop(l, around),
    }
}

#[tactic(auto, unfolding(crate::specs::StatementRules::closes))]
fn closes(label: &Option<Name>, closing: &Option<Name>) -> bool
    ensures { result ≡ rules.closes label.now closing.now }
{
    match closing {
        None => true,
        Some(c) => match label {
            None => false,
            Some(l) => l.text() == c.text(),
        },
    }
}

/// What the label and the closing label break. The manual: 43.2, Structure of PL/pgSQL: a closing label is the block's own.
pub fn labelled(s: &Scope<'_>, label: &Option<Name>, closing: &Option<Name>) -> Note
    ensures { result ≡ spec.labelled (scope s.now) label.now closing.now }
{
    joined(
        maybe_written(s, label),
        joined(
            maybe_written(s, closing),
            breaks(Rule::Labels, !closes(label, closing)),
        ),
    )
}

/// One more around a statement.
pub fn around_with(
    alloc: Global,
    outer: &[Around],
    label: &Option<Name>,
    is_loop: bool,
) -> Result<Items<Around>, NoMemory>
    ensures { IfOk result (λ all. all ≡ outer.now ++ record { label = label.now; is_loop = is_loop }
        ∷ []) }
{
    let mut all = Items::new(alloc);
    for i in 0..outer.len() {
        let a = &outer[i];
        all.push(Around {
            label: copy_alias(alloc, &a.label)?,
            is_loop: a.is_loop,
        })?;
    }
    all.push(Around {
        label: copy_alias(alloc, label)?,
        is_loop,
    })?;
    Ok(all)
}
