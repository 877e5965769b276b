//! The blocks of SELECT INTO.

ghost use Rattle.std.specs.Prelude.{◌≡◌, ◌+◌, OnOk, length, List};
ghost use Rattle.block_forms.specs.Around.{Around};
ghost use Rattle.block_forms.specs.Laid.{place};
ghost use Rattle.select_into.specs.Entries.{checks};
ghost use Rattle.goto_lower.specs.Building.{into_built};
ghost use Rattle.goto_lower.specs.IntoBlocks as spec;
ghost use Rattle.goto_lower.specs.Drafts.{extended, emitted, taken};

use crate::assignments::push_slot;
use crate::counts::{check_many, put_many};
use crate::draft::Draft;
use crate::own_blocks::first_of;
use crate::setting::Setting;
use crate::shapes::{branches, fails, jumps, sets};
use crate::sizes::checks;
use crate::sums::{place, sum};
use crate::terms::{copy, select_term};
use away_trees::Select;
use away_values::{Name, NoMemory, sqlstate};
use std::alloc::Global;

/// The parts of a statement.
#[derive(Clone, Copy)]
pub(crate) struct Into<'a> {
    pub(crate) strict: bool,
    pub(crate) targets: &'a [(Name, Option<u32>)],
    pub(crate) query: &'a Select,
}

/// The tests of STRICT, behind which what follows begins at `first`.
#[tactic(auto, using(crate::proofs::DraftRules::draft_rules))]
fn push_checks(
    alloc: Global,
    draft: &mut Draft,
    strict: bool,
    k: u32,
    query: &Select,
    first: u32,
) -> Result<(), NoMemory>
    ensures { OnOk result (draft.new ≡ extended
        (spec.check_blocks strict k query.now first (length draft.old.blocks)) draft.old) }
{
    if strict {
        let start = draft.here()?;
        let none = select_term(alloc, k, query)?;
        draft.push(branches(false, none, sum(start, 1)?, sum(start, 2)?))?;
        draft.push(fails(sqlstate::NO_DATA_FOUND))?;
        let more = select_term(alloc, sum(k, 1)?, query)?;
        draft.push(branches(false, more, sum(start, 3)?, first))?;
        draft.push(fails(sqlstate::TOO_MANY_ROWS))?;
    }
    Ok(())
}

/// Each target's hidden slot takes its pick.
#[tactic(auto, using(crate::proofs::DraftRules::draft_rules))]
fn push_picks(
    alloc: Global,
    setting: &Setting<'_>,
    draft: &mut Draft,
    into: &Into<'_>,
) -> Result<(), NoMemory>
    ensures { OnOk result (draft.new
        ≡ taken setting.now.numbers into.now.targets.now into.now.query.now draft.old) }
{
    for _ in 0..into.targets.len() {
        let at = draft.place;
        let start = draft.here()?;
        let hidden = sum(setting.numbers.targets, at.targets)?;
        draft.begin(place(1, 1, 0, 0, 1), start)?;
        let pick = select_term(alloc, at.expr, into.query)?;
        draft.push(sets(hidden, pick, sum(start, 1)?))?;
    }
    Ok(())
}

#[tactic(auto, using(crate::proofs::DraftRules::draft_rules))]
fn push_put(
    alloc: Global,
    setting: &Setting<'_>,
    draft: &mut Draft,
    target: Option<u32>,
    hidden: u32,
    next: u32,
) -> Result<(), NoMemory>
    ensures { OnOk result (draft.new ≡ extended (spec.put_block setting.now.numbers
        setting.now.slots.now target hidden next (length draft.old.blocks)) draft.old) }
{
    match target {
        None => draft.push(jumps(false, next)),
        Some(slot) => {
            let term = copy(alloc, setting.numbers.fixed, hidden)?;
            let of = setting.slot(slot);
            push_slot(alloc, setting.numbers, draft, of, slot, term, next)
        }
    }
}

/// Each target is set from its hidden slot.
#[tactic(auto, using(crate::proofs::DraftRules::draft_rules))]
fn push_puts(
    alloc: Global,
    setting: &Setting<'_>,
    draft: &mut Draft,
    targets: &[(Name, Option<u32>)],
    first: u32,
    next: u32,
) -> Result<(), NoMemory>
    ensures { OnOk result (draft.new ≡ extended (spec.put_blocks setting.now.numbers
        setting.now.slots.now targets.now first next (length draft.old.blocks)) draft.old) }
{
    let mut hidden = first;
    for i in 0..targets.len() {
        let target = targets[i].1;
        let behind = sum(draft.here()?, put_many(setting, target))?;
        let then = first_of(targets.len() - (i + 1), behind, next);
        push_put(alloc, setting, draft, target, hidden, then)?;
        hidden = sum(hidden, 1)?;
    }
    Ok(())
}

/// The blocks of a statement and of its targets.
#[tactic(auto, using(crate::proofs::DraftRules::draft_rules))]
pub(crate) fn push_into(
    alloc: Global,
    setting: &Setting<'_>,
    draft: &mut Draft,
    into: &Into<'_>,
    next: u32,
) -> Result<(), NoMemory>
    ensures { OnOk result ((around : Around) → draft.new ≡ emitted
        (into_built setting.now.numbers setting.now.slots.now into.now.strict into.now.targets.now
        into.now.query.now) around next draft.old) }
{
    let at = draft.place;
    let start = draft.here()?;
    let picks = sum(start, check_many(into.strict))?;
    let first = first_of(into.targets.len(), picks, next);
    let begins = if into.strict { start } else { first };
    let hidden = sum(setting.numbers.targets, at.targets)?;
    draft.begin(place(1, checks(into.strict), 0, 0, 0), begins)?;
    push_checks(alloc, draft, into.strict, at.expr, into.query, first)?;
    push_picks(alloc, setting, draft, into)?;
    push_puts(alloc, setting, draft, into.targets, hidden, next)
}
