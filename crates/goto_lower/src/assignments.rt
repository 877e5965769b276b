//! Blocks that set slots.

ghost use Rattle.std.specs.Prelude.{◌≡◌, IfOk, OnOk, length};
ghost use Rattle.std.specs.Option.{option_copied};
ghost use Rattle.block_forms.specs.declared.places.Numbers.{Numbers};
ghost use Rattle.goto_lower.specs.Building as spec;
ghost use Rattle.goto_lower.specs.Drafts.{extended, declared, all_declared};

use crate::counts::set_many;
use crate::draft::Draft;
use crate::own_blocks::first_of;
use crate::shapes::{branches, fails, sets};
use crate::sizes::decl_size;
use crate::sums::sum;
use crate::terms::{is_null, null_of, source_term};
use away_trees::{Decl, Expr};
use away_types::Slot;
use away_values::{NoMemory, Ty, sqlstate};
use block_forms::{Numbers, Term};
use std::alloc::Global;

/// What is set: a slot of a type, to a term.
#[derive(Drop)]
pub(crate) struct Target {
    pub(crate) ty: Ty,
    pub(crate) slot: u32,
    pub(crate) term: Term,
}

/// Sets a slot; where it is NOT NULL a test follows.
#[tactic(auto, using(crate::proofs::DraftRules::draft_rules))]
pub(crate) fn push_set(
    alloc: Global,
    numbers: Numbers,
    draft: &mut Draft,
    not_null: bool,
    target: Target,
    next: u32,
) -> Result<(), NoMemory>
    ensures { OnOk result (draft.new
        ≡ extended (spec.set_blocks numbers not_null target.ty target.slot target.term next
        (length draft.old.blocks)) draft.old) }
{
    let Target { ty, slot, term } = target;
    if not_null {
        let start = draft.here()?;
        let test = is_null(alloc, numbers.fixed, ty, slot)?;
        draft.push(sets(slot, term, sum(start, 1)?))?;
        draft.push(branches(false, test, sum(start, 2)?, next))?;
        draft.push(fails(sqlstate::NULL_VALUE_NOT_ALLOWED))
    } else {
        draft.push(sets(slot, term, next))
    }
}

/// Sets a slot that may be NOT NULL by its declaration.
#[tactic(auto, using(crate::proofs::DraftRules::draft_rules))]
pub(crate) fn push_slot(
    alloc: Global,
    numbers: Numbers,
    draft: &mut Draft,
    slot: Option<&Slot>,
    number: u32,
    term: Term,
    next: u32,
) -> Result<(), NoMemory>
    ensures { OnOk result (draft.new
        ≡ extended (spec.slot_blocks numbers (option_copied slot.entry) number term next
        (length draft.old.blocks)) draft.old) }
{
    let (not_null, ty) = match slot {
        None => (false, Ty::Bigint),
        Some(slot) => (slot.not_null, slot.ty),
    };
    let target = Target {
        ty,
        slot: number,
        term,
    };
    push_set(alloc, numbers, draft, not_null, target, next)
}

fn default_term(
    alloc: Global,
    numbers: Numbers,
    default: &Option<Expr>,
    ty: Ty,
    k: u32,
) -> Result<Term, NoMemory>
    ensures { IfOk result (λ t. t ≡ spec.default_of numbers default.now ty k) }
{
    match default {
        None => null_of(alloc, numbers.fixed, ty),
        Some(e) => source_term(alloc, k, e),
    }
}

#[tactic(auto, using(crate::proofs::DraftRules::draft_rules))]
fn push_decl(
    alloc: Global,
    numbers: Numbers,
    draft: &mut Draft,
    d: &Decl,
    next: u32,
) -> Result<(), NoMemory>
    ensures { OnOk result (draft.new ≡ declared numbers d.now next draft.old) }
{
    let at = draft.place;
    let start = draft.here()?;
    let target = Target {
        ty: d.ty,
        slot: at.slot,
        term: default_term(alloc, numbers, &d.default, d.ty, at.expr)?,
    };
    draft.begin(decl_size(d), start)?;
    push_set(alloc, numbers, draft, d.not_null, target, next)
}

/// Sets the variables of a block.
#[tactic(auto, using(crate::proofs::DraftRules::draft_rules))]
pub(crate) fn push_decls(
    alloc: Global,
    numbers: Numbers,
    draft: &mut Draft,
    decls: &[Decl],
    next: u32,
) -> Result<(), NoMemory>
    ensures { OnOk result (draft.new ≡ all_declared numbers decls.now next draft.old) }
{
    for i in 0..decls.len() {
        let d = &decls[i];
        let behind = sum(draft.here()?, set_many(d.not_null))?;
        let then = first_of(decls.len() - (i + 1), behind, next);
        push_decl(alloc, numbers, draft, d, then)?;
    }
    Ok(())
}
