//! The blocks of what holds no statement: single statements, heads of loops, tests of arms and variables of blocks.

ghost use Rattle.std.specs.Prelude.{◌≡◌, ◌+◌, ℕ, false, IfOk, OnOk, length, slice_get};
ghost use Rattle.std.specs.Option.{option_copied};
ghost use Rattle.plsql_meaning.specs.Statements.{class_of};
ghost use Rattle.block_forms.specs.Laid.{a_node, with_expr};
ghost use Rattle.block_forms.specs.Laid as laid;
ghost use Rattle.block_forms.specs.Patterns as patterns;
ghost use Rattle.goto_lower.specs.Building as spec;
ghost use Rattle.goto_lower.specs.Drafts.{begun, pushed, set_by, headed, started};

use crate::assignments::{push_decls, push_slot};
use crate::classes::raised_class;
use crate::counts::decls_many;
use crate::draft::Draft;
use crate::setting::Setting;
use crate::shapes::{branches, fails, jumps, returns};
use crate::sizes::optional_size;
use crate::sums::{place, sum};
use crate::terms::source_term;
use away_trees::{Decl, Expr, Raised};
use away_values::NoMemory;
use block_forms::Position;
use std::alloc::Global;

/// Where a part of so many begins: at its first block, or where it is empty at what follows.
#[tactic(auto, using(crate::proofs::DraftRules::from_rules))]
pub(crate) fn first_of(many: usize, start: u32, next: u32) -> u32
    ensures { result ≡ spec.first_from many start next }
{
    if many == 0 { next } else { start }
}

/// Where what stands behind a part begins, in a row that ends before `end`.
#[tactic(auto, using(crate::proofs::DraftRules::from_rules))]
pub(crate) fn following(behind: u32, end: u32, next: u32) -> u32
    ensures { (k : ℕ) → end ≡ behind + k → result ≡ spec.first_from k behind next }
{
    if behind == end { next } else { behind }
}

/// Leaves a loop or a block, or begins a loop's next turn.
#[tactic(auto, using(crate::proofs::DraftRules::draft_rules))]
pub(crate) fn push_leave(
    alloc: Global,
    draft: &mut Draft,
    when: &Option<Expr>,
    to: u32,
    next: u32,
) -> Result<(), NoMemory>
    ensures { OnOk result (draft.new
        ≡ pushed (spec.leave_block when.now draft.old.place.expr to next)
        (begun (laid.place 1 (laid.one_if when.now) 0 0 0) (length draft.old.blocks) draft.old)) }
{
    let at = draft.place;
    let start = draft.here()?;
    draft.begin(optional_size(when), start)?;
    match when {
        None => draft.push(jumps(false, to)),
        Some(e) => draft.push(branches(false, source_term(alloc, at.expr, e)?, to, next)),
    }
}

#[tactic(auto, using(crate::proofs::DraftRules::draft_rules))]
pub(crate) fn push_jump(draft: &mut Draft, size: Position, next: u32) -> Result<(), NoMemory>
    ensures { OnOk result (draft.new
        ≡ pushed (patterns.jumps false next) (begun size (length draft.old.blocks) draft.old)) }
{
    let start = draft.here()?;
    draft.begin(size, start)?;
    draft.push(jumps(false, next))
}

#[tactic(auto, using(crate::proofs::DraftRules::draft_rules))]
pub(crate) fn push_return(alloc: Global, draft: &mut Draft, e: &Expr) -> Result<(), NoMemory>
    ensures { OnOk result (draft.new
        ≡ pushed (patterns.returns (patterns.source_term draft.old.place.expr e.now))
        (begun with_expr (length draft.old.blocks) draft.old)) }
{
    let at = draft.place;
    let start = draft.here()?;
    draft.begin(place(1, 1, 0, 0, 0), start)?;
    draft.push(returns(source_term(alloc, at.expr, e)?))
}

#[tactic(auto, using(crate::proofs::DraftRules::draft_rules))]
pub(crate) fn push_raise(alloc: Global, draft: &mut Draft, raised: &Raised) -> Result<(), NoMemory>
    ensures { OnOk result (draft.new ≡ pushed (patterns.fails (class_of raised.now))
        (begun a_node (length draft.old.blocks) draft.old)) }
{
    let start = draft.here()?;
    draft.begin(place(1, 0, 0, 0, 0), start)?;
    draft.push(fails(raised_class(alloc, raised)?))
}

#[tactic(auto, using(crate::proofs::DraftRules::draft_rules))]
pub(crate) fn push_assign(
    alloc: Global,
    setting: &Setting<'_>,
    draft: &mut Draft,
    slot: u32,
    e: &Expr,
    next: u32,
) -> Result<(), NoMemory>
    ensures { OnOk result (draft.new ≡ set_by setting.now.numbers
        (slice_get setting.now.slots.now slot) slot e.now next draft.old) }
{
    let at = draft.place;
    let start = draft.here()?;
    draft.begin(place(1, 1, 0, 0, 0), start)?;
    let term = source_term(alloc, at.expr, e)?;
    push_slot(
        alloc,
        setting.numbers,
        draft,
        setting.slot(slot),
        slot,
        term,
        next,
    )
}

/// The head of a LOOP or a WHILE, and the number of its block.
#[tactic(auto, using(crate::proofs::DraftRules::draft_rules))]
pub(crate) fn push_head(
    alloc: Global,
    draft: &mut Draft,
    test: Option<&Expr>,
    inside: u32,
    next: u32,
) -> Result<u32, NoMemory>
    ensures number { IfOk result (λ k. k ≡ length draft.old.blocks) }
    ensures pushed { IfOk result
        (λ k. draft.new ≡ headed (option_copied test.entry) inside next draft.old) }
{
    let at = draft.place;
    let start = draft.here()?;
    let first = first_of(inside as usize, sum(start, 1)?, start);
    match test {
        None => {
            draft.begin(place(1, 0, 0, 0, 0), start)?;
            draft.push(jumps(true, first))?;
        }
        Some(e) => {
            draft.begin(place(1, 1, 0, 0, 0), start)?;
            draft.push(branches(true, source_term(alloc, at.expr, e)?, first, next))?;
        }
    }
    Ok(start)
}

/// The branch of an arm, which goes on with the arm's statements or at the next arm.
#[tactic(auto, using(crate::proofs::DraftRules::draft_rules))]
pub(crate) fn push_test(
    alloc: Global,
    draft: &mut Draft,
    test: &Expr,
    first: u32,
    other: u32,
) -> Result<(), NoMemory>
    ensures { OnOk result (draft.new
        ≡ pushed (patterns.branches false
        (patterns.source_term draft.old.place.expr test.now) first other)
        (begun with_expr (length draft.old.blocks) draft.old)) }
{
    let at = draft.place;
    let start = draft.here()?;
    draft.begin(place(1, 1, 0, 0, 0), start)?;
    draft.push(branches(false, source_term(alloc, at.expr, test)?, first, other))
}

/// Begins a block, and sets its variables.
#[tactic(auto, using(crate::proofs::DraftRules::draft_rules))]
pub(crate) fn push_start(
    alloc: Global,
    setting: &Setting<'_>,
    draft: &mut Draft,
    decls: &[Decl],
    inside: u32,
    next: u32,
) -> Result<(), NoMemory>
    ensures { OnOk result (draft.new
        ≡ started setting.now.numbers decls.now inside next draft.old) }
{
    let start = draft.here()?;
    let many = decls_many(decls)?;
    let first = first_of(inside as usize, sum(start, many)?, next);
    draft.begin(place(1, 0, 0, 0, 0), first_of(many as usize, start, first))?;
    push_decls(alloc, setting.numbers, draft, decls, first)
}
