//! What the patterns of a statement without statements inside ask.

ghost use Rattle.std.specs.Prelude.{◌≡◌, ◌+◌, ◌≤◌, ◌^◌, [], ◌∷◌};
ghost use Rattle.block_forms.specs.FixedList.{many};
ghost use Rattle.block_forms.specs.Laid as l;
ghost use Rattle.block_forms.specs.Patterns as form;
ghost use Rattle.plsql_meaning.specs.Statements as meaning;
ghost use Rattle.block_forms.specs.Laid.{after, decls_size, decls_parts};
ghost use Rattle.goto_check.specs.Asking.{numbers_in, setting_in};
ghost use Rattle.goto_check.specs.AnswerRuns.{answer_run};
ghost use Rattle.goto_check.specs.Room.{here, Room};
ghost use Rattle.goto_check.specs.Wanted.{wanted};

use crate::asking::{Asking, ask_own, ask_shared};
use crate::classes::class_of;
use crate::patterns::{ask_slot, null_of, slot_at, source_term};
use crate::read::node;
use crate::runs::{Run, join};
use crate::shapes::{Shape, Wanted};
use crate::sizes::decl_size;
use crate::spots::{Spot, after};
use away_trees::{Decl, Expr, Raised};
use away_values::Ty;

/// The first block of so many nodes, or what follows where there is none.
pub(crate) fn first_block(a: &Asking<'_>, many: usize, i: usize, next: usize) -> usize
    ensures { result ≡ l.first_block (setting_in a.now) many i next }
{
    if many == 0 { next } else { node(a.goto, i) }
}

fn default_term<'a>(a: &Asking<'_>, default: &'a Option<Expr>, ty: Ty, expr: usize) -> Wanted<'a>
    requires { a.now.fixed + many ≤ 2 ^ 64 }
    ensures { wanted result ≡ l.default_term (setting_in a.now) default.now ty expr }
{
    match default {
        None => null_of(a.fixed, ty),
        Some(e) => source_term(expr, e),
    }
}

fn ask_decl(a: &Asking<'_>, d: &Decl, p: Spot, next: usize) -> Run
    requires { Room (numbers_in a.now) (here p) }
    ensures { result ≡ answer_run a.now (l.decl_parts (setting_in a.now) d.now (here p) next) }
{
    let default = default_term(a, &d.default, d.ty, p.expr);
    ask_slot(
        a,
        slot_at(a.slots, p.slot),
        node(a.goto, p.node),
        p.slot,
        &default,
        next,
    )
}

#[tactic(auto, using(crate::proofs::AnswerRules::answer_rules, crate::proofs::Rooms::room_rules))]
pub(crate) fn ask_decls(a: &Asking<'_>, decls: &[Decl], p: Spot, next: usize) -> Run
    requires { Room (numbers_in a.now) (after (here p) (decls_size decls.now)) }
    ensures { result ≡ answer_run a.now (decls_parts (setting_in a.now) decls.now (here p) next) }
{
    match decls {
        [] => Run::Empty,
        [d, rest @ ..] => join(
            ask_decl(a, d, p, first_block(a, rest.len(), p.node + 1, next)),
            ask_decls(a, rest, after(p, decl_size(d)), next),
        ),
    }
}

pub(crate) fn ask_assign(a: &Asking<'_>, slot: Option<u32>, e: &Expr, p: Spot, next: usize) -> Run
    requires { Room (numbers_in a.now) (here p) }
    ensures { result ≡ answer_run a.now
        (l.assign_parts (setting_in a.now) slot e.now (here p) next) }
{
    match slot {
        None => ask_own(a, node(a.goto, p.node), &Shape::Jump(false, next)),
        Some(slot) => {
            let slot = slot as usize;
            let term = source_term(p.expr, e);
            ask_slot(
                a,
                slot_at(a.slots, slot),
                node(a.goto, p.node),
                slot,
                &term,
                next,
            )
        }
    }
}

pub(crate) fn ask_return(a: &Asking<'_>, e: &Expr, p: Spot) -> Run
    ensures { result ≡ answer_run a.now (form.own (form.node a.now.goto.now p.node)
        (form.returns (form.source_term p.expr e.now)) ∷ []) }
{
    let term = source_term(p.expr, e);
    ask_own(a, node(a.goto, p.node), &Shape::Return(&term))
}

pub(crate) fn ask_raise(a: &Asking<'_>, raised: &Raised, p: Spot) -> Run
    ensures { result ≡ answer_run a.now (form.shared (form.node a.now.goto.now p.node)
        (form.fails (meaning.class_of raised.now)) ∷ []) }
{
    ask_shared(a, node(a.goto, p.node), &Shape::Fail(class_of(raised)))
}
