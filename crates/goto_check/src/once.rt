//! Whether each block has one pattern, or is one that patterns may share.

ghost use Rattle.std.specs.Prelude.{◌≡◌, ◌↔◌, IsTrue, ◌<◌, length};
ghost use Rattle.std.specs.List.{range_with_len};
ghost use Rattle.block_forms.specs.Laid.{after, laid};
ghost use Rattle.block_forms.specs.Lowered.{EachOnce, owners, sharers, parts_in, body_place};
ghost use Rattle.goto_check.specs.Asking.{numbers_in, setting_in};
ghost use Rattle.goto_check.specs.Room.{Room};
ghost use Rattle.goto_check.specs.Runs.{run_of, repeated};
ghost use Rattle.goto_check.specs.AnswerRuns.{yes_numbers, blocks_in, IsOnce};

use crate::asking::{Asking, Question};
use crate::parameters::ask_function;
use crate::runs::{Run, is_empty, is_up_to};
use away_trees::Function;

/// What the parts of the function answer to another question.
#[tactic(auto, unfolding(crate::specs::AnswerRuns::answer_run))]
fn asked(a: &Asking<'_>, f: &Function, question: Question) -> Run
    requires { Room (numbers_in a.now) (after (body_place f.now) (laid f.now.body).size) }
    ensures { result ≡ run_of
        (yes_numbers a.now.goto.now.blocks question (parts_in (setting_in a.now) f.now)) }
{
    let asking = Asking {
        goto: a.goto,
        slots: a.slots,
        fixed: a.fixed,
        counters: a.counters,
        targets: a.targets,
        question,
    };
    ask_function(&asking, f)
}

/// The block, as often as parts have it as their own.
fn owners(a: &Asking<'_>, f: &Function, b: usize) -> Run
    requires { Room (numbers_in a.now) (after (body_place f.now) (laid f.now.body).size) }
    ensures { result ≡ repeated (owners b (parts_in (setting_in a.now) f.now)) b }
{
    asked(a, f, Question::Owns(b))
}

/// The block, as often as parts have it as one that they may share.
fn sharers(a: &Asking<'_>, f: &Function, b: usize) -> Run
    requires { Room (numbers_in a.now) (after (body_place f.now) (laid f.now.body).size) }
    ensures { result ≡ repeated (sharers b (parts_in (setting_in a.now) f.now)) b }
{
    asked(a, f, Question::Shares(b))
}

/// A block has one pattern, or is shared.
fn is_once(a: &Asking<'_>, f: &Function, b: usize) -> bool
    requires { Room (numbers_in a.now) (after (body_place f.now) (laid f.now.body).size) }
    ensures { IsTrue result ↔ IsOnce (parts_in (setting_in a.now) f.now) b }
{
    match owners(a, f, b) {
        Run::Empty => !is_empty(sharers(a, f, b)),
        Run::FromTo(_, _) => true,
        Run::Broken => false,
    }
}

/// Whether the blocks of the parts, in the order of the text, are all blocks, each once and in order: so `lower` numbers them.
fn is_in_order(a: &Asking<'_>, f: &Function) -> bool
    requires { Room (numbers_in a.now) (after (body_place f.now) (laid f.now.body).size) }
    ensures { IsTrue result ↔ (blocks_in (parts_in (setting_in a.now) f.now)
        ≡ range_with_len 0 (length a.now.goto.now.blocks)) }
{
    is_up_to(asked(a, f, Question::Which), a.goto.blocks.len())
}

/// Looks for each block through the whole function.
fn each_by_itself(a: &Asking<'_>, f: &Function) -> bool
    requires { Room (numbers_in a.now) (after (body_place f.now) (laid f.now.body).size) }
    ensures { IsTrue result ↔ EachOnce (parts_in (setting_in a.now) f.now) a.now.goto.now.blocks }
{
    for b in 0..a.goto.blocks.len() {
        if !is_once(a, f, b) {
            return false;
        }
    }
    true
}

/// In one walk where the blocks are in order, else in a walk or two for each block.
#[tactic(auto, using(crate::proofs::InOrder::in_order))]
pub(crate) fn each_once(a: &Asking<'_>, f: &Function) -> bool
    requires { Room (numbers_in a.now) (after (body_place f.now) (laid f.now.body).size) }
    ensures { IsTrue result ↔ EachOnce (parts_in (setting_in a.now) f.now) a.now.goto.now.blocks }
{
    is_in_order(a, f) || each_by_itself(a, f)
}
