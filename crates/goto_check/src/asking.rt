//! What is asked of the parts of the patterns, and what they answer.

ghost use Rattle.std.specs.Prelude.{◌≡◌, [], ◌∷◌};
ghost use Rattle.block_forms.specs.Patterns.{own, shared, same, never};
ghost use Rattle.goto_check.specs.AnswerRuns.{answer_run};
ghost use Rattle.goto_check.specs.Wanted.{shape};

use crate::runs::{Run, only};
use crate::shapes::{Shape, is_shape};
use crate::spots::Spot;
use away_types::Slot;
use block_forms::Goto;

/// What is asked of each part: whether it fails to stand, whether the block is its own, whether it may share the block, or which block it has.
#[derive(Clone, Copy)]
pub(crate) enum Question {
    Fails,
    Owns(usize),
    Shares(usize),
    Which,
}

/// A question about a form, with the function's slots, the first number of the fixed list and the first hidden slots of FORs and of targets.
#[derive(Clone, Copy)]
pub(crate) struct Asking<'a> {
    pub(crate) goto: &'a Goto,
    pub(crate) slots: &'a [Slot],
    pub(crate) fixed: usize,
    pub(crate) counters: usize,
    pub(crate) targets: usize,
    pub(crate) question: Question,
}

/// The numbers that the parts of a text answer, and where the text behind it begins.
#[derive(Clone, Copy)]
pub(crate) struct Answer {
    pub(crate) run: Run,
    pub(crate) end: Spot,
}

/// A part with a block of its own.
#[tactic(auto, using(crate::proofs::AnswerRules::one_part))]
pub(crate) fn ask_own(a: &Asking<'_>, at: usize, want: &Shape<'_>) -> Run
    ensures { result ≡ answer_run a.now (own at (shape want.now) ∷ []) }
{
    match a.question {
        Question::Fails => only(!is_shape(a.goto, at, want), at),
        Question::Owns(b) => only(at == b, at),
        Question::Shares(_) => Run::Empty,
        Question::Which => Run::FromTo(at, at),
    }
}

/// A part with a block that others may share.
#[tactic(auto, using(crate::proofs::AnswerRules::one_part))]
pub(crate) fn ask_shared(a: &Asking<'_>, at: usize, want: &Shape<'_>) -> Run
    ensures { result ≡ answer_run a.now (shared at (shape want.now) ∷ []) }
{
    match a.question {
        Question::Fails => only(!is_shape(a.goto, at, want), at),
        Question::Owns(_) => Run::Empty,
        Question::Shares(b) => only(at == b, at),
        Question::Which => Run::FromTo(at, at),
    }
}

/// Two blocks that are to be one.
#[tactic(auto, using(crate::proofs::AnswerRules::one_part))]
pub(crate) fn ask_same(a: &Asking<'_>, x: usize, y: usize) -> Run
    ensures { result ≡ answer_run a.now (same x y ∷ []) }
{
    match a.question {
        Question::Fails => only(x != y, x),
        Question::Owns(_) => Run::Empty,
        Question::Shares(_) => Run::Empty,
        Question::Which => Run::Empty,
    }
}

/// What no form has.
#[tactic(auto, using(crate::proofs::AnswerRules::one_part))]
pub(crate) fn ask_never(a: &Asking<'_>) -> Run
    ensures { result ≡ answer_run a.now (never ∷ []) }
{
    match a.question {
        Question::Fails => Run::FromTo(0, 0),
        Question::Owns(_) => Run::Empty,
        Question::Shares(_) => Run::Empty,
        Question::Which => Run::Empty,
    }
}
