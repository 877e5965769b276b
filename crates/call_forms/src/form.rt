//! The forms with calls run.

ghost use Rattle.std.specs.Prelude.{length};
ghost use Rattle.call_forms.specs.NormalRuns.{anf_runs};
ghost use Rattle.call_forms.specs.TailRuns.{tail_runs};
ghost use Rattle.call_forms.specs.RunLaws.{anf_stays, tail_stays};

use crate::forms::{Anf, Tail};
use block_forms::Form;

/// The normal form.
#[derive(Clone, Copy)]
pub struct AnfForm<'a> {
    pub anf: &'a Anf,
}

impl<'a> Form for AnfForm<'a> {
    ghost run = { λ x frame args k. anf_runs frame x.anf.now args k };

    ghost blocks = { λ x. length x.anf.now.blocks };

    fn size(&self) -> u64 {
        self.anf.blocks.len() as u64
    }

    ghost stays = { λ x frame args. anf_stays frame x.anf.now args };
}

/// The tail form, with its normal form.
#[derive(Clone, Copy)]
pub struct TailForm<'a> {
    pub anf: &'a Anf,
    pub tail: &'a Tail,
}

impl<'a> Form for TailForm<'a> {
    ghost run = { λ x frame args k. tail_runs frame x.anf.now x.tail.now args k };

    ghost blocks = { λ x. length x.tail.now.labels };

    fn size(&self) -> u64 {
        self.tail.labels.len() as u64
    }

    ghost stays = { λ x frame args. tail_stays frame x.anf.now x.tail.now args };
}
