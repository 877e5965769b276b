//! The part of a form that is built.

ghost use Rattle.std.specs.Prelude.{◌≡◌, [], length, IfOk, OnOk};
ghost use Rattle.block_forms.specs.Laid.{nothing};
ghost use Rattle.goto_lower.specs.Drafts as spec;

use crate::sums::after;
use away_values::NoMemory;
use block_forms::{Block, Position};
use sqlite_items::Items;
use std::alloc::Global;

/// The blocks so far, the first block of each node so far, and the place behind them.
#[derive(Drop)]
pub(crate) struct Draft {
    pub(crate) nodes: Items<u32>,
    pub(crate) blocks: Items<Block>,
    pub(crate) place: Position,
}

impl Draft {
    /// The number of the next block.
    pub(crate) fn here(&self) -> Result<u32, NoMemory>
        ensures { IfOk result (λ k. k ≡ length self.now.blocks) }
    {
        match u32::try_from(self.blocks.len()) {
            Ok(k) => Ok(k),
            Err(_) => Err(NoMemory),
        }
    }

    /// Begins a node with so much in it, by its first block.
    #[tactic(auto, unfolding(crate::specs::Drafts::begun, crate::specs::Drafts::extended))]
    pub(crate) fn begin(&mut self, size: Position, first: u32) -> Result<(), NoMemory>
        ensures { OnOk result (self.new ≡ spec.begun size first self.old) }
    {
        self.place = after(self.place, size)?;
        self.nodes.push(first)?;
        Ok(())
    }

    #[tactic(auto, unfolding(crate::specs::Drafts::begun, crate::specs::Drafts::extended))]
    pub(crate) fn push(&mut self, block: Block) -> Result<(), NoMemory>
        ensures { OnOk result (self.new ≡ spec.pushed block self.old) }
    {
        self.blocks.push(block)?;
        Ok(())
    }
}
