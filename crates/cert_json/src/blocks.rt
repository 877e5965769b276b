//! Blocks from JSON.

ghost use Rattle.serde_json.specs.View.{view};
ghost use Rattle.cert_json.specs.Given.{Gives};
ghost use Rattle.cert_json.specs.Blocks.{anf_block_in, block_in, phi_in, ssa_block_in};

use crate::decode::{Decode, number};
use crate::ends::{call_end, end, set};
use crate::misfit::Misfit;
use crate::parts::{four, three, truth, two};
use block_forms::{Block, Phi, SsaBlock};
use call_forms::AnfBlock;
use serde_json::Value;
use sqlite_items::Items;
use std::alloc::Global;

impl Decode for Block {
    ghost spelled = { block_in };

    fn decode(alloc: Global, value: &Value) -> Result<Block, Misfit> {
        block(alloc, value)
    }
}

#[tactic(auto, unfolding(crate::specs::Blocks::block_in))]
fn block(alloc: Global, value: &Value) -> Result<Block, Misfit>
    ensures { Gives (λ b. b) result (block_in (view value.now)) }
{
    let (head, assigned, ends) = three(value)?;
    let head = truth(head)?;
    let set = set(alloc, assigned)?;
    let end = end(alloc, ends)?;
    Ok(Block { head, set, end })
}

impl Decode for Phi {
    ghost spelled = { phi_in };

    fn decode(alloc: Global, value: &Value) -> Result<Phi, Misfit> {
        phi(alloc, value)
    }
}

#[tactic(auto, unfolding(crate::specs::Blocks::phi_in))]
fn phi(alloc: Global, value: &Value) -> Result<Phi, Misfit>
    ensures { Gives (λ p. p) result (phi_in (view value.now)) }
{
    let (name, operands) = two(value)?;
    let name = number(name)?;
    let operands = Items::<(u32, u32)>::decode(alloc, operands)?;
    Ok(Phi { name, operands })
}

impl Decode for SsaBlock {
    ghost spelled = { ssa_block_in };

    fn decode(alloc: Global, value: &Value) -> Result<SsaBlock, Misfit> {
        ssa_block(alloc, value)
    }
}

#[tactic(auto, unfolding(crate::specs::Blocks::ssa_block_in))]
fn ssa_block(alloc: Global, value: &Value) -> Result<SsaBlock, Misfit>
    ensures { Gives (λ b. b) result (ssa_block_in (view value.now)) }
{
    let (map, phis, assigned, ends) = four(value)?;
    let map = Items::<(u32, u32)>::decode(alloc, map)?;
    let phis = Items::<Phi>::decode(alloc, phis)?;
    let set = set(alloc, assigned)?;
    let end = end(alloc, ends)?;
    Ok(SsaBlock {
        map,
        phis,
        set,
        end,
    })
}

impl Decode for AnfBlock {
    ghost spelled = { anf_block_in };

    fn decode(alloc: Global, value: &Value) -> Result<AnfBlock, Misfit> {
        anf_block(alloc, value)
    }
}

#[tactic(auto, unfolding(crate::specs::Blocks::anf_block_in))]
fn anf_block(alloc: Global, value: &Value) -> Result<AnfBlock, Misfit>
    ensures { Gives (λ b. b) result (anf_block_in (view value.now)) }
{
    let (params, assigned, ends) = three(value)?;
    let params = Items::<u32>::decode(alloc, params)?;
    let set = set(alloc, assigned)?;
    let end = call_end(alloc, ends)?;
    Ok(AnfBlock { params, set, end })
}
