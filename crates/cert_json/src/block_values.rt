//! JSON for blocks.

ghost use Rattle.std.specs.Prelude.{◌≡◌, IfOk, Some};
ghost use Rattle.serde_json.specs.View.{view};
ghost use Rattle.cert_json.specs.Blocks.{anf_block_in, block_in, phi_in, ssa_block_in};
ghost use Rattle.cert_json.specs.Spellings.{many};
ghost use Rattle.call_forms.specs.Writable.{CallEndHasCode, EndHasCode};
ghost use Rattle.cert_json.specs.Written.{anf_block_data, block_data, many_data, phi_data, ssa_block_data};

use crate::encode::{Encode, list, number, numbers, pairs};
use crate::end_values::{call_end, end, set};
use block_forms::{Block, Phi, SsaBlock};
use call_forms::AnfBlock;
use serde_json::Value;
use sqlite_items::Items;
use std::alloc::{AllocError, Global};

impl Encode for Block {
    ghost json = { block_data };

    ghost has_spelling = { λ b. EndHasCode b.end };

    fn encode(&self, alloc: Global) -> Result<Value, AllocError> {
        block_value(alloc, self)
    }
}

#[tactic(auto, using(crate::proofs::Again::block_again))]
fn block_value(alloc: Global, block: &Block) -> Result<Value, AllocError>
    ensures value { IfOk result (λ v. view v ≡ block_data block.now) }
    ensures reads { IfOk result (λ _. EndHasCode block.now.end
        → block_in (block_data block.now) ≡ Some block.now) }
{
    let set = set(alloc, &block.set)?;
    let end = end(alloc, &block.end)?;
    list(alloc, [Value::Bool(block.head), set, end])
}

impl Encode for Phi {
    ghost json = { phi_data };

    ghost has_spelling = { λ _. Unit {0} };

    fn encode(&self, alloc: Global) -> Result<Value, AllocError> {
        phi_value(alloc, self)
    }
}

#[tactic(auto, using(crate::proofs::Again::phi_again))]
fn phi_value(alloc: Global, phi: &Phi) -> Result<Value, AllocError>
    ensures value { IfOk result (λ v. view v ≡ phi_data phi.now) }
    ensures reads { IfOk result (λ _. phi_in (phi_data phi.now) ≡ Some phi.now) }
{
    let operands = pairs(alloc, &phi.operands)?;
    list(alloc, [number(phi.name), operands])
}

fn phis(alloc: Global, list: &Items<Phi>) -> Result<Value, AllocError>
    ensures value { IfOk result (λ v. view v ≡ many_data phi_data list.now) }
    ensures reads { IfOk result (λ _. many phi_in (many_data phi_data list.now) ≡ Some list.now) }
{
    list.encode(alloc)
}

impl Encode for SsaBlock {
    ghost json = { ssa_block_data };

    ghost has_spelling = { λ b. EndHasCode b.end };

    fn encode(&self, alloc: Global) -> Result<Value, AllocError> {
        ssa_block_value(alloc, self)
    }
}

#[tactic(auto, using(crate::proofs::Again::ssa_block_again))]
fn ssa_block_value(alloc: Global, block: &SsaBlock) -> Result<Value, AllocError>
    ensures value { IfOk result (λ v. view v ≡ ssa_block_data block.now) }
    ensures reads { IfOk result (λ _. EndHasCode block.now.end
        → ssa_block_in (ssa_block_data block.now) ≡ Some block.now) }
{
    let map = pairs(alloc, &block.map)?;
    let phis = phis(alloc, &block.phis)?;
    let set = set(alloc, &block.set)?;
    let end = end(alloc, &block.end)?;
    list(alloc, [map, phis, set, end])
}

impl Encode for AnfBlock {
    ghost json = { anf_block_data };

    ghost has_spelling = { λ b. CallEndHasCode b.end };

    fn encode(&self, alloc: Global) -> Result<Value, AllocError> {
        anf_block_value(alloc, self)
    }
}

#[tactic(auto, using(crate::proofs::Again::anf_block_again))]
fn anf_block_value(alloc: Global, block: &AnfBlock) -> Result<Value, AllocError>
    ensures value { IfOk result (λ v. view v ≡ anf_block_data block.now) }
    ensures reads { IfOk result (λ _. CallEndHasCode block.now.end
        → anf_block_in (anf_block_data block.now) ≡ Some block.now) }
{
    let params = numbers(alloc, &block.params)?;
    let set = set(alloc, &block.set)?;
    let end = call_end(alloc, &block.end)?;
    list(alloc, [params, set, end])
}
