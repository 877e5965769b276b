//! Certificates from bytes.

ghost use Rattle.std.specs.Prelude.{◌≡◌, IfOk, IfErr, option_map, option_and_then};
ghost use Rattle.serde_json.specs.Find.{get};
ghost use Rattle.serde_json.specs.View.{view};
ghost use Rattle.cert_json.specs.Given.{Tells};
ghost use Rattle.cert_json.specs.Certificates.{Reads, Refuses, anf_in, cert_in, goto_in, shaped, ssa_in, tail_in};

use crate::cert::{Cert, CertField, CertRefusal};
use crate::decode::Decode;
use crate::misfit::Misfit;
use away_values::Ty;
use block_forms::{Block, Goto, Ssa, SsaBlock};
use call_forms::{Anf, AnfBlock, Tail};
use serde_json::Value;
use sqlite_items::Items;
use std::alloc::Global;

/// What stands under a name in an object, where there is one.
fn member<'v>(parent: Option<&'v Value>, name: &str) -> Option<&'v Value>
    ensures { option_map (λ v. view v.now) result
        ≡ option_and_then (get name.now) (option_map (λ v. view v.now) parent.entry) }
{
    match parent {
        Some(value) => value.get(name),
        None => None,
    }
}

/// A field of its shape.
fn field<T: Decode>(alloc: Global, name: CertField, found: Option<&Value>) -> Result<T, CertRefusal>
    ensures { Tells result (shaped name T.Decode.spelled
        (option_map (λ v. view v.now) found.entry)) }
{
    let Some(value) = found else {
        return Err(CertRefusal::Field(name));
    };
    match T::decode(alloc, value) {
        Ok(shaped) => Ok(shaped),
        Err(Misfit::Shape) => Err(CertRefusal::Field(name)),
        Err(Misfit::NoMemory) => Err(CertRefusal::NoMemory),
    }
}

#[tactic(auto, unfolding(crate::specs::Certificates::goto_in))]
fn goto(alloc: Global, found: Option<&Value>) -> Result<Goto, CertRefusal>
    ensures { Tells result (goto_in (option_map (λ v. view v.now) found.entry)) }
{
    let entry = field::<u32>(alloc, CertField::GotoEntry, member(found, "entry"))?;
    let finish = field::<u32>(alloc, CertField::GotoEnd, member(found, "end"))?;
    let nodes = field::<Items<u32>>(alloc, CertField::GotoNodes, member(found, "nodes"))?;
    let blocks = field::<Items<Block>>(alloc, CertField::GotoBlocks, member(found, "blocks"))?;
    Ok(Goto {
        entry,
        finish,
        nodes,
        blocks,
    })
}

#[tactic(auto, unfolding(crate::specs::Certificates::ssa_in))]
fn ssa(alloc: Global, found: Option<&Value>) -> Result<Ssa, CertRefusal>
    ensures { Tells result (ssa_in (option_map (λ v. view v.now) found.entry)) }
{
    let names = field::<Items<u32>>(alloc, CertField::SsaNames, member(found, "names"))?;
    let blocks = field::<Items<SsaBlock>>(alloc, CertField::SsaBlocks, member(found, "blocks"))?;
    Ok(Ssa { names, blocks })
}

#[tactic(auto, unfolding(crate::specs::Certificates::anf_in))]
fn anf(alloc: Global, found: Option<&Value>) -> Result<Anf, CertRefusal>
    ensures { Tells result (anf_in (option_map (λ v. view v.now) found.entry)) }
{
    let blocks = field::<Items<AnfBlock>>(alloc, CertField::AnfBlocks, member(found, "blocks"))?;
    Ok(Anf { blocks })
}

#[tactic(auto, unfolding(crate::specs::Certificates::tail_in))]
fn tail(alloc: Global, value: &Value) -> Result<Tail, CertRefusal>
    ensures { Tells result (tail_in (view value.now)) }
{
    let labels = field::<Items<u32>>(alloc, CertField::Labels, value.get("labels"))?;
    let columns = field::<Items<Ty>>(alloc, CertField::Columns, value.get("columns"))?;
    let places = field::<Items<Items<u32>>>(alloc, CertField::Places, value.get("places"))?;
    Ok(Tail {
        labels,
        columns,
        places,
    })
}

/// The certificate that a JSON value is.
#[tactic(auto, unfolding(crate::specs::Certificates::cert_in))]
fn cert(alloc: Global, value: &Value) -> Result<Cert, CertRefusal>
    ensures { Tells result (cert_in (view value.now)) }
{
    let goto = goto(alloc, value.get("goto"))?;
    let ssa = ssa(alloc, value.get("ssa"))?;
    let anf = anf(alloc, value.get("anf"))?;
    let tail = tail(alloc, value)?;
    Ok(Cert {
        goto,
        ssa,
        anf,
        tail,
    })
}

/// The certificate that the bytes are the text of. They are read by `serde_json`, and the first field that hasn't its shape is told.
pub fn read_cert(alloc: Global, bytes: &[u8]) -> Result<Cert, CertRefusal>
    ensures cert { IfOk result (Reads bytes.now) }
    ensures refused { IfErr result (Refuses bytes.now) }
{
    match Value::from_slice(alloc, bytes) {
        Ok(value) => cert(alloc, &value),
        Err(error) => {
            if error.is_memory() {
                Err(CertRefusal::NoMemory)
            } else {
                Err(CertRefusal::NotJson)
            }
        }
    }
}
