//! Certificates as bytes.

ghost use Rattle.std.specs.Prelude.{◌≡◌, IfOk, Ok, Some};
ghost use Rattle.std.specs.List.{AllByRecursion};
ghost use Rattle.serde_json.specs.View.{view};
ghost use Rattle.serde_json.specs.Written.{compact_text};
ghost use Rattle.cert_json.specs.Certificates.{Reads, anf_in, cert_in, goto_in, ssa_in};
ghost use Rattle.cert_json.specs.Lines.{IsLine};
ghost use Rattle.call_forms.specs.Writable.{CallEndHasCode, EndHasCode, HasSpelling};
ghost use Rattle.cert_json.specs.Written.{anf_data, cert_data, goto_data, ssa_data};

use crate::cert::Cert;
use crate::encode::{Encode, lists, number, numbers, types};
use away_values::NoMemory;
use block_forms::{Goto, Ssa};
use call_forms::Anf;
use serde_json::{Value, json};
use std::alloc::{AllocError, Global};

#[tactic(auto, using(crate::proofs::FormsAgain::goto_again), unfolding(crate::specs::Written::goto_data))]
fn goto(alloc: Global, goto: &Goto) -> Result<Value, AllocError>
    ensures value { IfOk result (λ v. view v ≡ goto_data goto.now) }
    ensures reads { IfOk result (λ _. AllByRecursion (λ b. EndHasCode b.end) goto.now.blocks
        → goto_in (Some (goto_data goto.now)) ≡ Ok goto.now) }
{
    let nodes = numbers(alloc, &goto.nodes)?;
    let blocks = goto.blocks.encode(alloc)?;
    let entry = number(goto.entry);
    let finish = number(goto.finish);
    json!(in alloc; {"blocks": blocks, "end": finish, "entry": entry, "nodes": nodes})
}

#[tactic(auto, using(crate::proofs::FormsAgain::ssa_again), unfolding(crate::specs::Written::ssa_data))]
fn ssa(alloc: Global, ssa: &Ssa) -> Result<Value, AllocError>
    ensures value { IfOk result (λ v. view v ≡ ssa_data ssa.now) }
    ensures reads { IfOk result (λ _. AllByRecursion (λ b. EndHasCode b.end) ssa.now.blocks
        → ssa_in (Some (ssa_data ssa.now)) ≡ Ok ssa.now) }
{
    let names = numbers(alloc, &ssa.names)?;
    let blocks = ssa.blocks.encode(alloc)?;
    json!(in alloc; {"blocks": blocks, "names": names})
}

#[tactic(auto, using(crate::proofs::FormsAgain::anf_again), unfolding(crate::specs::Written::anf_data))]
fn anf(alloc: Global, anf: &Anf) -> Result<Value, AllocError>
    ensures value { IfOk result (λ v. view v ≡ anf_data anf.now) }
    ensures reads { IfOk result (λ _. AllByRecursion (λ b. CallEndHasCode b.end) anf.now.blocks
        → anf_in (Some (anf_data anf.now)) ≡ Ok anf.now) }
{
    let blocks = anf.blocks.encode(alloc)?;
    json!(in alloc; {"blocks": blocks})
}

#[tactic(auto, using(crate::proofs::FormsAgain::cert_again), unfolding(crate::specs::Written::cert_data))]
fn cert_value(alloc: Global, cert: &Cert) -> Result<Value, AllocError>
    ensures value { IfOk result (λ v. view v ≡ cert_data cert.now) }
    ensures reads { IfOk result
        (λ _. HasSpelling cert.now → cert_in (cert_data cert.now) ≡ Ok cert.now) }
{
    let anf = anf(alloc, &cert.anf)?;
    let columns = types(alloc, &cert.tail.columns)?;
    let goto = goto(alloc, &cert.goto)?;
    let labels = numbers(alloc, &cert.tail.labels)?;
    let places = lists(alloc, &cert.tail.places)?;
    let ssa = ssa(alloc, &cert.ssa)?;
    json!(in alloc; {"anf": anf, "columns": columns, "goto": goto, "labels": labels, "places": places, "ssa": ssa})
}

/// The text of a certificate: one line, without spaces. It reads as the certificate again, where each class is five digits or upper-case
/// letters.
#[tactic(auto, using(crate::proofs::Flat::cert_has_no_float, crate::proofs::Flat::cert_is_shallow, crate::proofs::OneLine::compact_text_is_line))]
pub fn write_cert(alloc: Global, cert: &Cert) -> Result<Vec<u8>, NoMemory>
    ensures text { IfOk result (λ bytes. bytes.items ≡ compact_text (cert_data cert.now)) }
    ensures line { IfOk result (λ bytes. IsLine bytes.items) }
    ensures reads { IfOk result (λ bytes. HasSpelling cert.now → Reads bytes.items cert.now) }
{
    Ok(cert_value(alloc, cert)?.to_vec(alloc)?)
}
