//! Places of blocks, and what stands there.

ghost use Rattle.std.specs.Prelude.{◌≡◌, [], get_or, slice_get};
ghost use Rattle.call_forms.specs.Forms.{params_of, place_from};

use call_forms::{Anf, Tail};

/// The parameters of a block.
pub fn params_of<'a>(anf: &'a Anf, block: usize) -> &'a [u32]
    ensures { result.now ≡ params_of (slice_get anf.now.blocks block) }
{
    match anf.blocks.get(block) {
        None => &[],
        Some(x) => x.params.as_slice(),
    }
}

/// The places of a label, counted from 0.
#[tactic(auto, using(crate::proofs::PlaceRules::places_rules))]
pub fn places_at<'a>(tail: &'a Tail, label: usize) -> &'a [u32]
    ensures { result.now ≡ get_or tail.now.places label [] }
{
    match tail.places.get(label) {
        None => &[],
        Some(places) => places.as_slice(),
    }
}

/// The label of a block, counted from 0.
pub fn place_of(labels: &[u32], block: u32) -> Option<usize>
    ensures { result ≡ place_from 0 labels.now block }
{
    for i in 0..labels.len() {
        if labels[i] == block {
            return Some(i);
        }
    }
    None
}
