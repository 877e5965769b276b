//! What the query is made of.

ghost use Rattle.std.specs.Prelude.{◌≡◌, ◌∷◌, [], length, get_or, slice_get};
ghost use Rattle.call_forms.specs.Columned.{type_of_name, type_at};
ghost use Rattle.call_forms.specs.Forms as forms;
ghost use Rattle.call_forms.specs.Templated.{type_or_bigint};
ghost use Rattle.cte_template.specs.Making.{making};
ghost use Rattle.away_trees.specs.declared.queries.Expr.TheVariants as expr;

use away_trees::Expr;
use away_types::Slot;
use away_values::Ty;
use call_forms::{Anf, Tail};

/// The expressions by number, the slots, the slot of each name, the type of the result, the forms, and the types of what each row carries.
#[derive(Clone, Copy)]
pub(crate) struct Writer<'a> {
    pub table: &'a [Expr],
    pub slots: &'a [Slot],
    pub names: &'a [u32],
    pub result: Ty,
    pub anf: &'a Anf,
    pub tail: &'a Tail,
    pub carried: &'a [Ty],
}

/// The type of a name's slot; what has none is a bigint.
pub(crate) fn type_of(w: &Writer<'_>, name: u32) -> Ty
    ensures { result ≡ (making w.now).types name }
{
    match w.names.get(name as usize) {
        None => Ty::Bigint,
        Some(slot) => match w.slots.get(*slot as usize) {
            None => Ty::Bigint,
            Some(slot) => slot.ty,
        },
    }
}

/// The parameters of a block.
pub(crate) fn params_of<'a>(w: &Writer<'a>, block: usize) -> &'a [u32]
    ensures { result.now ≡ forms.params_of (slice_get w.now.anf.now.blocks block) }
{
    match w.anf.blocks.get(block) {
        None => &[],
        Some(x) => x.params.as_slice(),
    }
}

/// The places of a label, counted from 0.
#[tactic(auto, using(crate::proofs::PlaceRules::places_rules))]
pub(crate) fn places_at<'a>(w: &Writer<'a>, label: usize) -> &'a [u32]
    ensures { result.now ≡ get_or w.now.tail.now.places label [] }
{
    match w.tail.places.get(label) {
        None => &[],
        Some(places) => places.as_slice(),
    }
}

/// The label of a block, counted from 0.
pub(crate) fn label_of(w: &Writer<'_>, block: u32) -> Option<usize>
    ensures { result ≡ forms.label_of w.now.tail.now block }
{
    place_of(w.tail.labels.as_slice(), block)
}

fn place_of(labels: &[u32], block: u32) -> Option<usize>
    ensures { result ≡ forms.place_from 0 labels.now block }
{
    for i in 0..labels.len() {
        if labels[i] == block {
            return Some(i);
        }
    }
    None
}
