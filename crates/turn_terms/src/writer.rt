//! What a query of turns is written of.

ghost use Rattle.std.specs.Prelude.{◌≡◌};
ghost use Rattle.turn_terms.specs.Writing.{types_in};

use away_trees::Expr;
use away_types::Slot;
use away_values::Ty;

/// The expressions by number, the slots, the slot of each name, the type of the result, and the types of the columns behind `go` and `fn`; and whether
/// one label alone is called, so that a row that goes on is at it.
#[derive(Clone, Copy)]
pub struct Writer<'a> {
    pub table: &'a [Expr],
    pub slots: &'a [Slot],
    pub names: &'a [u32],
    pub result: Ty,
    pub columns: &'a [Ty],
    pub alone: bool,
}

/// The type of a name's slot; what has none is a bigint.
pub fn type_of(w: &Writer<'_>, name: u32) -> Ty
    ensures { result ≡ types_in w.now name }
{
    match w.names.get(name as usize) {
        None => Ty::Bigint,
        Some(slot) => match w.slots.get(*slot as usize) {
            None => Ty::Bigint,
            Some(slot) => slot.ty,
        },
    }
}
