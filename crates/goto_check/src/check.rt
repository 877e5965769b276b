//! The check of the relation.

ghost use Rattle.std.specs.Prelude.{◌≡◌, ◌↔◌, IsTrue, ◌+◌, ◌*◌, ◌<◌, ◌^◌, length};
ghost use Rattle.block_forms.specs.Laid.{laid};
ghost use Rattle.block_forms.specs.Lowered.{Lowered};

use crate::asking::{Asking, Question};
use crate::below::{no_way_to, slots_below};
use crate::once::each_once;
use crate::parameters::ask_function;
use crate::runs::is_empty;
use crate::sizes::size_of;
use away_trees::{Function, node_count};
use away_types::{CheckedFunction, Slot};
use block_forms::Goto;

fn nodes_given(g: &Goto) -> usize
    ensures value { result ≡ length g.now.nodes }
    ensures few { 4 * result < 2 ^ 63 }
{
    g.nodes.as_slice().len()
}

/// Whether a function has so many nodes.
#[tactic(auto, using(crate::proofs::NodeCounts::nodes_are))]
fn has_nodes(f: &Function, many: usize) -> bool
    ensures { IsTrue result ↔ (many ≡ length f.now.params + (laid f.now.body).size.node) }
{
    match node_count(f) {
        None => false,
        Some(nodes) => nodes == many as u64,
    }
}

#[tactic(auto, using(crate::proofs::NodeCounts::whole_room, crate::proofs::NodeCounts::body_small))]
pub(crate) fn is_lowered(f: &Function, slots: &[Slot], g: &Goto) -> bool
    ensures { IsTrue result ↔ Lowered f.now slots.now g.now }
{
    if !has_nodes(f, nodes_given(g)) {
        return false;
    }
    let size = size_of(&f.body);
    let counters = f.params.len() + size.slot;
    let asking = Asking {
        goto: g,
        slots,
        fixed: size.expr,
        counters,
        targets: counters + 3 * size.fors,
        question: Question::Fails,
    };
    let fails = ask_function(&asking, f);
    is_empty(fails)
        & each_once(&asking, f)
        & no_way_to(g.entry as usize, g.blocks.as_slice())
        & slots_below(g.blocks.as_slice(), slots.len())
}

/// Whether a goto form is that of a checked function.
pub fn check_lowered(f: &CheckedFunction, g: &Goto) -> bool
    ensures exact { IsTrue result ↔ Lowered f.now.function f.now.slots g.now }
{
    is_lowered(&f.function, f.slots.as_slice(), g)
}
