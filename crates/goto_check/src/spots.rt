//! Where a statement stands in its function.

ghost use Rattle.std.specs.Prelude.{◌≡◌};
ghost use Rattle.block_forms.specs.Laid.{after, place};
ghost use Rattle.goto_check.specs.Room.{here, Small};

/// How many nodes, source expressions, variables, FOR loops and targets of SELECT INTO stand before a statement, or in it.
#[derive(Clone, Copy)]
pub(crate) struct Spot {
    pub(crate) node: usize,
    pub(crate) expr: usize,
    pub(crate) slot: usize,
    pub(crate) fors: usize,
    pub(crate) targets: usize,
}

pub(crate) fn spot_of(node: usize, expr: usize, slot: usize, fors: usize, targets: usize) -> Spot
    ensures { here result ≡ place node expr slot fors targets }
{
    Spot {
        node,
        expr,
        slot,
        fors,
        targets,
    }
}

/// What stands before, and what stands in it, together.
pub(crate) fn after(p: Spot, q: Spot) -> Spot
    requires { Small (after (here p) (here q)) }
    ensures { here result ≡ after (here p) (here q) }
{
    Spot {
        node: p.node + q.node,
        expr: p.expr + q.expr,
        slot: p.slot + q.slot,
        fors: p.fors + q.fors,
        targets: p.targets + q.targets,
    }
}
