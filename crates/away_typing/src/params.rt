//! The parameters of a query.

ghost use Rattle.std.specs.Prelude.{◌≡◌, ◌≤◌, ◌++◌, ◌∷◌, IfOk};
ghost use Rattle.away_typing.specs.Parameters as spec;

use crate::kind::same;
use away_values::{NoMemory, Ty};
use sqlite_items::Items;
use std::alloc::Global;

/// The parameters so far, ascending by number, and whether one came with two types.
#[derive(Drop)]
pub struct Params {
    pub list: Items<(u32, Ty)>,
    pub clash: bool,
}

#[tactic(auto, unfolding(crate::specs::Parameters::no_params))]
pub fn no_params(alloc: Global) -> Params
    ensures { result ≡ spec.no_params }
{
    Params {
        list: Items::new(alloc),
        clash: false,
    }
}

fn clashes(x: (u32, Ty), list: &[(u32, Ty)]) -> bool
    ensures { result ≡ spec.clashes x list.now }
{
    for y in list {
        if x.0 == y.0 {
            return !same(x.1, y.1);
        }
    }
    false
}

fn extended(before: Items<(u32, Ty)>, more: &[(u32, Ty)]) -> Result<Items<(u32, Ty)>, NoMemory>
    ensures { IfOk result (λ all. all ≡ before ++ more.now) }
{
    let mut all = before;
    for y in more {
        all.push(*y)?;
    }
    Ok(all)
}

/// The list goes on behind those of smaller numbers.
fn placed(
    smaller: Items<(u32, Ty)>,
    x: (u32, Ty),
    y: (u32, Ty),
    more: &[(u32, Ty)],
) -> Result<Items<(u32, Ty)>, NoMemory>
    requires { x.0 ≤ y.0 }
    ensures { IfOk result (λ all. all ≡ smaller ++ spec.inserted x (y ∷ more.now)) }
{
    let mut all = smaller;
    if x.0 < y.0 {
        all.push(x)?;
    }
    all.push(y)?;
    extended(all, more)
}

fn inserted(alloc: Global, x: (u32, Ty), list: &[(u32, Ty)]) -> Result<Items<(u32, Ty)>, NoMemory>
    ensures { IfOk result (λ all. all ≡ spec.inserted x list.now) }
{
    let mut smaller = Items::new(alloc);
    let mut rest = list;
    while let [y, more @ ..] = rest {
        if x.0 <= y.0 {
            return placed(smaller, x, *y, more);
        }
        smaller.push(*y)?;
        rest = more;
    }
    smaller.push(x)?;
    Ok(smaller)
}

/// One more parameter.
#[tactic(auto, unfolding(crate::specs::Parameters::taken))]
pub fn taken(alloc: Global, params: Params, number: u32, ty: Ty) -> Result<Params, NoMemory>
    ensures { IfOk result (λ p. p ≡ spec.taken params (number, ty)) }
{
    let clash = params.clash || clashes((number, ty), params.list.as_slice());
    let list = inserted(alloc, (number, ty), params.list.as_slice())?;
    Ok(Params { list, clash })
}
