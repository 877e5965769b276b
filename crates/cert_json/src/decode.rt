//! What JSON spells, for numbers, types, pairs and lists.

ghost use Rattle.std.specs.Prelude.{Option};
ghost use Rattle.serde_json.specs.Data.{Data};
ghost use Rattle.serde_json.specs.View.{view};
ghost use Rattle.cert_json.specs.Given.{Gives};
ghost use Rattle.cert_json.specs.Spellings.{many, number_in, pair_in, type_in};

use crate::misfit::Misfit;
use crate::parts::{array, two, ty};
use away_values::Ty;
use serde_json::Value;
use sqlite_items::Items;
use std::alloc::Global;

/// What a JSON value may spell.
pub(crate) trait Decode {
    ghost spelled: { Data → Option Self };

    fn decode(alloc: Global, value: &Value) -> Result<Self, Misfit>
        ensures { Gives (λ x. x) result (spelled (view value.now)) };
}

impl Decode for u32 {
    ghost spelled = { number_in };

    fn decode(_alloc: Global, value: &Value) -> Result<u32, Misfit> {
        number(value)
    }
}

#[tactic(auto, unfolding(crate::specs::Spellings::number_in))]
pub(crate) fn number(value: &Value) -> Result<u32, Misfit>
    ensures { Gives (λ n. n) result (number_in (view value.now)) }
{
    let Some(n) = value.as_u64() else {
        return Err(Misfit::Shape);
    };
    match u32::try_from(n) {
        Ok(n) => Ok(n),
        Err(_) => Err(Misfit::Shape),
    }
}

impl Decode for (u32, u32) {
    ghost spelled = { pair_in };

    fn decode(_alloc: Global, value: &Value) -> Result<(u32, u32), Misfit> {
        pair(value)
    }
}

#[tactic(auto, unfolding(crate::specs::Spellings::pair_in))]
fn pair(value: &Value) -> Result<(u32, u32), Misfit>
    ensures { Gives (λ p. p) result (pair_in (view value.now)) }
{
    let (a, b) = two(value)?;
    Ok((number(a)?, number(b)?))
}

impl Decode for Ty {
    ghost spelled = { type_in };

    fn decode(_alloc: Global, value: &Value) -> Result<Ty, Misfit> {
        ty(value)
    }
}

impl<T: Decode + Drop> Decode for Items<T> {
    ghost spelled = { many T.Decode.spelled };

    fn decode(alloc: Global, value: &Value) -> Result<Items<T>, Misfit> {
        list(alloc, value)
    }
}

#[tactic(auto, unfolding(crate::specs::Spellings::many))]
fn list<T: Decode + Drop>(alloc: Global, value: &Value) -> Result<Items<T>, Misfit>
    ensures { Gives (λ xs. xs) result (many T.Decode.spelled (view value.now)) }
{
    let mut all = Items::new(alloc);
    for item in array(value)? {
        all.push(T::decode(alloc, item)?)?;
    }
    Ok(all)
}
