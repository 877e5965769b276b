//! The types of expressions, for parts whose types are found.

ghost use Rattle.std.specs.Prelude.{◌≡◌, slice_get};
ghost use Rattle.std.specs.Option.{option_copied};
ghost use Rattle.away_typing.specs.Kinds as kinds;
ghost use Rattle.away_typing.specs.Typing as spec;
ghost use Rattle.away_typing.specs.TypingLists.{places};

use crate::kind::{
    Kind, are_integers, fits, is_number, is_right, meet, only_if, same, settled, sum_kind,
};
use crate::types::Places;
use away_names::function::Known;
use away_trees::Col;
use away_values::{ChainOp, IsTest, Ty};
use sqlite_items::Items;

// ---- expressions

#[tactic(auto, unfolding(crate::specs::Typing::kind_at))]
pub fn slot(i: u32, p: &Places<'_>) -> Kind
    ensures { result ≡ spec.kind_at (slice_get (places p.now).slots i) }
{
    match p.slots.get(i as usize) {
        None => Kind::Wrong,
        Some(t) => Kind::Of(*t),
    }
}

fn frame_at<'a>(p: &Places<'a>, level: usize) -> Option<&'a Items<Items<Ty>>>
    ensures { option_copied result ≡ slice_get (places p.now).frames level }
{
    p.frames.get(level).copied()
}

#[tactic(auto, unfolding(crate::specs::Typing::column, crate::specs::Typing::kind_at))]
pub fn column(c: Col, p: &Places<'_>) -> Kind
    ensures { result ≡ spec.column (places p.now).frames c }
{
    let Some(frame) = frame_at(p, c.level as usize) else {
        return Kind::Wrong;
    };
    let Some(item) = sqlite_items::at(frame.as_slice(), c.item as usize) else {
        return Kind::Wrong;
    };
    let Some(t) = sqlite_items::at(item.as_slice(), c.column as usize) else {
        return Kind::Wrong;
    };
    Kind::Of(*t)
}

/// The type of two operands. The manual: 9.1, 9.3 and 9.4; one operand of `||` at least is a text. An operation on integers alone has
/// 32 bits, and any other 64.
#[tactic(auto, unfolding(crate::specs::Typing::pair))]
pub fn pair(op: ChainOp, a: Kind, b: Kind) -> Kind
    ensures { result ≡ spec.pair op a b }
{
    match op {
        ChainOp::Or | ChainOp::And => only_if(
            fits(Ty::Boolean, a) && fits(Ty::Boolean, b),
            Kind::Of(Ty::Boolean),
        ),
        ChainOp::Concat => only_if(
            (fits(Ty::Text, a) || fits(Ty::Text, b)) && (is_right(a) && is_right(b)),
            Kind::Of(Ty::Text),
        ),
        ChainOp::Int(_) => only_if(
            is_number(a) && (is_number(b) && !are_integers(a, b)),
            Kind::Of(Ty::Bigint),
        ),
        ChainOp::Small(_) => only_if(are_integers(a, b), Kind::Of(Ty::Integer)),
    }
}

/// Whether a test fits. The manual: 9.2, Comparison Functions and Operators: IS TRUE and IS FALSE take a boolean.
#[tactic(auto, unfolding(crate::specs::Typing::passed))]
pub fn passed(test: IsTest, k: Kind) -> bool
    ensures { result ≡ spec.passed test k }
{
    match test {
        IsTest::Null => is_right(k),
        IsTest::True | IsTest::False => fits(Ty::Boolean, k),
    }
}

#[tactic(auto, unfolding(crate::specs::Typing::castable))]
fn castable(from: Ty, to: Ty) -> bool
    ensures { result ≡ spec.castable from to }
{
    match to {
        Ty::Text => true,
        Ty::Bigint => match from {
            Ty::Integer => true,
            _ => same(from, to),
        },
        Ty::Integer => match from {
            Ty::Bigint => true,
            _ => same(from, to),
        },
        Ty::Boolean => same(from, to),
    }
}

/// The manual: 4.2.9, Type Casts. Which casts there are is our own choice.
#[tactic(auto, unfolding(crate::specs::Typing::cast_kind))]
pub fn cast_kind(to: Ty, k: Kind) -> Kind
    ensures { result ≡ spec.cast_kind to k }
{
    match k {
        Kind::Null => Kind::Of(to),
        Kind::Sum => match to {
            Ty::Bigint => Kind::Of(Ty::Bigint),
            Ty::Boolean | Ty::Text | Ty::Integer => Kind::Wrong,
        },
        Kind::Wrong => Kind::Wrong,
        Kind::Of(from) => only_if(castable(from, to), Kind::Of(to)),
    }
}

/// The common type of several operands. The manual: 10.5, UNION, CASE, and Related Constructs.
pub fn common(list: &[Kind]) -> Kind
    ensures { result ≡ kinds.common list.now }
{
    let mut k = Kind::Null;
    for j in list {
        k = meet(k, *j);
    }
    k
}

pub fn kind_or_null(k: Option<Kind>) -> Kind
    ensures { result ≡ spec.kind_or_null k }
{
    match k {
        None => Kind::Null,
        Some(k) => k,
    }
}

#[tactic(auto, unfolding(crate::specs::Typing::is_ordered))]
fn is_ordered(k: Kind) -> bool
    ensures { result ≡ spec.is_ordered k }
{
    match k {
        Kind::Of(Ty::Boolean) => false,
        _ => is_right(k),
    }
}

#[tactic(auto, unfolding(crate::specs::Typing::call_kind))]
fn call_kind(f: Known, list: &[Kind]) -> Kind
    ensures { result ≡ spec.call_kind f list.now }
{
    match f {
        Known::Coalesce | Known::Greatest | Known::Least => settled(common(list)),
        Known::Length => match list {
            [a] => only_if(fits(Ty::Text, *a), Kind::Of(Ty::Integer)),
            _ => Kind::Wrong,
        },
        Known::Substr => match list {
            [a, b, c] => only_if(
                fits(Ty::Text, *a) && (is_number(*b) && is_number(*c)),
                Kind::Of(Ty::Text),
            ),
            _ => Kind::Wrong,
        },
        Known::Count => match list {
            [a] => only_if(is_right(*a), Kind::Of(Ty::Bigint)),
            _ => Kind::Wrong,
        },
        Known::BoolAnd | Known::BoolOr => match list {
            [a] => only_if(fits(Ty::Boolean, *a), Kind::Of(Ty::Boolean)),
            _ => Kind::Wrong,
        },
        Known::Min | Known::Max => match list {
            [a] => only_if(is_ordered(*a), settled(*a)),
            _ => Kind::Wrong,
        },
        Known::Sum => match list {
            [a] => sum_kind(*a),
            _ => Kind::Wrong,
        },
    }
}

/// The manual: 9.4, 9.18 and 9.21. That `substr` takes bigints too is our own choice.
#[tactic(auto, unfolding(crate::specs::Typing::called))]
pub fn kind_of_call(f: Option<Known>, list: &[Kind]) -> Kind
    ensures { result ≡ spec.called f list.now }
{
    match f {
        None => Kind::Wrong,
        Some(f) => call_kind(f, list),
    }
}

/// The manual: 4.2.11, Scalar Subqueries: one column.
#[tactic(auto, unfolding(crate::specs::Typing::scalar_kind))]
pub fn scalar_kind(shape: &Option<Items<Ty>>) -> Kind
    ensures { result ≡ spec.scalar_kind shape.now }
{
    match shape {
        None => Kind::Wrong,
        Some(types) => match types.as_slice() {
            [t] => Kind::Of(*t),
            _ => Kind::Wrong,
        },
    }
}

/// The manual: 9.23.1, EXISTS.
#[tactic(auto, unfolding(crate::specs::Typing::exists_kind, crate::specs::Kinds::only_if))]
pub fn exists_kind(shape: &Option<Items<Ty>>) -> Kind
    ensures { result ≡ spec.exists_kind shape.now }
{
    match shape {
        None => Kind::Wrong,
        Some(_) => Kind::Of(Ty::Boolean),
    }
}
