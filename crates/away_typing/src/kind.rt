//! What the type of an expression is.

ghost use Rattle.std.specs.Prelude.{◌≡◌};
ghost use Rattle.away_typing.specs.Kinds as spec;

use away_values::Ty;

/// A type, or the literal NULL, which fits every type, or a sum of bigints, which asks for a cast to bigint, or no type.
/// PostgreSQL's sum of bigint is numeric (the manual: 9.21, Aggregate Functions); that it asks for a cast is our own choice.
#[derive(Clone, Copy, Debug, PartialEq, Eq)]
pub enum Kind {
    Null,
    Of(Ty),
    Sum,
    Wrong,
}

#[tactic(auto, unfolding(crate::specs::Kinds::same))]
pub fn same(a: Ty, b: Ty) -> bool
    ensures { result ≡ spec.same a b }
{
    match a {
        Ty::Bigint => matches!(b, Ty::Bigint),
        Ty::Boolean => matches!(b, Ty::Boolean),
        Ty::Text => matches!(b, Ty::Text),
        Ty::Integer => matches!(b, Ty::Integer),
    }
}

/// The common type of two types.
#[tactic(auto, unfolding(crate::specs::Kinds::meet_types))]
pub fn meet_types(t: Ty, u: Ty) -> Kind
    ensures { result ≡ spec.meet_types t u }
{
    match t {
        Ty::Bigint => match u {
            Ty::Integer => Kind::Of(Ty::Bigint),
            _ => only_if(same(t, u), Kind::Of(t)),
        },
        Ty::Integer => match u {
            Ty::Bigint => Kind::Of(Ty::Bigint),
            _ => only_if(same(t, u), Kind::Of(t)),
        },
        _ => only_if(same(t, u), Kind::Of(t)),
    }
}

/// The common type of two operands. The manual: 10.5, UNION, CASE, and Related Constructs.
#[tactic(auto, unfolding(crate::specs::Kinds::meet))]
pub fn meet(a: Kind, b: Kind) -> Kind
    ensures { result ≡ spec.meet a b }
{
    match a {
        Kind::Null => match b {
            Kind::Sum => Kind::Wrong,
            _ => b,
        },
        Kind::Sum | Kind::Wrong => Kind::Wrong,
        Kind::Of(t) => match b {
            Kind::Null => a,
            Kind::Sum | Kind::Wrong => Kind::Wrong,
            Kind::Of(u) => meet_types(t, u),
        },
    }
}

#[tactic(auto, unfolding(crate::specs::Kinds::fits))]
pub fn fits(ty: Ty, k: Kind) -> bool
    ensures { result ≡ spec.fits ty k }
{
    match k {
        Kind::Null => true,
        Kind::Of(t) => same(ty, t),
        Kind::Sum | Kind::Wrong => false,
    }
}

/// Bigint or integer.
#[tactic(auto, unfolding(crate::specs::Kinds::is_number))]
pub fn is_number(k: Kind) -> bool
    ensures { result ≡ spec.is_number k }
{
    match k {
        Kind::Null => true,
        Kind::Of(t) => matches!(t, Ty::Bigint | Ty::Integer),
        Kind::Sum | Kind::Wrong => false,
    }
}

#[tactic(auto, unfolding(crate::specs::Kinds::is_integer))]
pub fn is_integer(k: Kind) -> bool
    ensures { result ≡ spec.is_integer k }
{
    match k {
        Kind::Of(t) => matches!(t, Ty::Integer),
        Kind::Null | Kind::Sum | Kind::Wrong => false,
    }
}

/// Integers alone, of which one at least isn't the literal NULL.
#[tactic(auto, unfolding(crate::specs::Kinds::are_integers))]
pub fn are_integers(a: Kind, b: Kind) -> bool
    ensures { result ≡ spec.are_integers a b }
{
    match a {
        Kind::Of(Ty::Integer) => match b {
            Kind::Of(Ty::Integer) | Kind::Null => true,
            _ => false,
        },
        Kind::Null => match b {
            Kind::Of(Ty::Integer) => true,
            _ => false,
        },
        _ => false,
    }
}

/// The manual: 9.21, Aggregate Functions. PostgreSQL's sum of bigints is numeric.
#[tactic(auto, unfolding(crate::specs::Kinds::sum_kind))]
pub fn sum_kind(k: Kind) -> Kind
    ensures { result ≡ spec.sum_kind k }
{
    match k {
        Kind::Null => Kind::Of(Ty::Bigint),
        Kind::Of(t) => match t {
            Ty::Integer => Kind::Of(Ty::Bigint),
            Ty::Bigint => Kind::Sum,
            Ty::Boolean | Ty::Text => Kind::Wrong,
        },
        Kind::Sum | Kind::Wrong => Kind::Wrong,
    }
}

#[tactic(auto, unfolding(crate::specs::Kinds::is_right))]
pub fn is_right(k: Kind) -> bool
    ensures { result ≡ spec.is_right k }
{
    match k {
        Kind::Null | Kind::Of(_) => true,
        Kind::Sum | Kind::Wrong => false,
    }
}

#[tactic(auto, unfolding(crate::specs::Kinds::only_if))]
pub fn only_if(test: bool, k: Kind) -> Kind
    ensures { result ≡ spec.only_if test k }
{
    if test { k } else { Kind::Wrong }
}

/// NULL is text where nothing asks for a type. The manual: 10.5, UNION, CASE, and Related Constructs, and 10.6, SELECT Output Columns.
#[tactic(auto, unfolding(crate::specs::Kinds::settled))]
pub fn settled(k: Kind) -> Kind
    ensures { result ≡ spec.settled k }
{
    match k {
        Kind::Null => Kind::Of(Ty::Text),
        _ => k,
    }
}
