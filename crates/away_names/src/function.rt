//! The functions of expressions.

ghost use Rattle.std.specs.Prelude.{◌≡◌};
ghost use Rattle.away_names.specs.Functions as spec;

use away_values::Name;

/// The functions that are known. The manual: 9.4, String Functions, 9.18, Conditional Expressions, and 9.21, Aggregate Functions.
#[derive(Clone, Copy, Debug, PartialEq, Eq)]
pub enum Known {
    Length,
    Substr,
    Coalesce,
    Greatest,
    Least,
    Count,
    Min,
    Max,
    Sum,
    BoolAnd,
    BoolOr,
}

/// The function of the name.
#[tactic(auto, unfolding(crate::specs::Functions::function))]
pub fn function(name: &Name) -> Option<Known>
    ensures { result ≡ spec.function name.now }
{
    let text = name.text();
    if "length" == text {
        Some(Known::Length)
    } else if "substr" == text {
        Some(Known::Substr)
    } else if "coalesce" == text {
        Some(Known::Coalesce)
    } else if "greatest" == text {
        Some(Known::Greatest)
    } else if "least" == text {
        Some(Known::Least)
    } else if "count" == text {
        Some(Known::Count)
    } else if "min" == text {
        Some(Known::Min)
    } else if "max" == text {
        Some(Known::Max)
    } else if "sum" == text {
        Some(Known::Sum)
    } else if "bool_and" == text {
        Some(Known::BoolAnd)
    } else if "bool_or" == text {
        Some(Known::BoolOr)
    } else {
        None
    }
}

/// The manual: 9.21, Aggregate Functions.
#[tactic(auto, unfolding(crate::specs::Functions::is_aggregate))]
pub fn is_aggregate(f: Known) -> bool
    ensures { result ≡ spec.is_aggregate f }
{
    match f {
        Known::Count | Known::Min | Known::Max | Known::Sum | Known::BoolAnd | Known::BoolOr => {
            true
        }
        Known::Length | Known::Substr | Known::Coalesce | Known::Greatest | Known::Least => false,
    }
}
