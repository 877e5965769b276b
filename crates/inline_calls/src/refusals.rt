//! Why the calls of a function in a query aren't replaced.

use away_names::rule::Rule;
use away_values::NoMemory;
use thiserror::Error;

/// The query's form, a call in a wrong place, the least rule that is broken, a function that may come to a fault of its own.
#[derive(Clone, Copy, Debug, PartialEq, Eq, Error)]
pub enum CallsRefusal {
    #[error("the query has another form")]
    Form,
    #[error("a call stands in a wrong place")]
    Place,
    #[error("rule X{} is broken", .0.number())]
    Rule(Rule),
    #[error("the function may come to a fault of its own")]
    Faults,
    #[error("no memory was left")]
    NoMemory,
}

impl From<NoMemory> for CallsRefusal {
    ghost use Rattle.std.specs.Prelude.{◌≡◌};
    ghost use Rattle.inline_calls.specs.declared.refusals.CallsRefusal.TheVariants.{NoMemory};

    ghost from_gives = { λ _ e. e ≡ NoMemory };

    fn from(_error: NoMemory) -> CallsRefusal {
        CallsRefusal::NoMemory
    }
}

/// Why the calls of a function in a query aren't replaced, or the nesting of what would be written, which is more than is read.
#[derive(Clone, Copy, Debug, PartialEq, Eq, Error)]
pub enum InlineRefusal {
    #[error("the query has another form")]
    Form,
    #[error("a call stands in a wrong place")]
    Place,
    #[error("rule X{} is broken", .0.number())]
    Rule(Rule),
    #[error("the function may come to a fault of its own")]
    Faults,
    #[error("the nesting would be {0}, which is more than a limit allows")]
    Nesting(u64),
    #[error("no memory was left")]
    NoMemory,
}

impl From<NoMemory> for InlineRefusal {
    ghost use Rattle.std.specs.Prelude.{◌≡◌};
    ghost use Rattle.inline_calls.specs.declared.refusals.InlineRefusal.TheVariants.{NoMemory};

    ghost from_gives = { λ _ e. e ≡ NoMemory };

    fn from(_error: NoMemory) -> InlineRefusal {
        InlineRefusal::NoMemory
    }
}
