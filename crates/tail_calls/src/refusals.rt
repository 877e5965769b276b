//! Why a function that calls itself is refused.

use away_names::rule::Rule;
use away_values::NoMemory;
use thiserror::Error;

/// A self call stands elsewhere than as a whole RETURN, or the least rule that is broken.
#[derive(Clone, Copy, Debug, PartialEq, Eq, Error)]
pub enum SelfRefusal {
    #[error("a self call stands in a wrong place")]
    Place,
    #[error("rule X{} is broken", .0.number())]
    Rule(Rule),
    #[error("no memory was left")]
    NoMemory,
}

impl From<NoMemory> for SelfRefusal {
    ghost use Rattle.std.specs.Prelude.{◌≡◌};
    ghost use Rattle.tail_calls.specs.declared.refusals.SelfRefusal.TheVariants.{NoMemory};

    ghost from_gives = { λ _ e. e ≡ NoMemory };

    fn from(_error: NoMemory) -> SelfRefusal {
        SelfRefusal::NoMemory
    }
}

/// What of a function that is written exceeds a limit of those that are read.
#[derive(Clone, Copy, Debug, PartialEq, Eq)]
pub enum Grown {
    Nesting,
    Nodes,
    Variables,
    Loops,
    Bytes,
}

/// Why a function that was made isn't written.
#[derive(Clone, Copy, Debug, PartialEq, Eq, Error)]
pub enum WriteRefusal {
    #[error("{found} would be written, which is more than a limit allows")]
    Limit { which: Grown, found: u64 },
    #[error("no memory was left")]
    NoMemory,
}

impl From<NoMemory> for WriteRefusal {
    ghost use Rattle.std.specs.Prelude.{◌≡◌};
    ghost use Rattle.tail_calls.specs.declared.refusals.WriteRefusal.TheVariants.{NoMemory};

    ghost from_gives = { λ _ e. e ≡ NoMemory };

    fn from(_error: NoMemory) -> WriteRefusal {
        WriteRefusal::NoMemory
    }
}
