//! Why functions are no program.

use away_names::rule::Rule;
use away_values::NoMemory;
use thiserror::Error;

/// A name that is taken, a call in a wrong place, recursion, the least rule that is broken, each with the number of the function.
#[derive(Clone, Copy, Debug, PartialEq, Eq, Error)]
pub enum ProgramRefusal {
    #[error("the name of function {0} is taken")]
    Names(u32),
    #[error("a call in function {0} stands in a wrong place")]
    Place(u32),
    #[error("function {0} reaches itself")]
    Recursion(u32),
    #[error("rule X{} is broken in function {}", .1.number(), .0)]
    Rule(u32, Rule),
    #[error("no memory was left")]
    NoMemory,
}

impl From<NoMemory> for ProgramRefusal {
    ghost use Rattle.std.specs.Prelude.{◌≡◌};
    ghost use Rattle.program_check.specs.declared.refusals.ProgramRefusal.TheVariants.{NoMemory};

    ghost from_gives = { λ _ e. e ≡ NoMemory };

    fn from(_error: NoMemory) -> ProgramRefusal {
        ProgramRefusal::NoMemory
    }
}
