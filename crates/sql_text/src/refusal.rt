//! Why no tree was read.

use away_values::NoMemory;
use std::alloc::AllocError;
use thiserror::Error;

/// Why no tree was read from tokens.
#[derive(Clone, Copy, Debug, Error)]
pub enum Refusal {
    /// No tree reads the tokens.
    #[error("no tree reads the tokens")]
    NoTree,
    /// No memory was left.
    #[error("no memory was left")]
    NoMemory,
}

impl From<AllocError> for Refusal {
    ghost use Rattle.std.specs.Prelude.{◌≡◌};
    ghost use Rattle.sql_text.specs.declared.refusal.Refusal.TheVariants.{NoMemory};

    ghost from_gives = { λ _ e. e ≡ NoMemory };

    fn from(_error: AllocError) -> Refusal {
        Refusal::NoMemory
    }
}

impl From<NoMemory> for Refusal {
    ghost use Rattle.std.specs.Prelude.{◌≡◌};
    ghost use Rattle.sql_text.specs.declared.refusal.Refusal.TheVariants.{NoMemory};

    ghost from_gives = { λ _ e. e ≡ NoMemory };

    fn from(_error: NoMemory) -> Refusal {
        Refusal::NoMemory
    }
}
