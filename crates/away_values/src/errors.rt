//! Why a call gives no result.

use crate::values::Class;
use std::alloc::AllocError;
use thiserror::Error;

/// No memory was left.
#[derive(Clone, Copy, Debug, PartialEq, Eq, Error)]
#[error("no memory was left")]
pub struct NoMemory;

impl From<AllocError> for NoMemory {
    fn from(_error: AllocError) -> NoMemory {
        NoMemory
    }
}

/// The fault of an operator, or want of memory.
#[derive(Clone, Copy, Debug, PartialEq, Eq, Error)]
pub enum OpError {
    #[error("an operator fails with a class")]
    Class(Class),
    #[error("no memory was left")]
    NoMemory,
}

impl From<NoMemory> for OpError {
    ghost use Rattle.std.specs.Prelude.{◌≡◌};
    ghost use Rattle.away_values.specs.declared.errors.OpError.TheVariants.{NoMemory};

    ghost from_gives = { λ _ e. e ≡ NoMemory };

    fn from(_error: NoMemory) -> OpError {
        OpError::NoMemory
    }
}

impl From<AllocError> for OpError {
    ghost use Rattle.std.specs.Prelude.{◌≡◌};
    ghost use Rattle.away_values.specs.declared.errors.OpError.TheVariants.{NoMemory};

    ghost from_gives = { λ _ e. e ≡ NoMemory };

    fn from(_error: AllocError) -> OpError {
        OpError::NoMemory
    }
}
