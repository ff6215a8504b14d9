//! Why a JSON value is no value.
ghost use Rattle.std.specs.Prelude.{◌≡◌};
ghost use Rattle.feel_value.specs.declared.fault.ValueFault.TheVariants.{Memory};

use std::alloc::{AllocError, AllocFailed};
use thiserror::Error;

/// Why a JSON value is no value. `Number` counts before `Size`; `Memory` comes only where a request for memory was refused.
#[derive(Clone, Copy, Debug, PartialEq, Eq, Error)]
pub enum ValueFault {
    /// Some number is no whole number in range.
    #[error("a number is no whole number in range")]
    Number,
    /// There are too many nodes, or they are too deep.
    #[error("the value is too large or too deep")]
    Size,
    /// A request for memory was refused.
    #[error("out of memory")]
    Memory,
}

impl From<AllocError> for ValueFault {
    ghost from_gives = { λ _ e. e ≡ Memory };

    fn from(_error: AllocError) -> ValueFault {
        ValueFault::Memory
    }
}

impl<T: Drop> From<AllocFailed<T>> for ValueFault {
    ghost from_gives = { λ _ e. e ≡ Memory };

    fn from(_error: AllocFailed<T>) -> ValueFault {
        ValueFault::Memory
    }
}
