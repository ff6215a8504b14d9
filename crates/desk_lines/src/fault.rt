//! Why the front stops.
ghost use Rattle.std.specs.Prelude.{◌≡◌};
ghost use Rattle.desk_lines.specs.Fault.{fault_word};

use std::alloc::AllocError;
use thiserror::Error;

/// Why the front stops before the end of its input.
#[derive(Clone, Copy, Debug, PartialEq, Eq, Error)]
pub enum FrontFault {
    /// The reader failed.
    #[error("the input can't be read")]
    Read,
    /// The writer failed.
    #[error("the output can't be written")]
    Write,
    /// More than 2^40 bytes came.
    #[error("the input is longer than 2^40 bytes")]
    Long,
    /// The front found no memory for itself.
    #[error("out of memory")]
    Memory,
}

impl FrontFault {
    /// The one word that the program says of the fault on standard error.
    pub fn word(&self) -> &str
        ensures { result.now ≡ fault_word self.now }
    {
        match self {
            FrontFault::Read => "read",
            FrontFault::Write => "write",
            FrontFault::Long => "long",
            FrontFault::Memory => "memory",
        }
    }
}

impl From<AllocError> for FrontFault {
    ghost use Rattle.desk_lines.specs.declared.fault.FrontFault.{FrontFault};

    ghost from_gives = { λ _ r. r ≡ FrontFault.Memory };

    fn from(_: AllocError) -> Self {
        FrontFault::Memory
    }
}
