//! Why the logic of decisions has no reading.
ghost use Rattle.std.specs.Prelude.{◌≡◌};
ghost use Rattle.dmn_logic.specs.declared.fault.LogicFault.TheVariants.{Memory};

use std::alloc::AllocError;
use thiserror::Error;

/// Why the logic of decisions has no reading. `Expression` counts before `Table`; `Memory` comes only where a request for memory
/// was refused.
#[derive(Clone, Copy, Debug, PartialEq, Eq, Error)]
pub enum LogicFault {
    /// A FEEL text of some decision has no reading of its kind: expression, unary tests or literal.
    #[error("a text has no reading")]
    Expression,
    /// A decision table of some decision is refused: its hit policy, its columns or its operator.
    #[error("a decision table is refused")]
    Table,
    /// A request for memory was refused.
    #[error("out of memory")]
    Memory,
}

impl From<AllocError> for LogicFault {
    ghost from_gives = { λ _ e. e ≡ Memory };

    fn from(_error: AllocError) -> LogicFault {
        LogicFault::Memory
    }
}
