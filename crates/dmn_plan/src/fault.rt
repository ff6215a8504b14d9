//! Why a model or a task is refused.
ghost use Rattle.std.specs.Prelude.{◌≡◌};
ghost use Rattle.dmn_plan.specs.declared.fault.ModelFault.TheVariants as model_fault;
ghost use Rattle.dmn_plan.specs.Parts.{fault_of};
ghost use Rattle.dmn_plan.specs.declared.fault.TaskFault.TheVariants as task_fault;

use dmn_logic::LogicFault;
use std::alloc::AllocError;
use thiserror::Error;

/// Why a model is refused: the first of these that applies, but for `Memory`, which comes only where a request for memory was
/// refused.
#[derive(Clone, Copy, Debug, PartialEq, Eq, Error)]
pub enum ModelFault {
    /// The bytes are no text in UTF-8, or no JSON.
    #[error("no JSON text")]
    Syntax,
    /// The JSON value has not the form of a model in its keys and kinds, or nests over 127 deep.
    #[error("not the form of a model")]
    Shape,
    /// A text in the place of a name is no name.
    #[error("a name is not lawful")]
    Name,
    /// A name stands twice: among inputs and decisions together, among services, in the needs of a decision, in a list of a
    /// service, among the entries of a context or the outputs of a table.
    #[error("a name stands twice")]
    Twice,
    /// A FEEL text has no reading of its kind: expression, unary tests or literal.
    #[error("a text has no reading")]
    Expression,
    /// A decision table is refused: its hit policy, its columns or its operator.
    #[error("a decision table is refused")]
    Table,
    /// A needed name is neither an input nor a decision.
    #[error("a needed name is unknown")]
    Unknown,
    /// A decision needs itself, directly or through others.
    #[error("a decision needs itself")]
    Cycle,
    /// A service has no output, lists what is no decision or no input, lists an input decision also as output or encapsulated, or
    /// reaches a decision or an input that it doesn't list.
    #[error("a service doesn't fit the decisions")]
    Service,
    /// There are more than 1,000 decisions.
    #[error("too many decisions")]
    Large,
    /// A request for memory was refused.
    #[error("out of memory")]
    Memory,
}

impl From<AllocError> for ModelFault {
    ghost from_gives = { λ _ e. e ≡ model_fault.Memory };

    fn from(_error: AllocError) -> ModelFault {
        ModelFault::Memory
    }
}

impl From<LogicFault> for ModelFault {
    ghost from_gives = { λ f e. e ≡ fault_of f };

    fn from(fault: LogicFault) -> ModelFault {
        match fault {
            LogicFault::Expression => ModelFault::Expression,
            LogicFault::Table => ModelFault::Table,
            LogicFault::Memory => ModelFault::Memory,
        }
    }
}

/// Why a task is refused: the first of these that applies, but for `Memory`, which comes only where a request for memory was
/// refused.
#[derive(Clone, Copy, Debug, PartialEq, Eq, Error)]
pub enum TaskFault {
    /// The model has no service of this name.
    #[error("the model has no such service")]
    Service,
    /// The inputs are no object, or a value that the service takes holds a number that is no whole number in range, or is too
    /// large or too deep.
    #[error("the inputs are no object, or an input is no value")]
    Value,
    /// A request for memory was refused.
    #[error("out of memory")]
    Memory,
}

impl From<AllocError> for TaskFault {
    ghost from_gives = { λ _ e. e ≡ task_fault.Memory };

    fn from(_error: AllocError) -> TaskFault {
        TaskFault::Memory
    }
}
