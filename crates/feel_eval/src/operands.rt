//! The operands of an expression.
ghost use Rattle.std.specs.Prelude.{◌≡◌, IfOk};
ghost use Rattle.feel_value.specs.View.{datum_of};
ghost use Rattle.feel_eval.specs.Operands.{operand_value, outcome_of};

use feel_value::{Feel, Outcome, Part, Value};
use std::alloc::AllocError;

// The value of an operand. One that lies in the expression or in the environment is looked at where it lies, and not copied.
#[derive(Drop)]
pub(crate) enum Operand<'a> {
    Lent(Part<'a>),
    Formed(Feel),
}

/// Two operands, the left one first. None stands for one that breaks a limit.
pub(crate) type Operands<'a> = (Option<Operand<'a>>, Option<Operand<'a>>);

impl Operand<'_> {
    pub(crate) fn value(&self) -> &Value
        ensures { datum_of result.now ≡ operand_value self.now }
    {
        match self {
            Operand::Lent(part) => part.value(),
            Operand::Formed(value) => value.value(),
        }
    }
}

// What was formed, as an operand. None stands for a limit that is broken.
pub(crate) fn formed<'a>(outcome: Outcome) -> Option<Operand<'a>>
    ensures { outcome_of result ≡ outcome }
{
    match outcome {
        Outcome::Is(value) => Some(Operand::Formed(value)),
        Outcome::Limit => None,
    }
}

// The outcome that an operand is. What is lent is copied.
pub(crate) fn kept(operand: Option<Operand<'_>>) -> Result<Outcome, AllocError>
    ensures { IfOk result (λ o. o ≡ outcome_of operand.entry) }
{
    match operand {
        Some(Operand::Lent(part)) => Ok(Outcome::Is(part.try_clone()?)),
        Some(Operand::Formed(value)) => Ok(Outcome::Is(value)),
        None => Ok(Outcome::Limit),
    }
}
