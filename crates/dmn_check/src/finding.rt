//! What is wrong, and where.
ghost use Rattle.std.specs.Prelude.{◌≡◌};
ghost use Rattle.dmn_check.specs.FaultOf.{fault_of};

use crate::place::Place;
use dmn_plan::ModelFault;
use dmn_table::TableFault;

/// What a FEEL text was to be.
#[derive(Clone, Copy, Debug, PartialEq, Eq)]
pub enum TextKind {
    /// An expression.
    Expression,
    /// The unary tests of an input entry.
    UnaryTests,
    /// The literal of an output value.
    Literal,
}

/// Why a decision service doesn't fit the decisions: the first of these that applies.
#[derive(Clone, Copy, Debug, PartialEq, Eq)]
pub enum ServiceFault {
    /// It has no output.
    NoOutput,
    /// An output, an encapsulated decision or an input decision is no decision, or an input data is no input.
    Stranger,
    /// An input decision is also an output or encapsulated.
    Shared,
    /// It reaches a decision or an input that it doesn't list.
    Unlisted,
}

/// What is wrong at a place.
#[derive(Clone, Copy, Debug, PartialEq, Eq)]
pub enum Mistake {
    /// A text in the place of a name is no name.
    Name,
    /// A name stands before in its list.
    Twice,
    /// A FEEL text has no reading of its kind.
    Expression(TextKind),
    /// A decision table is refused.
    Table(TableFault),
    /// A rule has another number of entries than its table has columns.
    Rule,
    /// A needed name is neither an input nor a decision.
    Unknown,
    /// A decision needs itself, directly or through others.
    Cycle,
    /// A service doesn't fit the decisions.
    Service(ServiceFault),
    /// There are more than 1,000 decisions.
    Large,
}

impl Mistake {
    /// The fault that a model with this mistake has.
    pub fn fault(self) -> ModelFault
        ensures { result ≡ fault_of self }
    {
        match self {
            Mistake::Name => ModelFault::Name,
            Mistake::Twice => ModelFault::Twice,
            Mistake::Expression(_) => ModelFault::Expression,
            Mistake::Table(_) => ModelFault::Table,
            Mistake::Rule => ModelFault::Table,
            Mistake::Unknown => ModelFault::Unknown,
            Mistake::Cycle => ModelFault::Cycle,
            Mistake::Service(_) => ModelFault::Service,
            Mistake::Large => ModelFault::Large,
        }
    }
}

/// A place where something is wrong.
#[derive(Debug, Drop)]
pub struct Finding {
    /// Where it is.
    pub place: Place,
    /// What it is.
    pub mistake: Mistake,
}
