//! The words of reports.
ghost use Rattle.std.specs.Prelude.{◌≡◌};
ghost use Rattle.desk_wire.specs.Words as words;

use box_core::{AddRefusal, Refusal};
use dmn_plan::{ModelFault, TaskFault};

/// A word of a report: why a line is refused, what is wrong with a model, which line is skipped, or that a limit was broken.
#[derive(Clone, Copy, Debug, PartialEq, Eq)]
pub enum Word {
    /// The number is no capacity.
    Capacity,
    /// There are as many clients as there may be.
    Clients,
    /// A line that closes a client.
    Close,
    /// The client is closed.
    Closed,
    /// A decision needs itself.
    Cycle,
    /// A text of the model has no reading.
    Expression,
    /// As many requests are outstanding as may be.
    Full,
    /// The model has too many decisions.
    Large,
    /// A value has too many parts or is too deep.
    Limit,
    /// The line has more bytes than a line may have.
    Long,
    /// There is no memory for what is due.
    Memory,
    /// No model is in force, or the model on the line has a fault.
    Model,
    /// A name of the model is no name.
    Name,
    /// There is no such client.
    NoClient,
    /// The request does not wait to be taken.
    NotWaiting,
    /// The name was opened before.
    Present,
    /// The answer was kept before.
    Repeated,
    /// A line that gives a client a capacity.
    Resize,
    /// The model in force has no such service, or a service of the model is wrong.
    Service,
    /// The JSON value is no line, or no model.
    Shape,
    /// More requests are outstanding than the capacity would be.
    Small,
    /// The client has no ticket left.
    Spent,
    /// The answer is none to a request that was taken.
    Strange,
    /// The line or the model is no JSON text, or nests too deep.
    Syntax,
    /// A table of the model is wrong.
    Table,
    /// A name of the model stands twice.
    Twice,
    /// A decision needs what the model has not.
    Unknown,
    /// The inputs hold no values of the service.
    Value,
}

impl Word {
    /// The word as it is written.
    pub fn text(self) -> &'static str
        ensures { result.now ≡ words.word_text self }
    {
        match self {
            Word::Capacity => "capacity",
            Word::Clients => "clients",
            Word::Close => "close",
            Word::Closed => "closed",
            Word::Cycle => "cycle",
            Word::Expression => "expression",
            Word::Full => "full",
            Word::Large => "large",
            Word::Limit => "limit",
            Word::Long => "long",
            Word::Memory => "memory",
            Word::Model => "model",
            Word::Name => "name",
            Word::NoClient => "no client",
            Word::NotWaiting => "not waiting",
            Word::Present => "present",
            Word::Repeated => "repeated",
            Word::Resize => "resize",
            Word::Service => "service",
            Word::Shape => "shape",
            Word::Small => "small",
            Word::Spent => "spent",
            Word::Strange => "strange",
            Word::Syntax => "syntax",
            Word::Table => "table",
            Word::Twice => "twice",
            Word::Unknown => "unknown",
            Word::Value => "value",
        }
    }

    /// The word of a refusal of the broker.
    pub fn of_refusal(why: Refusal) -> Word
        ensures { result ≡ words.refusal_word why }
    {
        match why {
            Refusal::NoClient => Word::NoClient,
            Refusal::Closed => Word::Closed,
            Refusal::Full => Word::Full,
            Refusal::Spent => Word::Spent,
            Refusal::NotWaiting => Word::NotWaiting,
            Refusal::Capacity => Word::Capacity,
            Refusal::Small => Word::Small,
            Refusal::Memory => Word::Memory,
        }
    }

    /// The word of a refusal to open a client.
    pub fn of_unadded(why: AddRefusal) -> Word
        ensures { result ≡ words.unadded_word why }
    {
        match why {
            AddRefusal::Capacity => Word::Capacity,
            AddRefusal::Many => Word::Clients,
            AddRefusal::Memory => Word::Memory,
        }
    }

    /// The word of a model's fault.
    pub fn of_fault(fault: ModelFault) -> Word
        ensures { result ≡ words.fault_word fault }
    {
        match fault {
            ModelFault::Syntax => Word::Syntax,
            ModelFault::Shape => Word::Shape,
            ModelFault::Name => Word::Name,
            ModelFault::Twice => Word::Twice,
            ModelFault::Expression => Word::Expression,
            ModelFault::Table => Word::Table,
            ModelFault::Unknown => Word::Unknown,
            ModelFault::Cycle => Word::Cycle,
            ModelFault::Service => Word::Service,
            ModelFault::Large => Word::Large,
            ModelFault::Memory => Word::Memory,
        }
    }

    /// The word of a request for which there is no task.
    pub fn of_task_fault(fault: TaskFault) -> Word
        ensures { result ≡ words.task_fault_word fault }
    {
        match fault {
            TaskFault::Service => Word::Service,
            TaskFault::Value => Word::Value,
            TaskFault::Memory => Word::Memory,
        }
    }
}
