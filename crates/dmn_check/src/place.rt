//! Places in the JSON value of a model.
ghost use Rattle.std.specs.Prelude.{◌≡◌, ◌++◌, OnOk, IfOk, string_bytes};
ghost use Rattle.dmn_check.specs.Pointer.{key_text, step_pointer, pointer_of};

use std::alloc::{AllocError, Global};

/// A key of the objects that a model is made of.
#[derive(Clone, Copy, Debug, PartialEq, Eq)]
pub enum Key {
    /// `inputs`, of a model or a table.
    Inputs,
    /// `decisions`, of a model.
    Decisions,
    /// `services`, of a model.
    Services,
    /// `name`, of a decision, a service, an entry or an output column.
    Name,
    /// `needs`, of a decision.
    Needs,
    /// `expr`, of a decision or an entry.
    Expr,
    /// `list`, a boxed list.
    List,
    /// `context`, a boxed context.
    Context,
    /// `result`, of a boxed context.
    Result,
    /// `table`, a decision table.
    Table,
    /// `hit`, of a table.
    Hit,
    /// `outputs`, of a table or a service.
    Outputs,
    /// `values`, of an output column.
    Values,
    /// `default`, of an output column.
    Default,
    /// `rules`, of a table.
    Rules,
    /// `when`, of a rule.
    When,
    /// `then`, of a rule.
    Then,
    /// `encapsulated`, of a service.
    Encapsulated,
    /// `inputDecisions`, of a service.
    InputDecisions,
    /// `inputData`, of a service.
    InputData,
}

/// A step from a JSON value to a part of it.
#[derive(Clone, Copy, Debug, PartialEq, Eq)]
pub enum Step {
    /// To what stands under a key of an object.
    Key(Key),
    /// To an element of an array; the first has the index 0.
    Index(usize),
}

/// A place in the JSON value of a model.
#[derive(Debug, Drop)]
pub struct Place {
    /// The steps from the whole model to the place.
    pub steps: Vec<Step>,
}

impl Key {
    /// The key as it is written.
    pub fn text(self) -> &'static str
        ensures { result.now ≡ key_text self }
    {
        match self {
            Key::Inputs => "inputs",
            Key::Decisions => "decisions",
            Key::Services => "services",
            Key::Name => "name",
            Key::Needs => "needs",
            Key::Expr => "expr",
            Key::List => "list",
            Key::Context => "context",
            Key::Result => "result",
            Key::Table => "table",
            Key::Hit => "hit",
            Key::Outputs => "outputs",
            Key::Values => "values",
            Key::Default => "default",
            Key::Rules => "rules",
            Key::When => "when",
            Key::Then => "then",
            Key::Encapsulated => "encapsulated",
            Key::InputDecisions => "inputDecisions",
            Key::InputData => "inputData",
        }
    }
}

/// Puts a step behind a JSON Pointer. No key of a model has a `~` or a `/`, so none is escaped.
#[tactic(auto, using(crate::proofs::Pointers::unescaped))]
fn push_pointer(text: &mut String, step: Step) -> Result<(), AllocError>
    ensures { OnOk result (string_bytes text.new ≡ string_bytes text.old ++ step_pointer step) }
{
    match step {
        Step::Key(key) => {
            write!(text, "/{}", key.text())?;
            Ok(())
        }
        Step::Index(index) => {
            write!(text, "/{index}")?;
            Ok(())
        }
    }
}

impl Place {
    /// The place as a JSON Pointer (RFC 6901), as `/decisions/3/expr/table/rules/8/when/2`; the whole model is the empty text.
    pub fn pointer(&self, alloc: Global) -> Result<String, AllocError>
        ensures { IfOk result (λ s. string_bytes s ≡ pointer_of self.now.steps.items) }
    {
        let mut text = String::new(alloc);
        for step in &self.steps {
            push_pointer(&mut text, *step)?;
        }
        Ok(text)
    }
}
