//! What has a name, and the names of what has a value.
ghost use Rattle.std.specs.Prelude.{◌≡◌, ℕ, List, IfOk, map, string_bytes};
ghost use Rattle.dmn_form.specs.ModelView.{model_view};
ghost use Rattle.dmn_names.specs.Parts.{value_names};

use dmn_form::{WrittenColumn, WrittenDecision, WrittenLogic, WrittenModel, WrittenService};
use std::alloc::{AllocError, Global};

/// What has a name.
pub trait Named {
    ghost name_of: { Self → List ℕ };

    fn name(&self) -> &str
        ensures { result.now ≡ name_of self.now };
}

impl Named for String {
    ghost name_of = { string_bytes };

    fn name(&self) -> &str {
        self.as_str()
    }
}

/// A name that is borrowed.
impl<'a> Named for &'a str {
    ghost name_of = { λ s. s.now };

    fn name(&self) -> &str {
        *self
    }
}

/// An entry of a context.
impl Named for (String, WrittenLogic) {
    ghost name_of = { λ e. string_bytes e.0 };

    fn name(&self) -> &str {
        self.0.as_str()
    }
}

impl Named for WrittenColumn {
    ghost name_of = { λ c. string_bytes c.name };

    fn name(&self) -> &str {
        self.name.as_str()
    }
}

impl Named for WrittenDecision {
    ghost name_of = { λ d. string_bytes d.name };

    fn name(&self) -> &str {
        self.name.as_str()
    }
}

impl Named for WrittenService {
    ghost name_of = { λ s. string_bytes s.name };

    fn name(&self) -> &str {
        self.name.as_str()
    }
}

/// The names of the inputs, and then of the decisions.
pub fn names_of_values(alloc: Global, model: &WrittenModel) -> Result<Vec<&str>, AllocError>
    ensures { IfOk result (λ v. map (λ n. n.now) v.items ≡ value_names (model_view model.now)) }
{
    let mut names = Vec::new(alloc);
    for input in &model.inputs {
        names.push(input.as_str())?;
    }
    for decision in &model.decisions {
        names.push(decision.name.as_str())?;
    }
    Ok(names)
}
