//! Whether each text in the place of a name is a name.
ghost use Rattle.std.specs.Prelude.{◌≡◌, map};
ghost use Rattle.dmn_form.specs.ModelView.{model_view};
ghost use Rattle.dmn_names.specs.Names.{have_bad as bad_names, has_bad_name as bad_name_in};
ghost use Rattle.dmn_names.specs.Parts.{value_names};

use crate::named::Named;
use crate::walk::{Question, is_in_model};
use dmn_form::WrittenModel;
use feel_lang::is_name;
use std::convert::Infallible;

/// Whether one of these has no lawful name.
fn have_bad<T: Named>(items: &[T]) -> bool
    ensures { result ≡ bad_names (map T.name_of items.now) }
{
    for item in items {
        if !is_name(item.name()) {
            return true;
        }
    }
    false
}

/// Whether a list has a bad name.
#[derive(Drop)]
struct HasBad;

impl Question for HasBad {
    type Error = Infallible;

    ghost use Rattle.dmn_names.specs.Names.{have_bad as bad_names};

    ghost is_so = { bad_names };

    fn is_so_of<T: Named>(&self, items: &[T]) -> Result<bool, Infallible> {
        Ok(have_bad(items))
    }
}

/// Whether an input or a decision has a bad name.
#[tactic(auto, using(crate::proofs::Walks::any_of_decisions))]
fn values_have_bad(model: &WrittenModel) -> bool
    ensures { result ≡ bad_names (value_names (model_view model.now)) }
{
    have_bad(&model.inputs) || have_bad(&model.decisions)
}

/// Whether a text in the place of a name is no name. It takes no memory.
pub fn has_bad_name(model: &WrittenModel) -> bool
    ensures { result ≡ bad_name_in (model_view model.now) }
{
    if values_have_bad(model) {
        return true;
    }
    match is_in_model(&HasBad, model) {
        Ok(is_bad) => is_bad,
        Err(never) => match never {},
    }
}
