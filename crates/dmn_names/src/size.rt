//! How large a model is.
ghost use Rattle.std.specs.Prelude.{◌≡◌};
ghost use Rattle.dmn_form.specs.ModelView.{model_view};
ghost use Rattle.dmn_names.specs.Size.{is_large as is_large_model};

use dmn_form::WrittenModel;

/// The most decisions that a model may have.
pub const MOST_DECISIONS: usize = 1000;

/// Whether the model has more decisions than a model may have.
pub fn is_large(model: &WrittenModel) -> bool
    ensures { result ≡ is_large_model (model_view model.now) }
{
    model.decisions.len() > MOST_DECISIONS
}
