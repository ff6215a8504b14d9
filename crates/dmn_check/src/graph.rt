//! What the decisions of a model need, by places.
ghost use Rattle.std.specs.Prelude.{◌≡◌, ◌||◌, false, Some, IfOk, IfSome, is_none};
ghost use Rattle.dmn_form.specs.ModelView.{model_view};
ghost use Rattle.dmn_names.specs.Names.{has_name_twice as has_name_twice_in};
ghost use Rattle.dmn_names.specs.Places.{needs_by_place};
ghost use Rattle.dmn_names.specs.PlacedModel.{placed_model, needs_view};
ghost use Rattle.dmn_check.specs.Graphs.{has_no_graph};

use dmn_form::WrittenModel;
use dmn_names::{Places, has_name_twice, is_large};
use std::alloc::{AllocError, Global};

/// For each place the places of what it needs, or None where a name stands twice, a needed name is unknown or the model is too
/// large.
pub(crate) fn needs_of(
    alloc: Global,
    model: &WrittenModel,
    places: &Places,
) -> Result<Option<Vec<Vec<usize>>>, AllocError>
    requires { placed_model places.now ≡ model_view model.now }
    ensures none { IfOk result (λ o. is_none o ≡ has_no_graph (model_view model.now)) }
    ensures distinct { IfOk result (λ o. IfSome o (λ _. has_name_twice_in (model_view model.now) ≡ false)) }
    ensures known { IfOk result (λ o. IfSome o (λ v. needs_by_place (model_view model.now) ≡ Some (needs_view v))) }
{
    if is_large(model) {
        return Ok(None);
    }
    if has_name_twice(alloc, model)? {
        return Ok(None);
    }
    let needs = places.needs(alloc)?;
    Ok(needs)
}
