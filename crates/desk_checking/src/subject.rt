//! The model in a JSON value.
ghost use Rattle.std.specs.Prelude.{◌≡◌};
ghost use Rattle.serde_json.specs.View.{view};
ghost use Rattle.desk_checking.specs.FirstFault.{subject as subject_of};

use serde_json::Value;

/// The value of the model: what stands under the key `model`, as in a line of `desk serve`, or the whole value. No model has that
/// key.
pub(crate) fn subject(json: &Value) -> &Value
    ensures { view result.now ≡ subject_of (view json.now) }
{
    match json.get("model") {
        Some(model) => model,
        None => json,
    }
}
