//! Values as truth values.
ghost use Rattle.std.specs.Prelude.{◌≡◌};
ghost use Rattle.feel_value.specs.Logic.{truth_of};
ghost use Rattle.feel_value.specs.View.{datum_of};

use crate::feel::Feel;
use crate::logic::{Truth, decided};
use crate::value::Value;

/// What the value says: anything but a boolean is `Unknown`.
pub fn truth(value: &Feel) -> Truth
    ensures { result ≡ truth_of value.now }
{
    truth_value(value.value())
}

pub(crate) fn truth_value(value: &Value) -> Truth
    ensures { result ≡ truth_of (datum_of value.now) }
{
    match value {
        Value::Bool(holds) => decided(*holds),
        _ => Truth::Unknown,
    }
}
