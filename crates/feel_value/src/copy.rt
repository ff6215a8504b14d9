//! Copies of values.
ghost use Rattle.std.specs.Prelude.{◌≡◌, IfOk};
ghost use Rattle.feel_value.specs.View.{datum_of};

use crate::value::Value;
use std::alloc::AllocError;
use std::sync::Arc;

// A copy that shares the texts, lists and contexts.
pub(crate) fn copy(value: &Value) -> Result<Value, AllocError>
    ensures { IfOk result (λ v. datum_of v ≡ datum_of value.now) }
{
    match value {
        Value::Null => Ok(Value::Null),
        Value::Bool(b) => Ok(Value::Bool(*b)),
        Value::Number(n) => Ok(Value::Number(*n)),
        Value::Text(text) => Ok(Value::Text(text.clone()?)),
        Value::List(list) => Ok(Value::List(Arc::try_clone(list)?)),
        Value::Context(context) => Ok(Value::Context(Arc::try_clone(context)?)),
    }
}
