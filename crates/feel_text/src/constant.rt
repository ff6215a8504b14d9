//! Literals of expressions, as values that are ready.
ghost use Rattle.std.specs.Prelude.{◌≡◌, true, Some, None, if◌then◌else◌};
ghost use Rattle.feel_value.specs.Limits.{is_value};
ghost use Rattle.feel_value.specs.View.{datum_of};
ghost use Rattle.feel_text.specs.Constants.{is_constant};

use feel_value::{Feel, Value};
use std::fmt;
use std::marker::Model;

/// The value of a literal: null, a boolean, a number that isn't negative, or a text. It is formed once, when the text is read.
#[derive(Drop)]
pub struct Constant {
    value: Feel,
}

impl Model for Constant {
    ghost use Rattle.std.specs.Prelude.{◌≡◌, true};
    ghost use Rattle.feel_value.specs.Datum.{Datum};
    ghost use Rattle.feel_value.specs.Code.{datum_code};
    ghost use Rattle.feel_value.specs.Limits.{is_value};
    ghost use Rattle.feel_text.specs.Constants.{is_constant};

    ghost Value = { Datum };

    ghost coded = { datum_code };

    ghost view = { λ c. c.value };

    ghost invariant = { λ c. (is_constant c.value ≡ true) × (is_value c.value ≡ true) };
}

impl Constant {
    ghost use Rattle.feel_value.specs.declared.feel.Outcome.TheVariants.{Is};
    ghost use Rattle.feel_text.specs.Constants.{expr_of_constant};
    ghost use Rattle.feel_text.specs.Meaning.{Bindings, den};

    /// The constant of this value, where it keeps the limits.
    pub(crate) fn of(value: Value) -> Option<Constant>
        requires { is_constant (datum_of value) ≡ true }
        ensures { result ≡ (if is_value (datum_of value) then Some (datum_of value) else None) }
    {
        let value = Feel::of(value)?;
        Some(Constant { value })
    }

    /// The value.
    #[tactic(auto, using(crate::proofs::Constants::meaning))]
    pub fn value(&self) -> &Feel
        ensures same { result.now ≡ self.now }
        ensures meaning { (m : Bindings) → den (expr_of_constant self.now) m ≡ Is self.now }
    {
        &self.value
    }
}

impl fmt::Debug for Constant {
    fn fmt<W: fmt::Write>(&self, f: &mut fmt::Formatter<W>) -> fmt::Result {
        match self.value.value() {
            Value::Null => write!(f, "null"),
            Value::Bool(holds) => write!(f, "{holds:?}"),
            Value::Number(n) => write!(f, "{n:?}"),
            Value::Text(text) => {
                let text = text.as_str();
                write!(f, "{text:?}")
            }
            Value::List(_) | Value::Context(_) => write!(f, ".."),
        }
    }
}
