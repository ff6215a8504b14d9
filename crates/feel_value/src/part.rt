//! Values that are looked at where they lie.
ghost use Rattle.std.specs.Prelude.{◌≡◌, true, IfOk};
ghost use Rattle.feel_value.specs.Datum.{entry_named};
ghost use Rattle.feel_value.specs.Limits.{is_value};
ghost use Rattle.feel_value.specs.View.{datum_of};

use crate::feel::Feel;
use crate::value::Value;
use std::alloc::AllocError;
use std::marker::Model;

/// A value, or an entry of one, where it lies. It keeps the limits, as all parts of a `Feel` do.
#[derive(Drop)]
pub struct Part<'a> {
    value: &'a Value,
}

impl<'a> Model for Part<'a> {
    ghost use Rattle.std.specs.Prelude.{◌≡◌, true};
    ghost use Rattle.feel_value.specs.Datum.{Datum};
    ghost use Rattle.feel_value.specs.Code.{datum_code};

    ghost Value = { Datum };

    ghost coded = { datum_code };

    ghost use Rattle.feel_value.specs.Limits.{is_value};
    ghost use Rattle.feel_value.specs.View.{datum_of};

    ghost view = { λ p. datum_of p.value.now };

    ghost invariant = { λ p. is_value (datum_of p.value.now) ≡ true };
}

impl<'a> Part<'a> {
    /// The whole of a value.
    pub fn of(value: &'a Feel) -> Part<'a>
        ensures { result ≡ value.now }
    {
        Part {
            value: value.value(),
        }
    }

    /// The entry of that name, where this is a context that has one.
    #[tactic(auto, using(crate::proofs::Parts::entry_lawful))]
    pub fn entry(&self, name: &str) -> Option<Part<'a>>
        ensures { result ≡ entry_named name.now self.now }
    {
        match self.value.entry(name) {
            Some(value) => Some(Part { value }),
            None => None,
        }
    }

    /// The value itself.
    pub fn value(&self) -> &'a Value
        ensures same { datum_of result.now ≡ self.now }
        ensures lawful { is_value self.now ≡ true }
    {
        self.value
    }

    /// A copy, which shares its texts, lists and contexts with this value. The time is constant.
    pub fn try_clone(&self) -> Result<Feel, AllocError>
        ensures { IfOk result (λ f. f ≡ self.now) }
    {
        Feel::copy_of(self.value)
    }
}
