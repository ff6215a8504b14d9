//! What an evaluation gives, from values, numbers and truth values.
ghost use Rattle.std.specs.Prelude.{◌≡◌, pos};
ghost use Rattle.feel_value.specs.Datum.{null as null_value, number as number_of};
ghost use Rattle.feel_value.specs.Logic.{truth_datum};
ghost use Rattle.feel_value.specs.Outcome.{held};
ghost use Rattle.feel_value.specs.View.{datum_of};
ghost use Rattle.feel_value.specs.declared.feel.Outcome.TheVariants.{Is};
ghost use Rattle.feel_eval.specs.Numbers.{number_outcome};

use feel_value::{Outcome, Truth};

pub(crate) fn null() -> Outcome
    ensures { result ≡ Is null_value }
{
    Outcome::null()
}

// A number, held against the range. None is past the range of an i64.
pub(crate) fn number(number: Option<i64>) -> Outcome
    ensures { result ≡ number_outcome number }
{
    match number {
        Some(n) => Outcome::number(n),
        None => Outcome::Limit,
    }
}

// A natural number, held against the range.
pub(crate) fn natural(n: usize) -> Outcome
    ensures { result ≡ held (number_of (pos n)) }
{
    number(i64::try_from(n).ok())
}

// A whole number, held against the range.
pub(crate) fn whole(n: i128) -> Outcome
    ensures { result ≡ held (number_of n) }
{
    number(i64::try_from(n).ok())
}

// A truth value as a value.
pub(crate) fn told(truth: Truth) -> Outcome
    ensures { result ≡ Is (truth_datum truth) }
{
    Outcome::truth(truth)
}
