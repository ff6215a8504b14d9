//! A number from its text.
ghost use Rattle.std.specs.Prelude.{◌≡◌, ◌<◌, ◌==◌, IsTrue, length, slice_index, option_map, true, false};
ghost use Rattle.serde_json.specs.Data.{number};
ghost use Rattle.serde_json.specs.Read.{number_of, number_from, float_of};
ghost use Rattle.serde_json.specs.View.{view};

use fast_float::Numeral;
use serde_json::{Number, Value};

/// The number that a JSON number is. None where it is past the range of floats. It takes no memory.
pub(crate) fn number_in(text: &str) -> Option<Value>
    ensures { option_map view result ≡ option_map number (number_of text.now) }
{
    let bytes = text.as_bytes();
    if begins_with_minus(bytes) {
        negative(&Numeral::scan(&bytes[1..]))
    } else {
        positive(&Numeral::scan(bytes))
    }
}

fn begins_with_minus(bytes: &[u8]) -> bool
    ensures value { result ≡ (slice_index bytes.now 0 == 45) }
    ensures some { IsTrue result → 0 < length bytes.now }
{
    !bytes.is_empty() && bytes[0] == b'-'
}

/// The number of a numeral with no sign: a whole number from 0 to 2^64 - 1, where it is written in digits alone, else a float.
fn positive(numeral: &Numeral<'_>) -> Option<Value>
    ensures { option_map view result ≡ option_map number (number_from false numeral.now) }
{
    match numeral.to_u64() {
        Some(n) => Some(Value::from(n)),
        None => nearest(false, numeral),
    }
}

/// The number of a numeral behind a minus: a whole number from -2^63 to -1, where it is written in digits alone, else a float.
fn negative(numeral: &Numeral<'_>) -> Option<Value>
    ensures { option_map view result ≡ option_map number (number_from true numeral.now) }
{
    if let Some(n) = numeral.to_i64(true) {
        if n < 0 {
            return Some(Value::from(n));
        }
    }
    nearest(true, numeral)
}

/// The float that is nearest to a numeral, if that is finite.
fn nearest(is_negative: bool, numeral: &Numeral<'_>) -> Option<Value>
    ensures { option_map view result ≡ option_map number (float_of is_negative numeral.now) }
{
    let number = Number::from_f64(numeral.to_float::<f64>(is_negative))?;
    Some(Value::Number(number))
}
