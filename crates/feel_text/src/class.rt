//! Classes of values, which constant unary tests can be asked about as a whole.

ghost use Rattle.std.specs.Prelude.{◌≡◌, ◌<◌, IsTrue, false, true};
ghost use Rattle.feel_value.specs.Comparison.{equal};
ghost use Rattle.feel_value.specs.Datum.{Datum, boolean, number, text as text_datum};
ghost use Rattle.feel_value.specs.Logic.{is_yes};
ghost use Rattle.feel_value.specs.View.{datum_of};
ghost use Rattle.feel_text.specs.Classes.{IsApart, mark_of, is_in_class};

use feel_value::Value;

/// How many marks of texts there are.
pub const MARKS: u8 = 64;

/// A class of values.
#[derive(Clone, Copy, Debug, PartialEq, Eq)]
pub enum Class {
    /// The numbers from one to another, both included.
    Numbers(i64, i64),
    /// The texts with this mark.
    Texts(u8),
    /// This boolean.
    Truth(bool),
    /// Null.
    Null,
}

/// So many bytes of a text make its mark.
const MARKED_BYTES: usize = 64;

/// The mark of a text, below `MARKS`: a number that is told by its length and its first 64 bytes, and differs for most texts
/// that differ in these. The time is constant, however long the text is.
pub fn mark(text: &str) -> u8
    ensures mark { result ≡ mark_of text.now }
    ensures below { result < 64 }
{
    let bytes = text.as_bytes();
    let first = &bytes[..MARKED_BYTES.min(bytes.len())];
    let mut mark = (bytes.len() % 64) as u8;
    for byte in first {
        mark = ((u32::from(mark) * 31 + u32::from(*byte)) % 64) as u8;
    }
    mark
}

/// Whether no value of the class is equal to this one. False says nothing.
pub(crate) fn is_apart(value: &Value, class: Class) -> bool
    ensures { IsTrue result → IsApart class value.now }
{
    match value {
        Value::Number(n) => is_apart_from_number(*n, class),
        Value::Text(text) => is_apart_from_text(text.as_str(), class),
        Value::Bool(holds) => is_apart_from_truth(*holds, class),
        Value::Null => !matches!(class, Class::Null),
        Value::List(_) | Value::Context(_) => false,
    }
}

fn is_apart_from_number(n: i64, class: Class) -> bool
    ensures { IsTrue result → (v : Datum) → is_in_class class v ≡ true → is_yes (equal v (number n)) ≡ false }
{
    match class {
        Class::Numbers(low, high) => n < low || high < n,
        _ => true,
    }
}

fn is_apart_from_text(text: &str, class: Class) -> bool
    ensures { IsTrue result → (v : Datum) → is_in_class class v ≡ true → is_yes (equal v (text_datum text.now)) ≡ false }
{
    match class {
        Class::Texts(other) => mark(text) != other,
        _ => true,
    }
}

fn is_apart_from_truth(holds: bool, class: Class) -> bool
    ensures { IsTrue result → (v : Datum) → is_in_class class v ≡ true → is_yes (equal v (boolean holds)) ≡ false }
{
    match class {
        Class::Truth(other) => holds != other,
        _ => true,
    }
}
