//! Which values may meet constant unary tests, told without asking the tests again.

ghost use Rattle.std.specs.Prelude.{◌≡◌, IsTrue, IfSome, false, true};
ghost use Rattle.std.specs.List.{All};
ghost use Rattle.feel_value.specs.Datum.{Datum};
ghost use Rattle.feel_value.specs.View.{items_view};
ghost use Rattle.feel_text.specs.Classes.{is_in_class};
ghost use Rattle.feel_text.specs.Satisfied.{is_member};
ghost use Rattle.feel_text.specs.Sieves.{IsMarked, is_narrow, lets_through};
ghost use Rattle.feel_text.specs.declared.sieve.Sieve.TheVariants as sieve;

use crate::class::{Class, MARKS, mark};
use feel_value::Value;

/// Which values may meet unary tests.
#[derive(Clone, Copy, Debug)]
pub enum Sieve {
    /// Every value.
    All,
    /// The numbers from one to another, both included, and nothing else.
    Numbers(i64, i64),
    /// The texts with these marks, and nothing else: a bit for each mark.
    Texts(u64),
    /// The tests have to be asked.
    Unknown,
}

/// Whether no value of the class is a number from one to another.
fn span_misses(low: i64, high: i64, class: Class) -> bool
    ensures { IsTrue result → (v : Datum) → is_in_class class v ≡ true → lets_through (sieve.Numbers low high) v ≡ false }
{
    match class {
        Class::Numbers(first, last) => last < low || high < first,
        _ => true,
    }
}

/// Whether no value of the class is a text with one of these marks. False says nothing.
fn marks_miss(marks: u64, class: Class) -> bool
    ensures { IsTrue result → (v : Datum) → is_in_class class v ≡ true → lets_through (sieve.Texts marks) v ≡ false }
{
    match class {
        Class::Texts(other) => other < MARKS && (marks >> u32::from(other)) & 1 == 0,
        _ => true,
    }
}

/// The marks of these values, where all are texts.
fn marks_of(values: &[Value]) -> Option<u64>
    ensures { IfSome result (λ marks. All (IsMarked marks) values.now) }
{
    let mut marks: u64 = 0;
    for value in values {
        let Value::Text(text) = value else {
            return None;
        };
        marks |= 1 << u32::from(mark(text.as_str()));
    }
    Some(marks)
}

impl Sieve {
    /// What lets through each value that equals one of these.
    pub(crate) fn of_values(values: &[Value]) -> Sieve
        ensures { (v : Datum) → lets_through result v ≡ false → is_member v (items_view values.now) ≡ false }
    {
        match marks_of(values) {
            Some(marks) => Sieve::Texts(marks),
            None => Sieve::Unknown,
        }
    }

    /// Whether no value of the class is let through. False says nothing.
    pub fn misses(self, class: Class) -> bool
        ensures missed { IsTrue result → (v : Datum) → is_in_class class v ≡ true → lets_through self v ≡ false }
        ensures narrow { IsTrue result → is_narrow self ≡ true }
    {
        match self {
            Sieve::Numbers(low, high) => span_misses(low, high, class),
            Sieve::Texts(marks) => marks_miss(marks, class),
            Sieve::All | Sieve::Unknown => false,
        }
    }
}
