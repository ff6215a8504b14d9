//! Classes of the values of a column. On each, constant tests have one answer, or it is not known that they have.
ghost use Rattle.std.specs.Prelude.{◌≡◌, List, ℕ, true, false, IfSome, IsTrue, bytes_eq};
ghost use Rattle.std.specs.Arc.{arc_str_bytes};
ghost use Rattle.std.specs.List.{list_any};
ghost use Rattle.feel_value.specs.Comparison.{equal, less};
ghost use Rattle.feel_value.specs.Datum.{Datum, text as text_datum};
ghost use Rattle.feel_value.specs.Logic.{is_yes};
ghost use Rattle.feel_value.specs.View.{datum_of};
ghost use Rattle.dmn_analysis.specs.Cells.{is_less as is_text_less};
ghost use Rattle.dmn_analysis.specs.Classes.{AreGreaterFrom, AreLessBefore, is_between, is_number_in, is_of, is_other_text, is_parted, is_within, is_word};

use feel_value::{Truth, Value};
use std::sync::ArcStr;

/// A class of values of a column.
#[derive(Drop)]
pub(crate) enum Class<'a> {
    /// This value, which is null, a truth value or a text.
    One(Value),
    /// The numbers from one to another, both included.
    Numbers(i64, i64),
    /// The texts that are one of these, which are in order.
    Words(&'a [ArcStr]),
    /// The texts that are none of these.
    OtherTexts(&'a [ArcStr]),
    /// The texts in UTF-8 that are none of these, greater than each before the first place, and less than each from the second place on.
    Between(&'a [ArcStr], usize, usize),
    /// The lists and the contexts.
    Parted,
}

impl Class<'_> {
    /// Whether each value of the class is less than this one, where they agree in it.
    pub(crate) fn below(&self, value: &Value) -> Option<Truth>
        ensures { IfSome result (λ t. (v : Datum) → is_of self.now v ≡ true → less v (datum_of value.now) ≡ t) }
    {
        match self {
            Class::One(one) => Some(one.less(value)),
            Class::Numbers(low, high) => numbers_below(*low, *high, value),
            Class::Words(texts) => words_below(texts, value),
            Class::OtherTexts(_) => text_below(value),
            Class::Between(texts, from, to) => between_below(texts, *from, *to, value),
            Class::Parted => Some(Truth::Unknown),
        }
    }

    /// Whether this value is less than each of the class, where they agree in it.
    pub(crate) fn above(&self, value: &Value) -> Option<Truth>
        ensures { IfSome result (λ t. (v : Datum) → is_of self.now v ≡ true → less (datum_of value.now) v ≡ t) }
    {
        match self {
            Class::One(one) => Some(value.less(one)),
            Class::Numbers(low, high) => numbers_above(*low, *high, value),
            Class::Words(texts) => words_above(texts, value),
            Class::OtherTexts(_) => text_above(value),
            Class::Between(texts, from, to) => between_above(texts, *from, *to, value),
            Class::Parted => Some(Truth::Unknown),
        }
    }

    /// Whether each value of the class is equal to this one, where they agree in it.
    pub(crate) fn equals(&self, value: &Value) -> Option<bool>
        ensures { IfSome result (λ b. (v : Datum) → is_of self.now v ≡ true → is_yes (equal v (datum_of value.now)) ≡ b) }
    {
        match self {
            Class::One(one) => Some(one.is_equal(value)),
            Class::Numbers(low, high) => numbers_equal(*low, *high, value),
            Class::Words(texts) => words_equal(texts, value),
            Class::OtherTexts(texts) => other_texts_equal(texts, value),
            Class::Between(texts, from, to) => between_equal(texts, *from, *to, value),
            Class::Parted => parted_equal(value),
        }
    }
}

fn numbers_below(low: i64, high: i64, value: &Value) -> Option<Truth>
    ensures { IfSome result (λ t. (v : Datum) → is_number_in low high v ≡ true → less v (datum_of value.now) ≡ t) }
{
    let Value::Number(n) = value else {
        return Some(Truth::Unknown);
    };
    if high < *n {
        return Some(Truth::Yes);
    }
    if *n <= low {
        return Some(Truth::No);
    }
    None
}

fn numbers_above(low: i64, high: i64, value: &Value) -> Option<Truth>
    ensures { IfSome result (λ t. (v : Datum) → is_number_in low high v ≡ true → less (datum_of value.now) v ≡ t) }
{
    let Value::Number(n) = value else {
        return Some(Truth::Unknown);
    };
    if *n < low {
        return Some(Truth::Yes);
    }
    if high <= *n {
        return Some(Truth::No);
    }
    None
}

fn numbers_equal(low: i64, high: i64, value: &Value) -> Option<bool>
    ensures { IfSome result (λ b. (v : Datum) → is_number_in low high v ≡ true → is_yes (equal v (datum_of value.now)) ≡ b) }
{
    let Value::Number(n) = value else {
        return Some(false);
    };
    if *n < low || high < *n {
        return Some(false);
    }
    if low == high {
        return Some(true);
    }
    None
}

/// How a text stands to a value that is none; of a text it isn't known.
fn text_below(value: &Value) -> Option<Truth>
    ensures { IfSome result (λ t. (s : List ℕ) → less (text_datum s) (datum_of value.now) ≡ t) }
{
    match value {
        Value::Text(_) => None,
        _ => Some(Truth::Unknown),
    }
}

fn text_above(value: &Value) -> Option<Truth>
    ensures { IfSome result (λ t. (s : List ℕ) → less (datum_of value.now) (text_datum s) ≡ t) }
{
    match value {
        Value::Text(_) => None,
        _ => Some(Truth::Unknown),
    }
}

/// Whether a text is less than another, by code points.
pub(crate) fn is_less(text: &str, other: &str) -> bool
    ensures { result ≡ is_text_less text.now other.now }
{
    text < other
}

// Whether each text that isn't greater than the last of these is less than this one: the last is.
fn is_past_all(texts: &[ArcStr], text: &str) -> bool
    ensures { IsTrue result → (s : List ℕ) → is_within texts.now s ≡ true → is_text_less s text.now ≡ true }
{
    let count = texts.len();
    if count == 0 {
        return false;
    }
    is_less(texts[count - 1].as_str(), text)
}

// Whether each text that isn't less than the first of these is greater than this one: the first is.
fn is_short_of_all(texts: &[ArcStr], text: &str) -> bool
    ensures { IsTrue result → (s : List ℕ) → is_within texts.now s ≡ true → is_text_less text.now s ≡ true }
{
    if texts.len() == 0 {
        return false;
    }
    is_less(text, texts[0].as_str())
}

// Whether no text that isn't less than the first of these is less than this one: the first isn't.
fn is_upto_all(texts: &[ArcStr], text: &str) -> bool
    ensures { IsTrue result → (s : List ℕ) → is_within texts.now s ≡ true → is_text_less s text.now ≡ false }
{
    if texts.len() == 0 {
        return false;
    }
    !is_less(texts[0].as_str(), text)
}

// Whether no text that isn't greater than the last of these is greater than this one: the last isn't.
fn is_from_all(texts: &[ArcStr], text: &str) -> bool
    ensures { IsTrue result → (s : List ℕ) → is_within texts.now s ≡ true → is_text_less text.now s ≡ false }
{
    let count = texts.len();
    if count == 0 {
        return false;
    }
    !is_less(text, texts[count - 1].as_str())
}

// How words in order stand to a text: their first and their last tell it.
fn words_below(texts: &[ArcStr], value: &Value) -> Option<Truth>
    ensures { IfSome result (λ t. (v : Datum) → is_word texts.now v ≡ true → less v (datum_of value.now) ≡ t) }
{
    let Value::Text(text) = value else {
        return Some(Truth::Unknown);
    };
    if is_past_all(texts, text.as_str()) {
        return Some(Truth::Yes);
    }
    if is_upto_all(texts, text.as_str()) {
        return Some(Truth::No);
    }
    None
}

fn words_above(texts: &[ArcStr], value: &Value) -> Option<Truth>
    ensures { IfSome result (λ t. (v : Datum) → is_word texts.now v ≡ true → less (datum_of value.now) v ≡ t) }
{
    let Value::Text(text) = value else {
        return Some(Truth::Unknown);
    };
    if is_short_of_all(texts, text.as_str()) {
        return Some(Truth::Yes);
    }
    if is_from_all(texts, text.as_str()) {
        return Some(Truth::No);
    }
    None
}

// Whether each text that is less than those from a place on is less than this one: the text there isn't greater than it.
fn is_past(texts: &[ArcStr], place: usize, text: &str) -> bool
    ensures { IsTrue result → (s : List ℕ) → AreGreaterFrom place s texts.now → is_text_less s text.now ≡ true }
{
    if place >= texts.len() {
        return false;
    }
    !is_less(text, texts[place].as_str())
}

// Whether each text that is greater than those before a place is greater than this one: the last of them isn't less than it.
fn is_short_of(texts: &[ArcStr], place: usize, text: &str) -> bool
    ensures { IsTrue result → (s : List ℕ) → AreLessBefore place s texts.now → is_text_less text.now s ≡ true }
{
    if place == 0 || place > texts.len() {
        return false;
    }
    !is_less(texts[place - 1].as_str(), text)
}

// How texts between words stand to one: it is known where that lies below or above them.
fn between_below(texts: &[ArcStr], from: usize, to: usize, value: &Value) -> Option<Truth>
    ensures { IfSome result (λ t. (v : Datum) → is_between texts.now from to v ≡ true → less v (datum_of value.now) ≡ t) }
{
    let Value::Text(text) = value else {
        return Some(Truth::Unknown);
    };
    if is_past(texts, to, text.as_str()) {
        return Some(Truth::Yes);
    }
    if is_short_of(texts, from, text.as_str()) {
        return Some(Truth::No);
    }
    None
}

fn between_above(texts: &[ArcStr], from: usize, to: usize, value: &Value) -> Option<Truth>
    ensures { IfSome result (λ t. (v : Datum) → is_between texts.now from to v ≡ true → less (datum_of value.now) v ≡ t) }
{
    let Value::Text(text) = value else {
        return Some(Truth::Unknown);
    };
    if is_past(texts, to, text.as_str()) {
        return Some(Truth::No);
    }
    if is_short_of(texts, from, text.as_str()) {
        return Some(Truth::Yes);
    }
    None
}

fn between_equal(texts: &[ArcStr], from: usize, to: usize, value: &Value) -> Option<bool>
    ensures { IfSome result (λ b. (v : Datum) → is_between texts.now from to v ≡ true → is_yes (equal v (datum_of value.now)) ≡ b) }
{
    let Value::Text(text) = value else {
        return Some(false);
    };
    if is_past(texts, to, text.as_str()) {
        return Some(false);
    }
    if is_short_of(texts, from, text.as_str()) {
        return Some(false);
    }
    let same = other_texts_equal(texts, value)?;
    Some(same)
}

fn words_equal(texts: &[ArcStr], value: &Value) -> Option<bool>
    ensures { IfSome result (λ b. (v : Datum) → is_word texts.now v ≡ true → is_yes (equal v (datum_of value.now)) ≡ b) }
{
    let Value::Text(text) = value else {
        return Some(false);
    };
    if is_past_all(texts, text.as_str()) {
        return Some(false);
    }
    if is_short_of_all(texts, text.as_str()) {
        return Some(false);
    }
    if texts.len() != 1 {
        return None;
    }
    if !is_among(text.as_str(), texts) {
        return Some(false);
    }
    Some(true)
}

fn other_texts_equal(texts: &[ArcStr], value: &Value) -> Option<bool>
    ensures { IfSome result (λ b. (v : Datum) → is_other_text texts.now v ≡ true → is_yes (equal v (datum_of value.now)) ≡ b) }
{
    let Value::Text(text) = value else {
        return Some(false);
    };
    if is_found(text.as_str(), texts) {
        return Some(false);
    }
    None
}

// Whether a text is found among these, which are in order, by halving.
fn is_found(text: &str, texts: &[ArcStr]) -> bool
    ensures { IsTrue result → list_any (λ t. bytes_eq text.now (arc_str_bytes t)) texts.now ≡ true }
{
    let place = first_text(texts, text);
    if place >= texts.len() {
        return false;
    }
    texts[place].as_str() == text
}

/// The place of the first of these texts, which are in order, that isn't less than another. Nothing is promised of it: what is found
/// there is looked at.
pub(crate) fn first_text(texts: &[ArcStr], text: &str) -> usize {
    let (mut from, mut to) = (0, texts.len());
    for _turn in 0..64 {
        if from >= to {
            return from;
        }
        let middle = from + (to - from) / 2;
        let Some(one) = texts.get(middle) else {
            return from;
        };
        if is_less(one.as_str(), text) {
            from = middle + 1;
        } else {
            to = middle;
        }
    }
    from
}

pub(crate) fn is_among(text: &str, texts: &[ArcStr]) -> bool
    ensures { result ≡ list_any (λ t. bytes_eq text.now (arc_str_bytes t)) texts.now }
{
    texts.iter().any(|other| text == other.as_str())
}

fn parted_equal(value: &Value) -> Option<bool>
    ensures { IfSome result (λ b. (v : Datum) → is_parted v ≡ true → is_yes (equal v (datum_of value.now)) ≡ b) }
{
    if has_parts(value) {
        return None;
    }
    Some(false)
}

fn has_parts(value: &Value) -> bool
    ensures { result ≡ is_parted (datum_of value.now) }
{
    match value {
        Value::List(_) | Value::Context(_) => true,
        Value::Null | Value::Bool(_) | Value::Number(_) | Value::Text(_) => false,
    }
}
