//! Long entries that list constants: whether values are among them is found by halving.
ghost use Rattle.std.specs.Prelude.{◌≡◌, ◌<◌, ◌≤◌, ◌<ℤ◌, ◌≤ℤ◌, ℕ, ℤ, Bool, [], true, false, IsTrue, IfOk, IfSome, OnOk, Some, None, ◌||◌};
ghost use Rattle.std.specs.Arc.{arc_str_bytes};
ghost use Rattle.std.specs.List.{slice_get};
ghost use Rattle.feel_value.specs.Comparison.{equal};
ghost use Rattle.feel_value.specs.Datum.{Datum, number as number_datum, text as text_datum};
ghost use Rattle.feel_value.specs.Logic.{is_yes, or_of, decided};
ghost use Rattle.feel_text.specs.Meaning.{Bindings};
ghost use Rattle.feel_text.specs.Satisfied.{Told, joined, tested};
ghost use Rattle.feel_text.specs.Tests.{Equals};
ghost use Rattle.feel_text.specs.TestsView.{test_view, test_views, tests_view};
ghost use Rattle.feel_text.specs.View.{view};
ghost use Rattle.dmn_analysis.specs.Cells.{AreInOrder};
ghost use Rattle.dmn_analysis.specs.Classes.{AreGreaterFrom, AreLessBefore, is_number_in, is_word};
ghost use Rattle.dmn_analysis.specs.Listing.{AreRising, AskFor, IsListing, answer_listed, is_constant_among, is_number_among, is_word_among};
ghost use Rattle.dmn_analysis.specs.Searching.{Settles};

use crate::class::{first_text, is_less};
use crate::folded::{literal, number_of};
use crate::words::are_in_order;
use feel_text::{Test, Tests, TestsTree, Tree};
use feel_value::Value;
use std::alloc::{AllocError, Global};
use std::sync::ArcStr;

/// A shorter entry is asked test by test.
const LONG: usize = 8;

/// Numbers and texts.
#[derive(Drop)]
pub(crate) struct Constants {
    pub(crate) numbers: Vec<i64>,
    pub(crate) texts: Vec<ArcStr>,
}

impl Constants {
    fn new(alloc: Global) -> Constants
        ensures numbers { result.numbers.items ≡ [] }
        ensures texts { result.texts.items ≡ [] }
    {
        Constants {
            numbers: Vec::new(alloc),
            texts: Vec::new(alloc),
        }
    }

    fn add_number(&mut self, number: i64) -> Result<(), AllocError>
        ensures { OnOk result ((v : Datum) → is_constant_among self.new v ≡ (is_constant_among self.old v || is_yes (equal v (number_datum number)))) }
    {
        self.numbers.push(number)?;
        Ok(())
    }

    fn add_text(&mut self, text: &ArcStr) -> Result<(), AllocError>
        ensures { OnOk result ((v : Datum) → is_constant_among self.new v ≡ (is_constant_among self.old v || is_yes (equal v (text_datum (arc_str_bytes text.now))))) }
    {
        let copy = text.clone()?;
        self.texts.push(copy)?;
        Ok(())
    }

    // Adds the constant that a test asks for, where it asks for one.
    fn add(&mut self, expr: &Tree) -> Result<bool, AllocError>
        ensures { IfOk result (λ is. IsTrue is → (v : Datum) (m : Bindings) → joined or_of (Told (decided (is_constant_among self.old v))) (tested (Equals (view expr.now)) v m) ≡ Told (decided (is_constant_among self.new v))) }
    {
        if let Some(number) = number_of(expr) {
            self.add_number(number)?;
            return Ok(true);
        }
        match literal(expr) {
            Some(Value::Text(text)) => {
                self.add_text(text)?;
                Ok(true)
            }
            _ => Ok(false),
        }
    }
}

// The constant that a test asks for is added, where it asks for one.
fn add_test(constants: &mut Constants, test: &Test) -> Result<bool, AllocError>
    ensures { IfOk result (λ is. IsTrue is → (v : Datum) (m : Bindings) → joined or_of (Told (decided (is_constant_among constants.old v))) (tested (test_view test.now) v m) ≡ Told (decided (is_constant_among constants.new v))) }
{
    let Test::Equals(expr) = test else {
        return Ok(false);
    };
    let is = constants.add(expr)?;
    Ok(is)
}

// The constants that tests ask for, where they ask for nothing else.
fn constants_of(alloc: Global, tests: &[Test]) -> Result<Option<Constants>, AllocError>
    ensures { IfOk result (λ found. IfSome found (λ c. AskFor c (test_views tests.now))) }
{
    let mut constants = Constants::new(alloc);
    for test in tests {
        if !add_test(&mut constants, test)? {
            return Ok(None);
        }
    }
    Ok(Some(constants))
}

// The same numbers, in order.
fn sorted_numbers(numbers: Vec<i64>) -> Vec<i64>
    ensures { (v : Datum) → is_number_among result.items v ≡ is_number_among numbers.items v }
{
    let mut numbers = numbers;
    numbers.sort_unstable();
    numbers
}

// The same texts, in order.
fn sorted_texts(texts: Vec<ArcStr>) -> Vec<ArcStr>
    ensures { (v : Datum) → is_word_among result.items v ≡ is_word_among texts.items v }
{
    let mut texts = texts;
    texts.sort_unstable_by(|a, b| a.as_str().cmp(b.as_str()));
    texts
}

// The same constants, in order.
fn sorted(constants: Constants) -> Constants
    ensures { (v : Datum) → is_constant_among result v ≡ is_constant_among constants v }
{
    let Constants { numbers, texts } = constants;
    Constants {
        numbers: sorted_numbers(numbers),
        texts: sorted_texts(texts),
    }
}

fn is_smaller(number: &i64, other: &i64) -> bool
    ensures smaller { IsTrue result → number.now <ℤ other.now }
    ensures unless { result ≡ false → other.now ≤ℤ number.now }
{
    *number < *other
}

// Whether none of the numbers is greater than the one behind it.
fn are_rising(numbers: &[i64]) -> bool
    ensures { IsTrue result → AreRising numbers.now }
{
    for i in 1..numbers.len() {
        if is_smaller(&numbers[i], &numbers[i - 1]) {
            return false;
        }
    }
    true
}

/// An entry that asks whether a value is one of some constants, or none of them.
#[derive(Drop)]
pub(crate) struct Listing {
    pub(crate) constants: Constants,
    /// Whether it asks that the value is none of them.
    pub(crate) is_barred: bool,
}

// The listing of these tests. That the constants are in order is looked at, so that it can be relied on.
fn listing_of(alloc: Global, tests: &[Test], is_barred: bool) -> Result<Option<Listing>, AllocError>
    ensures asks { IfOk result (λ found. IfSome found (λ l. AskFor l.constants (test_views tests.now))) }
    ensures barred { IfOk result (λ found. IfSome found (λ l. l.is_barred ≡ is_barred)) }
    ensures rising { IfOk result (λ found. IfSome found (λ l. AreRising l.constants.numbers.items)) }
    ensures order { IfOk result (λ found. IfSome found (λ l. AreInOrder l.constants.texts.items)) }
{
    if tests.len() < LONG {
        return Ok(None);
    }
    let Some(constants) = constants_of(alloc, tests)? else {
        return Ok(None);
    };
    let constants = sorted(constants);
    if !are_rising(&constants.numbers) {
        return Ok(None);
    }
    if !are_in_order(&constants.texts) {
        return Ok(None);
    }
    Ok(Some(Listing {
        constants,
        is_barred,
    }))
}

// The place of the first of these numbers, which rise, that isn't less than another. Nothing is promised of it: what is found there is
// looked at.
fn first_number(numbers: &[i64], number: i64) -> usize {
    let (mut from, mut to) = (0, numbers.len());
    for _turn in 0..64 {
        if from >= to {
            return from;
        }
        let middle = from + (to - from) / 2;
        let Some(one) = numbers.get(middle) else {
            return from;
        };
        if *one < number {
            from = middle + 1;
        } else {
            to = middle;
        }
    }
    from
}

// Whether each number before a place is less than this one: the last of them is.
fn are_less_before(numbers: &[i64], place: usize, low: i64) -> bool
    requires { AreRising numbers.now }
    ensures { IsTrue result → (k : ℕ) (n : ℤ) → k < place → slice_get numbers.now k ≡ Some n → n <ℤ low }
{
    if place == 0 {
        return true;
    }
    if place > numbers.len() {
        return false;
    }
    is_smaller(&numbers[place - 1], &low)
}

// Whether each number from a place on is greater than this one: the first of them is.
fn are_greater_from(numbers: &[i64], place: usize, high: i64) -> bool
    requires { AreRising numbers.now }
    ensures { IsTrue result → (k : ℕ) (n : ℤ) → place ≤ k → slice_get numbers.now k ≡ Some n → high <ℤ n }
{
    if place >= numbers.len() {
        return true;
    }
    is_smaller(&high, &numbers[place])
}

// The same of texts.
fn texts_are_less_before(texts: &[ArcStr], place: usize, low: &str) -> bool
    requires { AreInOrder texts.now }
    ensures { IsTrue result → AreLessBefore place low.now texts.now }
{
    if place == 0 {
        return true;
    }
    if place > texts.len() {
        return false;
    }
    is_less(texts[place - 1].as_str(), low)
}

fn texts_are_greater_from(texts: &[ArcStr], place: usize, high: &str) -> bool
    requires { AreInOrder texts.now }
    ensures { IsTrue result → AreGreaterFrom place high.now texts.now }
{
    if place >= texts.len() {
        return true;
    }
    is_less(high, texts[place].as_str())
}

// Whether this number is at a place.
fn is_at(numbers: &[i64], place: usize, number: i64) -> bool
    ensures { IsTrue result → slice_get numbers.now place ≡ Some number }
{
    if place >= numbers.len() {
        return false;
    }
    numbers[place] == number
}

// Whether this text is at a place.
fn is_text_at(texts: &[ArcStr], place: usize, text: &str) -> bool
    ensures { IsTrue result → is_word_among texts.now (text_datum text.now) ≡ true }
{
    if place >= texts.len() {
        return false;
    }
    texts[place].as_str() == text
}

impl Constants {
    /// Whether each number from `low` to `high` is one of these; None where some are, and others aren't.
    fn have_numbers(&self, low: i64, high: i64) -> Option<bool>
        requires { AreRising self.now.numbers.items }
        ensures { IfSome result (λ b. (v : Datum) → is_number_in low high v ≡ true → is_constant_among self.now v ≡ b) }
    {
        let place = first_number(&self.numbers, low);
        if low == high && is_at(&self.numbers, place, low) {
            return Some(true);
        }
        if !are_less_before(&self.numbers, place, low) {
            return None;
        }
        if !are_greater_from(&self.numbers, place, high) {
            return None;
        }
        Some(false)
    }

    /// Whether each of these words, which are in order, is one of the texts; None where some are, and others aren't.
    fn have_words(&self, words: &[ArcStr]) -> Option<bool>
        requires { AreInOrder self.now.texts.items }
        ensures { IfSome result (λ b. (v : Datum) → is_word words.now v ≡ true → is_constant_among self.now v ≡ b) }
    {
        let count = words.len();
        if count == 0 {
            return None;
        }
        let first = words[0].as_str();
        let place = first_text(&self.texts, first);
        if count == 1 && is_text_at(&self.texts, place, first) {
            return Some(true);
        }
        if !texts_are_less_before(&self.texts, place, first) {
            return None;
        }
        if !texts_are_greater_from(&self.texts, place, words[count - 1].as_str()) {
            return None;
        }
        Some(false)
    }
}

impl Listing {
    /// The listing that these tests are, where they are many, and ask for constants alone.
    pub(crate) fn of(alloc: Global, tests: &Tests) -> Result<Option<Listing>, AllocError>
        ensures { IfOk result (λ found. IfSome found (λ l. IsListing l tests.now)) }
    {
        match tests.tree() {
            TestsTree::Any => Ok(None),
            TestsTree::OneOf(tests) => {
                let listing = listing_of(alloc, tests, false)?;
                Ok(listing)
            }
            TestsTree::NoneOf(tests) => {
                let listing = listing_of(alloc, tests, true)?;
                Ok(listing)
            }
        }
    }

    // Whether it is known that the values of which each is listed, or none is, meet the tests, or that none does, as is asked.
    fn is_sure(&self, listed: Option<bool>, met: bool) -> bool
        ensures settles { IsTrue result → (b : Bool) → listed ≡ Some b → Settles met (Told (answer_listed self.now.is_barred b)) }
        ensures known { IsTrue result → listed ≡ None → ⊥ }
    {
        match listed {
            Some(listed) => (listed != self.is_barred) == met,
            None => false,
        }
    }

    /// Whether it is known that each number from one to another meets the tests, or that none does, as is asked.
    pub(crate) fn numbers_are_sure(&self, low: i64, high: i64, met: bool) -> bool
        requires { AreRising self.now.constants.numbers.items }
        ensures { IsTrue result → (v : Datum) → is_number_in low high v ≡ true → Settles met (Told (answer_listed self.now.is_barred (is_constant_among self.now.constants v))) }
    {
        let listed = self.constants.have_numbers(low, high);
        self.is_sure(listed, met)
    }

    /// The same of words, which are in order.
    pub(crate) fn words_are_sure(&self, words: &[ArcStr], met: bool) -> bool
        requires { AreInOrder self.now.constants.texts.items }
        ensures { IsTrue result → (v : Datum) → is_word words.now v ≡ true → Settles met (Told (answer_listed self.now.is_barred (is_constant_among self.now.constants v))) }
    {
        let listed = self.constants.have_words(words);
        self.is_sure(listed, met)
    }

    /// The listed numbers that are greater than one and not greater than another. Nothing is promised of it.
    pub(crate) fn numbers_in(&self, low: i64, high: i64) -> &[i64] {
        let numbers = &self.constants.numbers;
        let from = first_number(numbers, low);
        let to = match high.checked_add(1) {
            Some(next) => first_number(numbers, next),
            None => numbers.len(),
        };
        if from < to && to <= numbers.len() {
            &numbers[from..to]
        } else {
            &[]
        }
    }
}
