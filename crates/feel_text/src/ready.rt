//! What unary tests ask of a value, where that is known when they are read.

ghost use Rattle.std.specs.Prelude.{◌≡◌, ◌&&◌, true, false, Some, IsTrue, IfOk, IfSome};
ghost use Rattle.std.specs.List.{All};
ghost use Rattle.feel_value.specs.Comparison.{equal};
ghost use Rattle.feel_value.specs.Datum.{Datum, number as number_datum};
ghost use Rattle.feel_value.specs.Limits.{is_value};
ghost use Rattle.feel_value.specs.Logic.{is_yes, decided};
ghost use Rattle.feel_value.specs.View.{datum_of, items_view};
ghost use Rattle.feel_value.specs.declared.feel.Outcome.TheVariants.{Is};
ghost use Rattle.feel_text.specs.Classes.{IsApart, is_in_class};
ghost use Rattle.feel_text.specs.Constants.{expr_of_constant};
ghost use Rattle.feel_text.specs.Meaning.{Bindings, den};
ghost use Rattle.feel_text.specs.Ready.{lies_within, told, Meets, AreReady};
ghost use Rattle.feel_text.specs.Sieves.{lets_through};
ghost use Rattle.feel_text.specs.Satisfied.{Told, is_member, stands_to, tested, tested_any, low_bound, high_bound};
ghost use Rattle.feel_text.specs.Expr.{Negate};
ghost use Rattle.feel_text.specs.Tests.{OneOf, NoneOf, Equals};
ghost use Rattle.feel_text.specs.TestsView.{bound_view, test_view, test_views, tests_view};
ghost use Rattle.feel_text.specs.View.{view};

use crate::class::{Class, is_apart};
use crate::constant::Constant;
use crate::expr::Tree;
use crate::sieve::Sieve;
use crate::unary::{Bound, Test, TestsTree, high_end, low_end};
use feel_value::Value;
use std::alloc::{AllocError, Global};

/// The numbers from one to another, both included.
#[derive(Clone, Copy, Debug)]
pub(crate) struct Span {
    low: i64,
    high: i64,
}

/// What tests ask of a value, whatever the names stand for.
#[derive(Drop)]
pub(crate) enum Ready {
    /// Every value meets them.
    Any,
    /// The numbers of a span meet them, and nothing else does.
    Numbers(Span),
    /// What equals one of these values meets them, and nothing else does.
    Among(Vec<Value>),
    /// What equals one of these values doesn't meet them, and all else does.
    Besides(Vec<Value>),
    /// It isn't known.
    General,
}

impl Span {
    // One number.
    fn of(n: i64) -> Span
        ensures { (v : Datum) → lies_within result v ≡ is_yes (equal v (number_datum n)) }
    {
        Span { low: n, high: n }
    }

    // Whether the value is a number of the span.
    fn has(self, value: &Value) -> bool
        ensures { result ≡ lies_within self (datum_of value.now) }
    {
        match value {
            Value::Number(n) => self.low <= *n && *n <= self.high,
            _ => false,
        }
    }

    // Adds the first number of the span and the first behind it, where others stand before these.
    fn cuts(self, cuts: &mut Vec<i64>) -> Result<(), AllocError> {
        if self.low > i64::MIN {
            cuts.push(self.low)?;
        }
        if let Some(next) = self.high.checked_add(1) {
            cuts.push(next)?;
        }
        Ok(())
    }

    // Whether no value of the class is a number of the span.
    fn is_apart(self, class: Class) -> bool
        ensures { IsTrue result → (v : Datum) → is_in_class class v ≡ true → lies_within self v ≡ false }
    {
        match class {
            Class::Numbers(low, high) => self.high < low || high < self.low,
            _ => true,
        }
    }

    // What lets through the numbers of the span.
    fn sieve(self) -> Sieve
        ensures { (v : Datum) → lets_through result v ≡ lies_within self v }
    {
        Sieve::Numbers(self.low, self.high)
    }

    // The numbers that both spans have.
    fn both(self, other: Span) -> Span
        ensures { (v : Datum) → lies_within result v ≡ (lies_within self v && lies_within other v) }
    {
        Span {
            low: self.low.max(other.low),
            high: self.high.min(other.high),
        }
    }
}

impl Ready {
    /// What tests ask, as far as that is known when they are read.
    pub(crate) fn of(alloc: Global, tests: &TestsTree) -> Result<Ready, AllocError>
        ensures { IfOk result (λ r. AreReady r (tests_view tests.now)) }
    {
        match tests {
            TestsTree::Any => Ok(Ready::Any),
            TestsTree::OneOf(tests) => one_of(alloc, tests),
            TestsTree::NoneOf(tests) => none_of(alloc, tests),
        }
    }

    /// Whether a value meets the tests, where that is known.
    pub(crate) fn told(&self, value: &Value) -> Option<bool>
        ensures { result ≡ told self.now (datum_of value.now) }
    {
        match self {
            Ready::Any => Some(true),
            Ready::Numbers(span) => Some(span.has(value)),
            Ready::Among(values) => Some(contains(values, value)),
            Ready::Besides(values) => Some(!contains(values, value)),
            Ready::General => None,
        }
    }

    /// Adds the numbers at which the answer changes.
    pub(crate) fn cuts(&self, cuts: &mut Vec<i64>) -> Result<(), AllocError> {
        match self {
            Ready::Numbers(span) => span.cuts(cuts),
            Ready::Among(values) | Ready::Besides(values) => {
                for value in values {
                    if let Value::Number(n) = value {
                        Span::of(*n).cuts(cuts)?;
                    }
                }
                Ok(())
            }
            Ready::Any | Ready::General => Ok(()),
        }
    }

    /// Whether a text may be all that meets the tests.
    pub(crate) fn ask_for_texts(&self) -> bool {
        match self {
            Ready::Among(values) => values.iter().any(|value| matches!(value, Value::Text(_))),
            Ready::Any | Ready::Numbers(_) | Ready::Besides(_) | Ready::General => false,
        }
    }

    /// Whether no value of the class meets the tests, as is known of each of them. False says nothing.
    pub(crate) fn misses(&self, class: Class) -> bool
        ensures { IsTrue result → (v : Datum) → is_in_class class v ≡ true → told self.now v ≡ Some false }
    {
        match self {
            Ready::Numbers(span) => span.is_apart(class),
            Ready::Among(values) => are_apart(values, class),
            Ready::Any | Ready::Besides(_) | Ready::General => false,
        }
    }

    /// Which values may meet the tests, as far as that is known.
    pub(crate) fn sieve(&self) -> Sieve
        ensures { (v : Datum) → lets_through result v ≡ false → told self.now v ≡ Some false }
    {
        match self {
            Ready::Numbers(span) => span.sieve(),
            Ready::Among(values) => Sieve::of_values(values),
            Ready::Any | Ready::Besides(_) | Ready::General => Sieve::All,
        }
    }
}

/// Whether no value of the class is equal to one of these. False says nothing.
fn are_apart(values: &[Value], class: Class) -> bool
    ensures { IsTrue result → All (λ d. IsApart class d) values.now }
{
    values.iter().all(|value| is_apart(value, class))
}

/// Whether a member of the list is equal to the value.
pub fn contains(items: &[Value], value: &Value) -> bool
    ensures { result ≡ is_member (datum_of value.now) (items_view items.now) }
{
    for item in items {
        if value.is_equal(item) {
            return true;
        }
    }
    false
}

// The number of a literal.
fn literal_number(constant: &Constant) -> Option<i64>
    ensures { IfSome result (λ n. (m : Bindings) → den (expr_of_constant constant.now) m ≡ Is (number_datum n)) }
{
    match constant.value().value() {
        Value::Number(n) => Some(*n),
        _ => None,
    }
}

// The number that an expression is, where it is a literal, with a `-` or without.
fn number(expr: &Tree) -> Option<i64>
    ensures { IfSome result (λ n. (m : Bindings) → den (view expr.now) m ≡ Is (number_datum n)) }
{
    match expr {
        Tree::Constant(constant) => {
            let n = literal_number(constant)?;
            Some(n)
        }
        Tree::Negate(inner) => {
            let n = opposite(inner)?;
            Some(n)
        }
        _ => None,
    }
}

// The number that the opposite of an expression is, where that is a literal.
fn opposite(inner: &Tree) -> Option<i64>
    ensures { IfSome result (λ n. (m : Bindings) → den (Negate (view inner.now)) m ≡ Is (number_datum n)) }
{
    let Tree::Constant(constant) = inner else {
        return None;
    };
    let n = literal_number(constant)?;
    let opposite = 0i64.checked_sub(n)?;
    Some(opposite)
}

// The numbers that stand so to a number.
fn bounded(bound: Bound, n: i64) -> Option<Span>
    ensures { IfSome result (λ s. (v : Datum) → is_value v ≡ true → is_yes (stands_to (bound_view bound) v (number_datum n)) ≡ lies_within s v) }
{
    let (low, high) = match bound {
        Bound::Below => (i64::MIN, n.checked_sub(1)?),
        Bound::AtMost => (i64::MIN, n),
        Bound::Above => (n.checked_add(1)?, i64::MAX),
        Bound::AtLeast => (n, i64::MAX),
    };
    Some(Span { low, high })
}

// The numbers that meet a test, where it asks for a number and nothing else meets it.
fn numbers(test: &Test) -> Option<Span>
    ensures { IfSome result (λ s. (v : Datum) (m : Bindings) → is_value v ≡ true → Meets (tested (test_view test.now) v m) (lies_within s v)) }
{
    match test {
        Test::Compares(bound, expr) => {
            let span = bounded(*bound, number(expr)?)?;
            Some(span)
        }
        Test::Interval(closed_low, low, high, closed_high) => {
            let low = bounded(low_end(*closed_low), number(low)?)?;
            let high = bounded(high_end(*closed_high), number(high)?)?;
            Some(low.both(high))
        }
        Test::Equals(expr) => {
            let n = number(expr)?;
            Some(Span::of(n))
        }
    }
}

// The value of a literal.
fn literal(expr: &Tree) -> Option<&Value>
    ensures { IfSome result (λ d. (v : Datum) (m : Bindings) → tested (Equals (view expr.now)) v m ≡ Told (decided (is_yes (equal v (datum_of d.now))))) }
{
    match expr {
        Tree::Constant(constant) => Some(constant.value().value()),
        _ => None,
    }
}

// The constant that a test asks the value to equal.
fn constant(test: &Test) -> Result<Option<Value>, AllocError>
    ensures { IfOk result (λ found. IfSome found (λ d. (v : Datum) (m : Bindings) → tested (test_view test.now) v m ≡ Told (decided (is_yes (equal v (datum_of d)))))) }
{
    let Test::Equals(expr) = test else {
        return Ok(None);
    };
    if let Some(n) = number(expr) {
        return Ok(Some(Value::Number(n)));
    }
    let Some(value) = literal(expr) else {
        return Ok(None);
    };
    Ok(Some(value.try_clone()?))
}

// The constants of tests that each ask the value to equal one.
fn constants(alloc: Global, tests: &[Test]) -> Result<Option<Vec<Value>>, AllocError>
    ensures { IfOk result (λ found. IfSome found (λ ds. (v : Datum) (m : Bindings) → tested_any (test_views tests.now) v m ≡ Told (decided (is_member v (items_view ds.items))))) }
{
    let mut found = Vec::new(alloc);
    for test in tests {
        let Some(value) = constant(test)? else {
            return Ok(None);
        };
        found.push(value)?;
    }
    Ok(Some(found))
}

// What a list of tests asks where one of them has to be met.
fn one_of(alloc: Global, tests: &[Test]) -> Result<Ready, AllocError>
    ensures { IfOk result (λ r. AreReady r (OneOf (test_views tests.now))) }
{
    if let [test] = tests {
        if let Some(span) = numbers(test) {
            return Ok(Ready::Numbers(span));
        }
    }
    match constants(alloc, tests)? {
        Some(values) => Ok(Ready::Among(values)),
        None => Ok(Ready::General),
    }
}

// What a list of tests asks where none of them may be met.
fn none_of(alloc: Global, tests: &[Test]) -> Result<Ready, AllocError>
    ensures { IfOk result (λ r. AreReady r (NoneOf (test_views tests.now))) }
{
    match constants(alloc, tests)? {
        Some(values) => Ok(Ready::Besides(values)),
        None => Ok(Ready::General),
    }
}
