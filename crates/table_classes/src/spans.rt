//! Classes of numbers that rise, among which those that a span meets are found by halving.
ghost use Rattle.std.specs.Prelude.{◌≡◌, ◌<◌, ◌≤◌, ℕ, IfSome, IsTrue, length, true, false};
ghost use Rattle.table_classes.specs.Spans.{AreSpans, IsUnsetAt, is_above, is_below, is_of_numbers, precedes, class_at};

use feel_lang::Class;

/// Whether the class is of no numbers, or of numbers below this one.
fn ends_below(class: Class, low: i64) -> bool
    ensures { result ≡ is_below low class }
{
    match class {
        Class::Numbers(_, last) => last < low,
        _ => true,
    }
}

/// Whether the class is of no numbers, or of numbers above this one.
fn begins_above(class: Class, high: i64) -> bool
    ensures { result ≡ is_above high class }
{
    match class {
        Class::Numbers(first, _) => high < first,
        _ => true,
    }
}

/// Whether both are classes of numbers, which rise.
fn rise(one: Class, next: Class) -> bool
    ensures { result ≡ precedes one next }
{
    match (one, next) {
        (Class::Numbers(a, b), Class::Numbers(c, d)) => a < c && b < d,
        _ => false,
    }
}

/// How many classes from the first on rise.
fn rising(classes: &[Class]) -> usize
    ensures { (j k : ℕ) → j < k → k < result → precedes (class_at classes.now j) (class_at classes.now k) ≡ true }
{
    if classes.is_empty() {
        return 0;
    }
    let mut count = 1;
    while count < classes.len() && rise(classes[count - 1], classes[count]) {
        count += 1;
    }
    count
}

/// Whether no class from this place on is of numbers.
fn none_from(classes: &[Class], place: usize) -> bool
    ensures { IsTrue result → (k : ℕ) → place ≤ k → is_of_numbers (class_at classes.now k) ≡ false }
{
    for k in place..classes.len() {
        if let Class::Numbers(_, _) = classes[k] {
            return false;
        }
    }
    true
}

/// How many classes are of numbers, if these are the first ones and rise.
pub fn spans_of(classes: &[Class]) -> Option<usize>
    ensures { IfSome result (AreSpans classes.now) }
{
    let count = rising(classes);
    if none_from(classes, count) {
        return Some(count);
    }
    None
}

/// The place of the first class of numbers that are not all below this one.
pub fn start_of(classes: &[Class], count: usize, low: i64) -> usize
    requires { AreSpans classes.now count }
    ensures { (k : ℕ) → k < result → is_below low (class_at classes.now k) ≡ true }
{
    let mut from = 0;
    let mut to = count.min(classes.len());
    while from < to {
        let middle = from + (to - from) / 2;
        if ends_below(classes[middle], low) {
            from = middle + 1;
        } else {
            to = middle;
        }
    }
    from
}

/// The place of the first class from which on all numbers are above this one.
pub fn end_of(classes: &[Class], count: usize, high: i64) -> usize
    requires { AreSpans classes.now count }
    ensures { (k : ℕ) → result ≤ k → is_above high (class_at classes.now k) ≡ true }
{
    let mut from = 0;
    let mut to = count.min(classes.len());
    while from < to {
        let middle = from + (to - from) / 2;
        if begins_above(classes[middle], high) {
            to = middle;
        } else {
            from = middle + 1;
        }
    }
    to
}

/// Sets a bit in each word from one place to another.
pub fn set_bits(words: &mut [u64], from: usize, to: usize, bit: usize)
    requires { bit < 64 }
    ensures length { length words.new ≡ length words.old }
    ensures kept { (k i : ℕ) → IsUnsetAt words.new k i → IsUnsetAt words.old k i }
    ensures set { (k : ℕ) → from ≤ k → k < to → IsUnsetAt words.new k bit → ⊥ }
{
    for k in from..to.min(words.len()) {
        words[k] |= 1 << bit;
    }
}
