//! Comparisons and logic on sets of values.
ghost use Rattle.std.specs.Prelude.{◌≡◌, ◌&&◌, ◌||◌};
ghost use Rattle.dmn_ranges.specs.Steps.{less_truths as less_truths_of, equal_truths as equal_truths_of, operated as operated_of, between as between_of, inverted as inverted_of, has_only as has_only_of, is_alike as is_alike_of, is_not_null as is_not_null_of, can_equal as can_equal_of, can_differ as can_differ_of};

use crate::interval::{are_less, reach};
use crate::numbers::arithmetic;
use crate::outcomes::Outcomes;
use crate::range::{Range, both, either};
use crate::truths::{Truths, and_truths, opposite, or_truths, told, truths_in};
use feel_text::Operator;

/// Whether a value of the first is less than one of the second.
pub(crate) fn less_truths(a: Range, b: Range) -> Truths
    ensures { result ≡ less_truths_of a b }
{
    let texts = both(a.texts.is_some(), b.texts.is_some());
    Truths {
        yes: either(are_less(a.numbers, b.numbers), texts),
        no: either(reach(a.numbers, b.numbers), texts),
        unknown: both(
            either(a.is_other(), b.is_other()),
            either(a.is_other_than_text(), b.is_other_than_text()),
        ),
    }
}

// Whether all values are null, or of one kind where this is said.
fn has_only(a: Range, truths: bool, numbers: bool, texts: bool) -> bool
    ensures { result ≡ has_only_of a truths numbers texts }
{
    both(
        both(
            either(truths, !either(a.trues, a.falses)),
            either(numbers, !a.numbers.is_some()),
        ),
        both(
            either(texts, !a.texts.is_some()),
            !either(a.lists, a.contexts),
        ),
    )
}

// Whether it is known of any value of the first and any of the second whether they are equal.
fn is_alike(a: Range, b: Range) -> bool
    ensures { result ≡ is_alike_of a b }
{
    either(
        either(
            has_only(a, false, false, false),
            has_only(b, false, false, false),
        ),
        either(
            both(
                has_only(a, true, false, false),
                has_only(b, true, false, false),
            ),
            either(
                both(
                    has_only(a, false, true, false),
                    has_only(b, false, true, false),
                ),
                both(
                    has_only(a, false, false, true),
                    has_only(b, false, false, true),
                ),
            ),
        ),
    )
}

/// Whether some value is not null.
pub(crate) fn is_not_null(range: Range) -> bool
    ensures { result ≡ is_not_null_of range }
{
    either(
        either(range.trues, range.falses),
        either(
            range.numbers.is_some(),
            either(range.texts.is_some(), either(range.lists, range.contexts)),
        ),
    )
}

// Whether both have lists or contexts, of whose parts nothing is known.
fn share_a_kind(a: Range, b: Range) -> bool
    ensures { result ≡ ((a.lists && b.lists) || (a.contexts && b.contexts)) }
{
    either(both(a.lists, b.lists), both(a.contexts, b.contexts))
}

// Whether some value of the first is equal to one of the second.
fn can_equal(a: Range, b: Range) -> bool
    ensures { result ≡ can_equal_of a b }
{
    let meet = both(reach(a.numbers, b.numbers), reach(b.numbers, a.numbers));
    either(
        either(
            both(a.nulls, b.nulls),
            either(both(a.trues, b.trues), both(a.falses, b.falses)),
        ),
        either(meet, either(a.texts.meet(&b.texts), share_a_kind(a, b))),
    )
}

// Whether some value of the first is not equal to one of the second.
fn can_differ(a: Range, b: Range) -> bool
    ensures { result ≡ can_differ_of a b }
{
    let part = either(
        are_less(a.numbers, b.numbers),
        are_less(b.numbers, a.numbers),
    );
    either(
        either(
            either(both(a.nulls, is_not_null(b)), both(b.nulls, is_not_null(a))),
            either(both(a.trues, b.falses), both(a.falses, b.trues)),
        ),
        either(part, either(a.texts.differ(&b.texts), share_a_kind(a, b))),
    )
}

/// Whether a value of the first is equal to one of the second.
pub(crate) fn equal_truths(a: Range, b: Range) -> Truths
    ensures { result ≡ equal_truths_of a b }
{
    Truths {
        yes: can_equal(a, b),
        no: can_differ(a, b),
        unknown: !is_alike(a, b),
    }
}

/// What an operator gives.
pub(crate) fn operated(operator: Operator, a: Range, b: Range) -> Outcomes
    ensures { result ≡ operated_of operator a b }
{
    match operator {
        Operator::Or => told(or_truths(truths_in(a), truths_in(b))),
        Operator::And => told(and_truths(truths_in(a), truths_in(b))),
        Operator::Equal => told(equal_truths(a, b)),
        Operator::NotEqual => told(opposite(equal_truths(a, b))),
        Operator::Less => told(less_truths(a, b)),
        Operator::LessEqual => told(opposite(less_truths(b, a))),
        Operator::Greater => told(less_truths(b, a)),
        Operator::GreaterEqual => told(opposite(less_truths(a, b))),
        Operator::Add | Operator::Subtract | Operator::Multiply => arithmetic(operator, a, b),
    }
}

/// Whether a value lies between two others.
pub(crate) fn between(a: Range, low: Range, high: Range) -> Outcomes
    ensures { result ≡ between_of a low high }
{
    told(and_truths(
        opposite(less_truths(a, low)),
        opposite(less_truths(high, a)),
    ))
}

/// What `not` gives.
pub(crate) fn inverted(a: Range) -> Outcomes
    ensures { result ≡ inverted_of a }
{
    told(opposite(truths_in(a)))
}
