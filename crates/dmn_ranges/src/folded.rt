//! What is known of the members of written lists.
ghost use Rattle.std.specs.Prelude.{◌≡◌, ◌+◌, ℕ, Some};
ghost use Rattle.dmn_ranges.specs.Folds.{IsNearIf};
ghost use Rattle.dmn_ranges.specs.Numbers.{AreNear};
ghost use Rattle.dmn_ranges.specs.Steps.{first_member, with_member as with_member_of};

use crate::outcomes::Outcomes;
use crate::parts::Parts;
use crate::range::either;
use crate::span::{Span, folded_if, widened_if};
use feel_text::Function;

/// What is known of the first members of a written list.
#[derive(Clone, Copy)]
pub(crate) struct Folded {
    pub(crate) parts: Parts,
    /// What the function makes of them where all are numbers. None where they can't be.
    pub(crate) numbers: Option<Span>,
    /// Whether one can be no number.
    pub(crate) others: bool,
}

// Of the first member.
fn first(member: Outcomes) -> Folded
    ensures same { result ≡ first_member member }
    ensures near { AreNear 1 result.numbers }
{
    Folded {
        parts: Parts::none().with(member),
        numbers: widened_if(member.range.numbers),
        others: member.range.is_other(),
    }
}

// Of these members and one more.
fn next(function: Function, folded: Folded, member: Outcomes) -> Folded
    requires { AreNear 9223372036854775808 folded.numbers }
    ensures same { result ≡ with_member_of function (Some folded) member }
    ensures near { (n : ℕ) → AreNear n folded.numbers → AreNear (n + 1) result.numbers }
{
    Folded {
        parts: folded.parts.with(member),
        numbers: folded_if(function, folded.numbers, widened_if(member.range.numbers)),
        others: either(folded.others, member.range.is_other()),
    }
}

/// The first members with one more.
pub(crate) fn with_member(function: Function, folded: Option<Folded>, member: Outcomes) -> Folded
    requires { IsNearIf 9223372036854775808 folded }
    ensures same { result ≡ with_member_of function folded member }
    ensures near { (n : ℕ) → IsNearIf n folded → AreNear (n + 1) result.numbers }
{
    match folded {
        Some(folded) => next(function, folded, member),
        None => first(member),
    }
}
