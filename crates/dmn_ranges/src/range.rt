//! Sets of values.
ghost use Rattle.std.specs.Prelude.{◌≡◌, ◌&&◌, ◌||◌, Some, None};
ghost use Rattle.dmn_ranges.specs.Ranges.{null_alone};
ghost use Rattle.dmn_ranges.specs.Steps.{nothing as no_value, anything, everything, joined as joined_of, is_other as is_other_of, any_of_size as any_of_size_of, lists_of as lists_of_size, contexts_of as contexts_of_size, is_other_than_text as is_other_than_text_of, is_other_than_list as is_other_than_list_of, are_numbers as are_numbers_of, size_of as size_of_range, text_alone, numbers_or_null as numbers_or_null_of};

use crate::interval::{Interval, hull};
use crate::size::Size;
use crate::texts::Texts;
use std::sync::ArcStr;

/// A set of values: null, the truth values, the numbers of an interval, texts, lists and contexts.
#[derive(Clone, Copy, Debug, PartialEq, Eq)]
pub struct Range {
    pub nulls: bool,
    pub trues: bool,
    pub falses: bool,
    pub numbers: Option<Interval>,
    pub texts: Texts,
    pub lists: bool,
    pub contexts: bool,
    /// How large the lists and the contexts are at most.
    pub size: Size,
}

/// What a member of a value can be.
#[derive(Drop)]
pub struct MemberRange {
    /// The path to it: the names after the value's own, the last one first.
    pub path: Vec<String>,
    pub range: Range,
}

/// What a parameter can be, and what some of its members can be.
#[derive(Drop)]
pub struct ParameterRange {
    pub range: Range,
    pub members: Vec<MemberRange>,
}

/// What a name can stand for.
#[derive(Drop)]
pub struct NamedRange {
    pub name: ArcStr,
    pub range: Range,
}

pub(crate) fn either(a: bool, b: bool) -> bool
    ensures { result ≡ a || b }
{
    a || b
}

pub(crate) fn both(a: bool, b: bool) -> bool
    ensures { result ≡ a && b }
{
    a && b
}

impl Range {
    /// No value.
    pub fn nothing() -> Range
        ensures { result ≡ no_value }
    {
        Range::numbers_or_null(false, None)
    }

    /// Null alone.
    pub fn null() -> Range
        ensures { result ≡ null_alone }
    {
        Range::numbers_or_null(true, None)
    }

    /// Any value.
    pub fn any() -> Range
        ensures { result ≡ anything }
    {
        Range::any_of_size(Size::any())
    }

    /// Any value, but lists and contexts of this size alone.
    pub(crate) fn any_of_size(size: Size) -> Range
        ensures { result ≡ any_of_size_of size }
    {
        Range {
            nulls: true,
            trues: true,
            falses: true,
            numbers: every_number(),
            texts: Texts::Any,
            lists: true,
            contexts: true,
            size,
        }
    }

    /// Lists of this size.
    pub(crate) fn lists_of(size: Size) -> Range
        ensures { result ≡ lists_of_size size }
    {
        Range {
            nulls: false,
            trues: false,
            falses: false,
            numbers: None,
            texts: Texts::none(),
            lists: true,
            contexts: false,
            size,
        }
    }

    /// Contexts of this size.
    pub(crate) fn contexts_of(size: Size) -> Range
        ensures { result ≡ contexts_of_size size }
    {
        Range {
            nulls: false,
            trues: false,
            falses: false,
            numbers: None,
            texts: Texts::none(),
            lists: false,
            contexts: true,
            size,
        }
    }

    /// Numbers, and null where this is said.
    pub(crate) fn numbers_or_null(nulls: bool, numbers: Option<Interval>) -> Range
        ensures { result ≡ numbers_or_null_of nulls numbers }
    {
        Range {
            nulls,
            trues: false,
            falses: false,
            numbers,
            texts: Texts::none(),
            lists: false,
            contexts: false,
            size: Size::none(),
        }
    }

    /// One text.
    pub(crate) fn text(text: &str) -> Range
        ensures { result ≡ text_alone text.now }
    {
        Range {
            nulls: false,
            trues: false,
            falses: false,
            numbers: None,
            texts: Texts::one(text),
            lists: false,
            contexts: false,
            size: Size::none(),
        }
    }

    /// Whether some value is no number.
    pub(crate) fn is_other(&self) -> bool
        ensures { result ≡ is_other_of self.now }
    {
        either(
            either(self.nulls, either(self.trues, self.falses)),
            either(self.texts.is_some(), either(self.lists, self.contexts)),
        )
    }

    /// Whether some value is no text.
    pub(crate) fn is_other_than_text(&self) -> bool
        ensures { result ≡ is_other_than_text_of self.now }
    {
        either(
            either(self.nulls, either(self.trues, self.falses)),
            either(self.numbers.is_some(), either(self.lists, self.contexts)),
        )
    }

    /// Whether some value is no list.
    pub(crate) fn is_other_than_list(&self) -> bool
        ensures { result ≡ is_other_than_list_of self.now }
    {
        either(
            either(self.nulls, either(self.trues, self.falses)),
            either(
                self.numbers.is_some(),
                either(self.texts.is_some(), self.contexts),
            ),
        )
    }

    /// How large a value can be; past where it can be no value.
    pub(crate) fn size_of(&self) -> Size
        ensures { result ≡ size_of_range self.now }
    {
        let scalar = Size { nodes: 1, depth: 1 };
        let size = self.size.larger(scalar);
        if are_numbers(self.numbers) {
            size
        } else {
            Size {
                nodes: Size::any().nodes,
                depth: size.depth,
            }
        }
    }
}

/// Every number of the range of numbers.
pub(crate) fn every_number() -> Option<Interval>
    ensures { result ≡ Some everything }
{
    Some(Interval {
        low: -i64::MAX,
        high: i64::MAX,
    })
}

/// Whether each number is one of the range of numbers.
pub(crate) fn are_numbers(numbers: Option<Interval>) -> bool
    ensures { result ≡ are_numbers_of numbers }
{
    match numbers {
        Some(numbers) => -i64::MAX <= numbers.low && numbers.high <= i64::MAX,
        None => true,
    }
}

/// A set with the values of both.
pub(crate) fn joined(a: Range, b: Range) -> Range
    ensures { result ≡ joined_of a b }
{
    Range {
        nulls: either(a.nulls, b.nulls),
        trues: either(a.trues, b.trues),
        falses: either(a.falses, b.falses),
        numbers: hull(a.numbers, b.numbers),
        texts: a.texts.joined(b.texts),
        lists: either(a.lists, b.lists),
        contexts: either(a.contexts, b.contexts),
        size: a.size.larger(b.size),
    }
}
