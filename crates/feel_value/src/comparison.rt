//! Which values are equal, and which is less.
ghost use Rattle.std.specs.Prelude.{◌≡◌, ◌&&◌, IfSome, IsTrue, false};
ghost use Rattle.feel_value.specs.Comparison.{equal as equal_of, less as less_of, items_equal, values_equal as values_match, names_within as has_names, has_entry};
ghost use Rattle.feel_value.specs.Limits.{has_name as is_name_of};
ghost use Rattle.feel_value.specs.Names.{lent, same_names, pairs_equal};
ghost use Rattle.feel_value.specs.Logic.{is_yes};
ghost use Rattle.feel_value.specs.View.{datum_of, items_view, entries_view};

use crate::by_name::{FEW, by_name};
use crate::feel::Feel;
use crate::logic::{Truth, decided};
use crate::names::find;
use crate::value::{Value, ValueContext};
use std::sync::ArcStr;

/// Whether two values are equal.
///
/// Lists and contexts are compared part by part. Nothing but null is equal to null, and of values of two other kinds the
/// answer is unknown. Two contexts with other numbers of entries are told apart in constant time. The time is linear in the
/// nodes where the entries of two contexts come in one order, or one of the two has at most 16. Others are put in the order of
/// their names: for `n` entries that takes about `n * log n` comparisons of names, and memory that is given back. Where the heap
/// has none left each name is looked for, in up to `2 * n * n` comparisons.
pub fn equal(a: &Feel, b: &Feel) -> Truth
    ensures answer { result ≡ equal_of a.now b.now }
    ensures itself { a.now ≡ b.now → result ≡ Truth.Yes }
{
    same_value(a.value(), b.value())
}

/// Whether one number or text is less than another: numbers by size, texts by code points.
pub fn less(a: &Feel, b: &Feel) -> Truth
    ensures { result ≡ less_of a.now b.now }
{
    less_value(a.value(), b.value())
}

pub(crate) fn less_value(a: &Value, b: &Value) -> Truth
    ensures { result ≡ less_of (datum_of a.now) (datum_of b.now) }
{
    match (a, b) {
        (Value::Number(x), Value::Number(y)) => decided(*x < *y),
        (Value::Text(x), Value::Text(y)) => decided(x.as_str() < y.as_str()),
        _ => Truth::Unknown,
    }
}

#[cycle(same)]
#[inline(always)]
pub(crate) fn same_value(a: &Value, b: &Value) -> Truth
    ensures { result ≡ equal_of (datum_of a.now) (datum_of b.now) }
{
    match (a, b) {
        (Value::Null, Value::Null) => Truth::Yes,
        (Value::Null, _) | (_, Value::Null) => Truth::No,
        (Value::Bool(x), Value::Bool(y)) => decided(*x == *y),
        (Value::Number(x), Value::Number(y)) => decided(*x == *y),
        (Value::Text(x), Value::Text(y)) => decided(x.as_str() == y.as_str()),
        (Value::List(x), Value::List(y)) => decided(same_items(x.values(), y.values())),
        (Value::Context(x), Value::Context(y)) => {
            if differ_in_count(x, y) {
                return Truth::No;
            }
            decided(same_contexts(x.entries_on_heap(), y.entries_on_heap()))
        }
        _ => Truth::Unknown,
    }
}

// Whether they have other numbers of entries, and the names of each are known to be distinct: then one of them has a name that
// the other lacks.
fn differ_in_count(a: &ValueContext, b: &ValueContext) -> bool
    ensures { IsTrue result → (values_match a.now b.now && has_names b.now a.now) ≡ false }
{
    if a.entries().len() == b.entries().len() {
        return false;
    }
    a.size().is_some() && b.size().is_some()
}

// Whether the lists have one length and equal members.
#[cycle(same)]
fn same_items(a: &[Value], b: &[Value]) -> bool
    ensures { result ≡ items_equal (items_view a.now) (items_view b.now) }
{
    if a.len() != b.len() {
        return false;
    }
    for (i, item) in a.iter().enumerate() {
        if same_value(item, &b[i]) != Truth::Yes {
            return false;
        }
    }
    true
}

// Whether they have the same names, and equal values at each name.
#[cycle(same)]
fn same_contexts(a: &Vec<(ArcStr, Value)>, b: &Vec<(ArcStr, Value)>) -> bool
    ensures { result ≡ (values_match (entries_view a.now.items) (entries_view b.now.items) && has_names (entries_view b.now.items) (entries_view a.now.items)) }
{
    if names_agree(a, b) {
        return same_entries(a, b);
    }
    if a.len() > FEW && b.len() > FEW {
        if let Some(same) = same_by_name(a, b) {
            return same;
        }
    }
    same_entries(a, b) && names_within(b, a)
}

// The same, told by the entries in the order of their names. None where the heap is full, or a name is there twice.
#[cycle(same)]
#[inline(never)]
fn same_by_name(a: &Vec<(ArcStr, Value)>, b: &Vec<(ArcStr, Value)>) -> Option<bool>
    ensures { IfSome result (λ same. same ≡ (values_match (entries_view a.now.items) (entries_view b.now.items) && has_names (entries_view b.now.items) (entries_view a.now.items))) }
{
    let x = by_name(a).ok()??;
    let y = by_name(b).ok()??;
    Some(same_pairs(&x, &y))
}

// Whether both have the same names in one order, and equal values in their places.
#[cycle(same)]
fn same_pairs(a: &[&(ArcStr, Value)], b: &[&(ArcStr, Value)]) -> bool
    ensures { result ≡ pairs_equal (entries_view (lent a.now)) (entries_view (lent b.now)) }
{
    if a.len() != b.len() {
        return false;
    }
    for (i, (name, value)) in a.iter().enumerate() {
        let (other_name, other) = b[i];
        if name.as_str() != other_name.as_str() || same_value(value, other) != Truth::Yes {
            return false;
        }
    }
    true
}

// Whether each entry of the first has its name and an equal value in the second.
#[cycle(same)]
fn same_entries(a: &[(ArcStr, Value)], b: &[(ArcStr, Value)]) -> bool
    ensures { result ≡ values_match (entries_view a.now) (entries_view b.now) }
{
    for (i, (name, value)) in a.iter().enumerate() {
        if !has_equal(value, name.as_str(), b, i) {
            return false;
        }
    }
    true
}

// Whether an entry has the name and an equal value. From `place` on is looked first: there it stands in contexts of one order.
#[cycle(same)]
fn has_equal(value: &Value, name: &str, entries: &[(ArcStr, Value)], place: usize) -> bool
    ensures { result ≡ has_entry (λ e. is_yes (equal_of (datum_of value.now) e)) name.now (entries_view entries.now) }
{
    let (before, after) = entries.split_at(place.min(entries.len()));
    has_equal_among(value, name, after) || has_equal_among(value, name, before)
}

#[cycle(same)]
fn has_equal_among(value: &Value, name: &str, entries: &[(ArcStr, Value)]) -> bool
    ensures { result ≡ has_entry (λ e. is_yes (equal_of (datum_of value.now) e)) name.now (entries_view entries.now) }
{
    for (key, other) in entries {
        if name == key.as_str() && same_value(value, other) == Truth::Yes {
            return true;
        }
    }
    false
}

// Whether both have the same names in one order.
fn names_agree(a: &[(ArcStr, Value)], b: &[(ArcStr, Value)]) -> bool
    ensures { result ≡ same_names (entries_view a.now) (entries_view b.now) }
{
    if a.len() != b.len() {
        return false;
    }
    for (i, (name, _)) in a.iter().enumerate() {
        if name.as_str() != b[i].0.as_str() {
            return false;
        }
    }
    true
}

// Whether each name of the first is a name of the second.
fn names_within(a: &[(ArcStr, Value)], b: &[(ArcStr, Value)]) -> bool
    ensures { result ≡ has_names (entries_view a.now) (entries_view b.now) }
{
    for (i, (name, _)) in a.iter().enumerate() {
        if !has_name(name.as_str(), b, i) {
            return false;
        }
    }
    true
}

// Whether an entry has the name, looked for from `place` on first.
fn has_name(name: &str, entries: &[(ArcStr, Value)], place: usize) -> bool
    ensures { result ≡ is_name_of name.now (entries_view entries.now) }
{
    let (before, after) = entries.split_at(place.min(entries.len()));
    find(after, name).is_some() || find(before, name).is_some()
}
