//! Whether values are one and the same.
ghost use Rattle.std.specs.Prelude.{◌≡◌, ◌↔◌, IsTrue};
ghost use Rattle.feel_value.specs.View.{datum_of, items_view, entries_view};
ghost use Rattle.dmn_plan.specs.Identical.{is_same, are_same_items, are_same_entries};

use feel_value::{Feel, Value};
use std::sync::ArcStr;

/// Whether two lists have the same values in one order. The time is linear in the nodes.
pub(crate) fn same_values(a: &[Feel], b: &[Feel]) -> bool
    ensures { IsTrue result ↔ (a.now ≡ b.now) }
{
    if a.len() != b.len() {
        return false;
    }
    for (i, value) in a.iter().enumerate() {
        if !same_value(value.value(), b[i].value()) {
            return false;
        }
    }
    true
}

/// Whether two values are of one kind and have the same parts, contexts in one order.
#[cycle(same)]
pub(crate) fn same_value(a: &Value, b: &Value) -> bool
    ensures { result ≡ is_same (datum_of a.now) (datum_of b.now) }
{
    match (a, b) {
        (Value::Null, Value::Null) => true,
        (Value::Bool(x), Value::Bool(y)) => *x == *y,
        (Value::Number(x), Value::Number(y)) => *x == *y,
        (Value::Text(x), Value::Text(y)) => x.as_str() == y.as_str(),
        (Value::List(x), Value::List(y)) => same_items(x.values(), y.values()),
        (Value::Context(x), Value::Context(y)) => same_entries(x.entries(), y.entries()),
        _ => false,
    }
}

/// Whether two lists have the same members.
#[cycle(same)]
fn same_items(a: &[Value], b: &[Value]) -> bool
    ensures { result ≡ are_same_items (items_view a.now) (items_view b.now) }
{
    if a.len() != b.len() {
        return false;
    }
    for (i, item) in a.iter().enumerate() {
        if !same_value(item, &b[i]) {
            return false;
        }
    }
    true
}

/// Whether two contexts have the same entries in one order.
#[cycle(same)]
fn same_entries(a: &[(ArcStr, Value)], b: &[(ArcStr, Value)]) -> bool
    ensures { result ≡ are_same_entries (entries_view a.now) (entries_view b.now) }
{
    if a.len() != b.len() {
        return false;
    }
    for (i, (name, value)) in a.iter().enumerate() {
        let (key, other) = &b[i];
        if name.as_str() != key.as_str() || !same_value(value, other) {
            return false;
        }
    }
    true
}
