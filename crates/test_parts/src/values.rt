//! What no clause says: that the definitions are the ones meant, at values worked out by hand, and that the calls succeed.
mod contexts;
mod refused;

use feel_value::{Feel, Truth, Value, ValueFault, equal};
use std::alloc::{AllocError, Global};
use std::sync::ArcStr;
use std::test::Fail;

/// The word for why a text is no value; out of memory has none.
fn word_of(fault: ValueFault) -> Result<&'static str, AllocError> {
    match fault {
        ValueFault::Number => Ok("number"),
        ValueFault::Size => Ok("size"),
        ValueFault::Memory => Err(AllocError),
    }
}

/// Whether both are the same JSON.
fn is_same_json(alloc: Global, value: &Feel, other: &Feel) -> Result<bool, AllocError> {
    Ok(value.to_json(alloc)? == other.to_json(alloc)?)
}

/// The value's copy as text, and `another copy` where that isn't equal.
fn text_of_copy(alloc: Global, value: &Feel) -> Result<String, AllocError> {
    let copy = value.try_clone()?;
    if equal(value, &copy) == Truth::Yes && is_same_json(alloc, value, &copy)? {
        copy.to_json(alloc)?.to_string(alloc)
    } else {
        String::from_str(alloc, "another copy")
    }
}

/// What is told of a JSON text: the value as text, which its copy has too, or why it is none.
fn told(alloc: Global, text: &str) -> Result<String, Fail> {
    let json = serde_json::Value::from_str(alloc, text)?;
    match Feel::from_json(alloc, &json) {
        Ok(value) => Ok(text_of_copy(alloc, &value)?),
        Err(fault) => Ok(String::from_str(alloc, word_of(fault)?)?),
    }
}

const TEXTS: &[(&str, &str)] = &[
    ("9223372036854775807", "9223372036854775807"),
    ("-9223372036854775807", "-9223372036854775807"),
    ("9223372036854775808", "number"),
    ("-9223372036854775808", "number"),
    ("18446744073709551615", "number"),
    ("1.5", "number"),
    ("1.0", "number"),
    ("1e2", "number"),
    ("-0", "number"),
    ("0", "0"),
    ("{\"a\":[1,{\"b\":1.5}]}", "number"),
    ("null", "null"),
    ("true", "true"),
    ("-7", "-7"),
    ("\"text\"", "\"text\""),
    ("[1,[],\"a\"]", "[1,[],\"a\"]"),
    (
        "{\"b\":1,\"a\":{\"c\":[null]}}",
        "{\"a\":{\"c\":[null]},\"b\":1}",
    ),
];

#[test]
fn values_from_json(rt: HostRuntime) -> Result<(), Fail> {
    for (text, want) in TEXTS {
        assert_eq!(rt; told(rt.alloc(), text)?.as_str(), *want, "at {text}");
    }
    Ok(())
}

/// Texts of JSON, as so many of one text, so many of another behind it, and an end; and what is told, where that isn't the
/// text itself. A number that is out of range counts before the size, and each size is told at its limit.
const SIZES: &[(&str, usize, &str, usize, &str, Option<&str>)] = &[
    ("[null", 1, ",null", 9_998, "]", None),
    ("[null", 1, ",null", 9_999, "]", Some("size")),
    ("[", 100, "]", 100, "", None),
    ("[", 101, "]", 101, "", Some("size")),
    ("[", 111, "]", 110, ",1.5]", Some("number")),
];

/// So many of one text, so many of another behind it, and an end.
fn repeated(
    alloc: Global,
    (open, before): (&str, usize),
    (close, behind): (&str, usize),
    end: &str,
) -> Result<String, AllocError> {
    let mut text = open.repeat(alloc, before)?;
    text.push_str(close.repeat(alloc, behind)?.as_str())?;
    text.push_str(end)?;
    Ok(text)
}

#[test]
fn sizes_from_json(rt: HostRuntime) -> Result<(), Fail> {
    for (open, before, close, behind, end, want) in SIZES {
        let text = repeated(rt.alloc(), (open, *before), (close, *behind), end)?;
        let found = told(rt.alloc(), text.as_str())?;
        assert_eq!(rt; found.as_str(), want.unwrap_or(text.as_str()));
    }
    Ok(())
}

/// A context with null at each of the names.
fn named(alloc: Global, names: &[&str]) -> Result<Value, AllocError> {
    let mut entries = Vec::new(alloc);
    for name in names {
        entries.push((ArcStr::from_str(alloc, name)?, Value::Null))?;
    }
    Ok(Value::context(alloc, entries)?)
}

const LISTS_OF_NAMES: &[(&[&str], bool)] = &[
    (&[], true),
    (&["a", "b", "c"], true),
    (&["c", "b", "a"], true),
    (&["b", "a", "c"], true),
    (&["a", "a"], false),
    (&["a", "b", "a"], false),
    (&["c", "a", "c"], false),
];

/// Whether a context with null at each of the names is a value.
fn is_value(alloc: Global, names: &[&str]) -> Result<bool, AllocError> {
    Ok(Feel::of(named(alloc, names)?).is_some())
}

/// Contexts made by hand, with names in several orders.
#[test]
fn contexts_by_hand(rt: HostRuntime) -> Result<(), Fail> {
    for (names, distinct) in LISTS_OF_NAMES {
        assert_eq!(rt; is_value(rt.alloc(), names)?, *distinct, "at {names:?}");
    }
    Ok(())
}

/// A repeated name inside a list, and numbers at the limit and past it.
#[test]
fn values_by_hand(rt: HostRuntime) -> Result<(), Fail> {
    let twice = named(rt.alloc(), &["a", "a"])?;
    let inside = Value::list(rt.alloc(), vec![in rt.alloc(); twice]?)?;
    assert!(rt; Feel::of(inside).is_none());
    assert!(rt; Feel::of(Value::Number(i64::MIN)).is_none());
    assert!(rt; Feel::of(Value::Number(-i64::MAX)).is_some());
    Ok(())
}

/// The list of so many nulls.
fn nulls(alloc: Global, count: usize) -> Result<Value, AllocError> {
    let mut values = Vec::new(alloc);
    for _ in 0..count {
        values.push(Value::Null)?;
    }
    Value::list(alloc, values)
}

/// The list of two lists: of so many nulls, and of so many.
fn pair(alloc: Global, first: usize, second: usize) -> Result<Value, Fail> {
    let first = nulls(alloc, first)?;
    let second = nulls(alloc, second)?;
    Ok(Value::list(alloc, vec![in alloc; first, second]?)?)
}

/// Values made by hand, of just as many nodes as there may be, and of one more.
#[test]
fn nodes_by_hand(rt: HostRuntime) -> Result<(), Fail> {
    assert!(rt; Feel::of(nulls(rt.alloc(), 9_999)?).is_some());
    assert!(rt; Feel::of(nulls(rt.alloc(), 10_000)?).is_none());
    assert!(rt; Feel::of(pair(rt.alloc(), 4_998, 4_999)?).is_some());
    assert!(rt; Feel::of(pair(rt.alloc(), 4_999, 4_999)?).is_none());
    assert!(rt; Feel::of(pair(rt.alloc(), 70_000, 1)?).is_none());
    Ok(())
}

/// A null so many lists deep.
fn deep(alloc: Global, lists: usize) -> Result<Value, Fail> {
    let mut value = Value::Null;
    for _ in 0..lists {
        value = Value::list(alloc, vec![in alloc; value]?)?;
    }
    Ok(value)
}

/// Values made by hand, just as deep as a value may be, and deeper.
#[test]
fn depths_by_hand(rt: HostRuntime) -> Result<(), Fail> {
    assert!(rt; Feel::of(deep(rt.alloc(), 99)?).is_some());
    assert!(rt; Feel::of(deep(rt.alloc(), 100)?).is_none());
    assert!(rt; Feel::of(deep(rt.alloc(), 400)?).is_none());
    Ok(())
}

#[test]
fn bytes_of_a_value(rt: HostRuntime) -> Result<(), Fail> {
    assert_eq!(rt; std::mem::size_of::<Value>(), 16);
    assert_eq!(rt; std::mem::size_of::<Feel>(), 16);
    Ok(())
}
